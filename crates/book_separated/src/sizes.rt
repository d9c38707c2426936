// Printing a list with separators: the scratch is small where the list is short, and the table has the size that the book needs, as
// `book_lexer` has them for cutting (docs/DECISIONS.md, "Sizes by need").
ghost use Rattle.std.specs.Prelude.{◌≡◌, true, ◌≤◌, length, replicate};
ghost use Rattle.book.specs.Limits.{max_text};
ghost use Rattle.reader.specs.Layers.{Lent, Suits};
ghost use Rattle.output.specs.Layers.{PrintAnswered};
ghost use Rattle.separated.specs.Outcome.{separated_outcome};
ghost use Rattle.separated.specs.Layers.{Roomy, Short};

use answer::Refusal;
use book::Book;
use record::TokenRecord;

// Whether the tokens of a list lie in the pool and a small scratch has room for them with a separator each.
pub fn is_short(separator: TokenRecord, records: &[u8], pool: &[u8]) -> bool
    ensures { result ≡ true → Short separator records.now pool.now }
{
    let count = records.len() / 10;
    if Book::SMALL < count {
        return false;
    }
    match token_list::readback::measure(records, pool) {
        Some(total) => total + count * (separator.len as usize) <= Book::SMALL,
        None => false,
    }
}

// With a scratch of so many bytes.
#[inline(never)]
pub fn print_through<const BYTES: usize>(
    book: &[u8],
    separator: TokenRecord,
    mode: u32,
    records: &[u8],
    pool: &[u8],
    out: &mut [u8],
) -> Result<usize, Refusal>
    requires few { BYTES ≤ max_text }
    requires room { Roomy separator mode records.now pool.now (replicate BYTES 0) }
    ensures { PrintAnswered
        (separated_outcome book.now separator mode records.now pool.now out.old)
        result out.new }
{
    let mut scratch = [0u8; BYTES];
    print_sized(book, separator, mode, records, pool, &mut scratch, out)
}

pub fn print_sized(
    book: &[u8],
    separator: TokenRecord,
    mode: u32,
    records: &[u8],
    pool: &[u8],
    scratch: &mut [u8],
    out: &mut [u8],
) -> Result<usize, Refusal>
    requires { Roomy separator mode records.now pool.now scratch.old }
    ensures { PrintAnswered
        (separated_outcome book.now separator mode records.now pool.now out.old)
        result out.new }
{
    match book.len() {
        0..=1024 => print_in::<322>(book, separator, mode, records, pool, scratch, out),
        1025..=2048 => print_in::<578>(book, separator, mode, records, pool, scratch, out),
        2049..=4096 => print_in::<1090>(book, separator, mode, records, pool, scratch, out),
        4097..=8192 => print_in::<2114>(book, separator, mode, records, pool, scratch, out),
        8193..=16384 => print_in::<4162>(book, separator, mode, records, pool, scratch, out),
        16385..=32768 => print_in::<8258>(book, separator, mode, records, pool, scratch, out),
        _ => print_in::<16450>(book, separator, mode, records, pool, scratch, out),
    }
}

// With a table of so many words.
#[inline(never)]
fn print_in<const WORDS: usize>(
    book: &[u8],
    separator: TokenRecord,
    mode: u32,
    records: &[u8],
    pool: &[u8],
    scratch: &mut [u8],
    out: &mut [u8],
) -> Result<usize, Refusal>
    requires suits { Suits (length book.now) WORDS }
    requires roomy { Roomy separator mode records.now pool.now scratch.old }
    ensures { PrintAnswered
        (separated_outcome book.now separator mode records.now pool.now out.old)
        result out.new }
{
    let mut table = [0u64; WORDS];
    print_with(
        book, &mut table, separator, mode, records, pool, scratch, out,
    )
}

// With a table for the book's rules and a scratch for the list's bytes.
fn print_with(
    book: &[u8],
    table: &mut [u64],
    separator: TokenRecord,
    mode: u32,
    records: &[u8],
    pool: &[u8],
    scratch: &mut [u8],
    out: &mut [u8],
) -> Result<usize, Refusal>
    requires lent { Lent (length book.now) table.old }
    requires roomy { Roomy separator mode records.now pool.now scratch.old }
    ensures { PrintAnswered
        (separated_outcome book.now separator mode records.now pool.now out.old)
        result out.new }
{
    reader::load(book, table)?;
    separated::print_rules(table, separator, mode, records, pool, scratch, out)
}
