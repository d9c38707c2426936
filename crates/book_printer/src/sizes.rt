// Printing a list with a scratch for its bytes, small where the list is short, and with a table of the size that the book needs, as
// `book_lexer` has them for cutting (docs/DECISIONS.md, "Sizes by need").
ghost use Rattle.std.specs.Prelude.{◌≡◌, true, ◌≤◌, length, replicate};
ghost use Rattle.book.specs.Limits.{max_text};
ghost use Rattle.reader.specs.Layers.{Lent, Suits};
ghost use Rattle.output.specs.Layers.{PrintAnswered};
ghost use Rattle.printer.specs.Outcome.{print_outcome};
ghost use Rattle.printer.specs.Layers.{Roomy, Short};

use answer::Refusal;
use book::Book;

// Whether the tokens of a list lie in the pool and have so few bytes that a small scratch has room for them.
pub fn is_short(records: &[u8], pool: &[u8]) -> bool
    ensures { result ≡ true → Short records.now pool.now }
{
    if Book::SMALL < records.len() / 10 {
        return false;
    }
    match token_list::readback::measure(records, pool) {
        Some(total) => total <= Book::SMALL,
        None => false,
    }
}

// With a scratch of so many bytes.
#[inline(never)]
pub fn print_through<const BYTES: usize>(
    book: &[u8],
    records: &[u8],
    pool: &[u8],
    out: &mut [u8],
) -> Result<usize, Refusal>
    requires few { BYTES ≤ max_text }
    requires room { Roomy records.now pool.now (replicate BYTES 0) }
    ensures { PrintAnswered
        (print_outcome book.now records.now pool.now out.old)
        result out.new }
{
    let mut scratch = [0u8; BYTES];
    print_sized(book, records, pool, &mut scratch, out)
}

pub fn print_sized(
    book: &[u8],
    records: &[u8],
    pool: &[u8],
    scratch: &mut [u8],
    out: &mut [u8],
) -> Result<usize, Refusal>
    requires { Roomy records.now pool.now scratch.old }
    ensures { PrintAnswered
        (print_outcome book.now records.now pool.now out.old)
        result out.new }
{
    match book.len() {
        0..=1024 => print_in::<322>(book, records, pool, scratch, out),
        1025..=2048 => print_in::<578>(book, records, pool, scratch, out),
        2049..=4096 => print_in::<1090>(book, records, pool, scratch, out),
        4097..=8192 => print_in::<2114>(book, records, pool, scratch, out),
        8193..=16384 => print_in::<4162>(book, records, pool, scratch, out),
        16385..=32768 => print_in::<8258>(book, records, pool, scratch, out),
        _ => print_in::<16450>(book, records, pool, scratch, out),
    }
}

// With a table of so many words.
#[inline(never)]
fn print_in<const WORDS: usize>(
    book: &[u8],
    records: &[u8],
    pool: &[u8],
    scratch: &mut [u8],
    out: &mut [u8],
) -> Result<usize, Refusal>
    requires suits { Suits (length book.now) WORDS }
    requires roomy { Roomy records.now pool.now scratch.old }
    ensures { PrintAnswered
        (print_outcome book.now records.now pool.now out.old)
        result out.new }
{
    let mut table = [0u64; WORDS];
    print_with(book, &mut table, records, pool, scratch, out)
}

// With a table for the book's rules and a scratch for the list's bytes.
fn print_with(
    book: &[u8],
    table: &mut [u64],
    records: &[u8],
    pool: &[u8],
    scratch: &mut [u8],
    out: &mut [u8],
) -> Result<usize, Refusal>
    requires lent { Lent (length book.now) table.old }
    requires roomy { Roomy records.now pool.now scratch.old }
    ensures { PrintAnswered
        (print_outcome book.now records.now pool.now out.old)
        result out.new }
{
    reader::load(book, table)?;
    printer::by_rules::print_rules(table, records, pool, scratch, out)
}
