// Lexing, and the place of the rest, with a table of the size that the book needs: a word for four of its bytes, and 66 beside them. The
// sizes double, and each table is a local of a call of its own: a call clears, and takes of the stack, what its book needs
// (docs/DECISIONS.md, "Sizes by need"). The seven arms stand in five crates: a closure that is lent the table would hold the caller's lent buffers, and is no plainer.
ghost use Rattle.std.specs.Prelude.{length};
ghost use Rattle.reader.specs.Layers.{Lent, Suits};
ghost use Rattle.lexer.specs.Outcome.{rest_of};
ghost use Rattle.lexer.specs.Masked.{masked_outcome};
ghost use Rattle.lexer.specs.Layers.{LexAnswered, RestAt};

use answer::{Cut, Reason, Refusal};
use book::Book;

pub fn lex_sized(
    book: &[u8],
    text: &[u8],
    records: &mut [u8],
    masks: &mut [u8],
) -> Result<Cut, Refusal>
    ensures { LexAnswered (masked_outcome book.now text.now records.old masks.old) result
        records.new masks.new }
{
    if Book::BYTES < book.len() {
        // a book that is too long needs no table
        return Err(Reason::BookTooLong.at(0));
    }
    match book.len() {
        0..=1024 => lex_in::<322>(book, text, records, masks),
        1025..=2048 => lex_in::<578>(book, text, records, masks),
        2049..=4096 => lex_in::<1090>(book, text, records, masks),
        4097..=8192 => lex_in::<2114>(book, text, records, masks),
        8193..=16384 => lex_in::<4162>(book, text, records, masks),
        16385..=32768 => lex_in::<8258>(book, text, records, masks),
        _ => lex_in::<16450>(book, text, records, masks),
    }
}

// With a table of so many words.
#[inline(never)]
fn lex_in<const WORDS: usize>(
    book: &[u8],
    text: &[u8],
    records: &mut [u8],
    masks: &mut [u8],
) -> Result<Cut, Refusal>
    requires { Suits (length book.now) WORDS }
    ensures { LexAnswered (masked_outcome book.now text.now records.old masks.old) result
        records.new masks.new }
{
    let mut table = [0u64; WORDS];
    lex_with(book, &mut table, text, records, masks)
}

// With a table for the book's rules.
pub fn lex_with(
    book: &[u8],
    table: &mut [u64],
    text: &[u8],
    records: &mut [u8],
    masks: &mut [u8],
) -> Result<Cut, Refusal>
    requires { Lent (length book.now) table.old }
    ensures { LexAnswered (masked_outcome book.now text.now records.old masks.old) result
        records.new masks.new }
{
    reader::load(book, table)?;
    lexer::by_rules::lex_rules(table, text, records, masks)
}

// The place of the rest.
pub fn rest_place(book: &[u8], text: &[u8]) -> usize
    ensures { RestAt text.now result (rest_of book.now text.now) }
{
    match book.len() {
        0..=1024 => rest_in::<322>(book, text),
        1025..=2048 => rest_in::<578>(book, text),
        2049..=4096 => rest_in::<1090>(book, text),
        4097..=8192 => rest_in::<2114>(book, text),
        8193..=16384 => rest_in::<4162>(book, text),
        16385..=32768 => rest_in::<8258>(book, text),
        _ => rest_in::<16450>(book, text),
    }
}

#[inline(never)]
fn rest_in<const WORDS: usize>(book: &[u8], text: &[u8]) -> usize
    requires { Suits (length book.now) WORDS }
    ensures { RestAt text.now result (rest_of book.now text.now) }
{
    let mut table = [0u64; WORDS];
    rest_with(book, &mut table, text)
}

fn rest_with(book: &[u8], table: &mut [u64], text: &[u8]) -> usize
    requires { Lent (length book.now) table.old }
    ensures { RestAt text.now result (rest_of book.now text.now) }
{
    match reader::load(book, table) {
        Ok(_) => lexer::by_rules::rest_rules(table, text),
        Err(_) => 0,
    }
}
