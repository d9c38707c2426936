// A turn with a table of the size that the book needs, as `book_lexer` has them for a whole cut (docs/DECISIONS.md, "Sizes by need").
ghost use Rattle.std.specs.Prelude.{length};
ghost use Rattle.reader.specs.Layers.{Lent, Suits};
ghost use Rattle.turns.specs.Outcome.{turn_outcome};
ghost use Rattle.turns.specs.Layers.{TurnAnswered};

use answer::{Reason, Refusal, Turn};
use book::Book;

pub fn turn_sized(
    book: &[u8],
    text: &[u8],
    place: usize,
    budget: usize,
    records: &mut [u8],
    masks: &mut [u8],
) -> Result<Turn, Refusal>
    ensures { TurnAnswered
        (turn_outcome book.now text.now place budget records.old masks.old) result
        records.new masks.new }
{
    if Book::BYTES < book.len() {
        // a book that is too long needs no table
        return Err(Reason::BookTooLong.at(0));
    }
    match book.len() {
        0..=1024 => turn_in::<322>(book, text, place, budget, records, masks),
        1025..=2048 => turn_in::<578>(book, text, place, budget, records, masks),
        2049..=4096 => turn_in::<1090>(book, text, place, budget, records, masks),
        4097..=8192 => turn_in::<2114>(book, text, place, budget, records, masks),
        8193..=16384 => turn_in::<4162>(book, text, place, budget, records, masks),
        16385..=32768 => turn_in::<8258>(book, text, place, budget, records, masks),
        _ => turn_in::<16450>(book, text, place, budget, records, masks),
    }
}

// With a table of so many words.
#[inline(never)]
fn turn_in<const WORDS: usize>(
    book: &[u8],
    text: &[u8],
    place: usize,
    budget: usize,
    records: &mut [u8],
    masks: &mut [u8],
) -> Result<Turn, Refusal>
    requires { Suits (length book.now) WORDS }
    ensures { TurnAnswered
        (turn_outcome book.now text.now place budget records.old masks.old) result
        records.new masks.new }
{
    let mut table = [0u64; WORDS];
    turn_with(book, &mut table, text, place, budget, records, masks)
}

// With a table for the book's rules.
fn turn_with(
    book: &[u8],
    table: &mut [u64],
    text: &[u8],
    place: usize,
    budget: usize,
    records: &mut [u8],
    masks: &mut [u8],
) -> Result<Turn, Refusal>
    requires { Lent (length book.now) table.old }
    ensures { TurnAnswered
        (turn_outcome book.now text.now place budget records.old masks.old) result
        records.new masks.new }
{
    reader::load(book, table)?;
    turns::by_rules::turn_rules(table, text, place, budget, records, masks)
}
