// Printing by a book's bytes, open to every caller: it asks nothing and refuses what is unfit. The scratch in which a list is put together
// and the table for the book's rules are locals of the call: `sizes` picks their sizes, loads the book, and has crate `printer` print by
// the rules that it then holds.
#![tactic(auto)]

mod sizes;

ghost use Rattle.std.specs.Prelude.{◌≡◌};
ghost use Rattle.printer.specs.Outcome.{print_outcome};

use answer::Refusal;
use book::Book;

// Prints the tokens that `records` say with `pool`, by the rules of a book: the number of bytes, which stand at the start of `out`,
// or the refusal of document 01. Every other byte of `out` stays as it was.
pub fn print(book: &[u8], records: &[u8], pool: &[u8], out: &mut [u8]) -> Result<usize, Refusal>
    ensures value { result ≡ (print_outcome book.now records.now pool.now out.old).answer }
    ensures out_after { out.new
        ≡ (print_outcome book.now records.now pool.now out.old).out }
{
    if sizes::is_short(records, pool) {
        return sizes::print_through::<{ Book::SMALL }>(book, records, pool, out);
    }
    sizes::print_through::<{ Book::TEXT }>(book, records, pool, out)
}
