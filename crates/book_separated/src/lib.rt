// Printing with separators by a book's bytes, open to every caller: it asks nothing and refuses what is unfit. The scratch in which a list
// is put together and the table for the book's rules are locals of the call: `sizes` picks their sizes, loads the book, and has crate
// `separated` print by the rules that it then holds.
#![tactic(auto)]

mod sizes;

ghost use Rattle.std.specs.Prelude.{◌≡◌};
ghost use Rattle.separated.specs.Outcome.{separated_outcome};

use answer::Refusal;
use book::Book;
use record::TokenRecord;

// Prints the tokens that `records` say with `pool`, by the rules of a book, with the separator token between neighbours: in mode 1
// between all, in modes 0 and 2 where a token would be read on. The answer is the number of bytes, which stand at the start of
// `out`, or the refusal of document 01. Every other byte of `out` stays as it was.
pub fn print_separated(
    book: &[u8],
    separator: TokenRecord,
    mode: u32,
    records: &[u8],
    pool: &[u8],
    out: &mut [u8],
) -> Result<usize, Refusal>
    ensures value { result
        ≡ (separated_outcome book.now separator mode records.now pool.now out.old).answer }
    ensures out_after { out.new
        ≡ (separated_outcome book.now separator mode records.now pool.now out.old).out }
{
    if sizes::is_short(separator, records, pool) {
        return sizes::print_through::<{ Book::SMALL }>(book, separator, mode, records, pool, out);
    }
    sizes::print_through::<{ Book::TEXT }>(book, separator, mode, records, pool, out)
}
