// Cutting in turns (document 02, wish 1) by a book's bytes, open to every caller: it asks nothing and refuses what is unfit. The table for
// the book's rules is a local of the call: `sizes` picks its size, loads the book, and has crate `turns` take the turn.
#![tactic(auto)]

mod sizes;

ghost use Rattle.std.specs.Prelude.{◌≡◌};
ghost use Rattle.turns.specs.Outcome.{turn_outcome};

use answer::{Refusal, Turn};

// Cuts `text` from `place` on by the rules of a book, as long as the next reach fits what is left of `budget`: the number of tokens, the
// next place, the bytes examined, and whether no token begins at the next place; or the refusal.
// The records and the masks of the turn's own tokens stand from the starts of `records` and `masks`, with places from the start of `text`;
// every other byte stays as it was.
pub fn lex_within(
    book: &[u8],
    text: &[u8],
    place: usize,
    budget: usize,
    records: &mut [u8],
    masks: &mut [u8],
) -> Result<Turn, Refusal>
    ensures value { result
        ≡ (turn_outcome book.now text.now place budget records.old masks.old).answer }
    ensures records_after { records.new
        ≡ (turn_outcome book.now text.now place budget records.old masks.old).records }
    ensures masks_after { masks.new
        ≡ (turn_outcome book.now text.now place budget records.old masks.old).masks }
{
    crate::sizes::turn_sized(book, text, place, budget, records, masks)
}
