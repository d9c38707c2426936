// Cutting by a book's bytes, open to every caller: it asks nothing and refuses what is unfit. `lex` cuts a text, `rest` hands back what is
// left of it. The table for the book's rules is a local of the call: `sizes` picks its size, loads the book, and has crate `lexer` cut by
// the rules that it then holds.
#![tactic(auto)]

pub mod sizes;

ghost use Rattle.std.specs.Prelude.{◌≡◌};
ghost use Rattle.lexer.specs.Outcome.{rest_of};
ghost use Rattle.lexer.specs.Masked.{masked_outcome};

use answer::{Cut, Refusal};

// Cuts `text` by the rules of a book: the number of tokens and the place of the rest, or the refusal of document 01.
// A record of each token stands from the start of `records`, and from the start of `masks` the mask of the rules that match just its
// bytes; every other byte stays as it was.
pub fn lex(book: &[u8], text: &[u8], records: &mut [u8], masks: &mut [u8]) -> Result<Cut, Refusal>
    ensures value { result ≡ (masked_outcome book.now text.now records.old masks.old).answer }
    ensures records_after { records.new
        ≡ (masked_outcome book.now text.now records.old masks.old).records }
    ensures masks_after { masks.new
        ≡ (masked_outcome book.now text.now records.old masks.old).masks }
{
    crate::sizes::lex_sized(book, text, records, masks)
}

// The rest of `text`, as a part of it: its bytes from the first place at which no rule of the book matches. Where `lex`
// refuses the book or the text, the rest is the whole text.
pub fn rest<'a>(book: &[u8], text: &'a [u8]) -> &'a [u8]
    ensures { result.now ≡ rest_of book.now text.now }
{
    let at = crate::sizes::rest_place(book, text);
    &text[at..]
}
