// Lexing by the rules that a lent table holds.
ghost use Rattle.std.specs.Prelude.{List};
ghost use Rattle.automaton.specs.Rule.{Rule};
ghost use Rattle.automaton.specs.Layers.{Holds, Held};
ghost use Rattle.lexer.specs.Outcome.{rest_rules};
ghost use Rattle.lexer.specs.Masked.{masked_rules};
ghost use Rattle.lexer.specs.Layers.{LexAnswered, RestAt};

use answer::{Cut, Reason, Refusal};
use book::Book;

// Every token has a byte, so that as many records and masks as the text has bytes are surely enough, and the text is walked once; else
// the tokens are counted before the first record is written.
pub fn lex_rules(
    table: &[u64],
    text: &[u8],
    records: &mut [u8],
    masks: &mut [u8],
) -> Result<Cut, Refusal>
    requires { Held table.now }
    ensures { (rs : List Rule) → Holds table.now rs
        → LexAnswered (masked_rules rs text.now records.old masks.old) result records.new
        masks.new }
{
    if Book::TEXT < text.len() {
        return Err(Reason::TextTooLong.at(0));
    }
    let room = record::room(records, masks);
    if room < text.len() {
        let needed = longest_match::count(table, text);
        if room < needed.tokens {
            return Err(Reason::TooFewRecords.at(needed.tokens));
        }
    }
    Ok(crate::filling::fill(table, text, records, masks))
}

// The place of the rest.
pub fn rest_rules(table: &[u64], text: &[u8]) -> usize
    requires { Held table.now }
    ensures { (rs : List Rule) → Holds table.now rs
        → RestAt text.now result (rest_rules rs text.now) }
{
    if text.len() <= Book::TEXT {
        longest_match::count(table, text).rest
    } else {
        0
    }
}
