// Lexing a text into the ten-byte records and the four-byte masks of its tokens.
ghost use Rattle.std.specs.Prelude.{List};
ghost use Rattle.automaton.specs.Rule.{Rule};
ghost use Rattle.automaton.specs.Layers.{Holds};
ghost use Rattle.longest_match.specs.Layers.{Cuts};
ghost use Rattle.lexer.specs.Layers.{RecordsRoom, Fills};

use answer::Cut;

// How `text` is cut, with a record and a mask of each token stored from the starts of `records` and `masks`. `longest_match::count` stays
// beside it: one loop for both asks at each token whether to write, and is no plainer.
pub fn fill(table: &[u64], text: &[u8], records: &mut [u8], masks: &mut [u8]) -> Cut
    requires { RecordsRoom table.now text.now records.old masks.old }
    ensures cuts { (rs : List Rule) → Holds table.now rs → Cuts rs text.now result.tokens result.rest }
    ensures fills { (rs : List Rule) → Holds table.now rs
        → Fills rs text.now records.old records.new masks.old masks.new }
{
    let mut lengths = [0usize; automaton::RULES];
    let mut tokens = 0;
    let mut place = 0;
    while place < text.len() {
        let Some(c) = longest_match::choose_with(table, text, place, text.len(), &mut lengths)
        else {
            break;
        };
        let tag = automaton::tag_of(table, c.rule);
        record::put_record(records, tokens, tag, place, c.len);
        record::put_mask(masks, tokens, c.mask);
        tokens += 1;
        place += c.len;
    }
    Cut {
        tokens,
        rest: place,
    }
}
