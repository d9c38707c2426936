// Reading back the joined bytes of tokens: a token that is chosen at its own place, by its own rule, is alone and is not read on.
ghost use Rattle.std.specs.Prelude.{List, ℕ};
ghost use Rattle.automaton.specs.Rule.{Rule};
ghost use Rattle.automaton.specs.Layers.{Holds, Held};
ghost use Rattle.token_list.specs.Layers.{Spans, Spread, Spreads, ReadsBack};

use book::Book;

// How many bytes the tokens have; None where one lies outside the pool, or they are too many to be written.
pub fn measure(records: &[u8], pool: &[u8]) -> Option<usize>
    ensures { Spans records.now pool.now result }
{
    let mut total = 0;
    for k in 0..records.len() / 10 {
        let token = record::read_record(records, k);
        let len = token.len as usize;
        if pool.len() < token.place as usize + len {
            return None;
        }
        total += len;
        if Book::TEXT < total {
            return None;
        }
    }
    Some(total)
}

// The number of the first token that is not what is chosen at its place of the text, the tokens' bytes joined; the number of tokens
// where each is.
pub fn read_back(table: &[u64], records: &[u8], text: &[u8]) -> usize
    requires held { Held table.now }
    requires spreads { Spreads records.now text.now }
    ensures { (rs : List Rule) (pool : List ℕ) → Holds table.now rs
        → Spread records.now pool text.now → ReadsBack rs records.now pool result }
{
    let count = records.len() / 10;
    let mut lengths = [0usize; automaton::RULES];
    let mut at = 0;
    for k in 0..count {
        let token = record::read_record(records, k);
        let len = token.len as usize;
        let rule = automaton::find_tag(table, token.tag as u64);
        let Some(chosen) = longest_match::choose_with(table, text, at, text.len(), &mut lengths)
        else {
            return k;
        };
        if chosen.len != len || rule != Some(chosen.rule) {
            return k;
        }
        at += len;
    }
    count
}
