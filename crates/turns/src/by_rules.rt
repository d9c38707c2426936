// A turn by the rules that a lent table holds.
ghost use Rattle.std.specs.Prelude.{List, ◌≤◌, MatchOption, length};
ghost use Rattle.automaton.specs.Rule.{Rule};
ghost use Rattle.automaton.specs.Layers.{Holds, Held};
ghost use Rattle.turns.specs.Outcome.{turn_rules};
ghost use Rattle.turns.specs.Layers.{Enough, Lacks, TurnAnswered};

use answer::{Reason, Refusal, Turn};
use book::Book;

pub fn turn_rules(
    table: &[u64],
    text: &[u8],
    place: usize,
    budget: usize,
    records: &mut [u8],
    masks: &mut [u8],
) -> Result<Turn, Refusal>
    requires { Held table.now }
    ensures { (rs : List Rule) → Holds table.now rs
        → TurnAnswered (turn_rules rs text.now place budget records.old masks.old) result
        records.new masks.new }
{
    if Book::TEXT < text.len() {
        return Err(Reason::TextTooLong.at(0));
    }
    if text.len() < place {
        return Err(Reason::PastTheText.at(0));
    }
    if let Some(needed) = lacking(table, text, place, budget, record::room(records, masks)) {
        return Err(Reason::TooFewRecords.at(needed));
    }
    Ok(crate::running::run(true, table, text, place, budget, records, masks))
}

// How many tokens the turn has, where there is room for fewer. Every token has a byte and pays for its bytes, so that as many
// records and masks as there are bytes ahead, or as the budget has, are surely enough; else the tokens are counted.
fn lacking(table: &[u64], text: &[u8], place: usize, budget: usize, room: usize) -> Option<usize>
    requires held { Held table.now }
    requires place_in_bounds { place ≤ length text.now }
    ensures { (rs : List Rule) → Holds table.now rs
        → MatchOption result (Enough rs text.now place budget room) (λ n. Lacks rs text.now place budget room n) }
{
    if (text.len() - place).min(budget) <= room {
        return None;
    }
    let turn = crate::running::run(false, table, text, place, budget, &mut [], &mut []);
    if turn.tokens <= room {
        return None;
    }
    Some(turn.tokens)
}
