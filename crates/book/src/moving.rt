// The commands STEP and SPAN.
ghost use Rattle.std.specs.Prelude.{◌≡◌, true, ◌||◌, List, ℕ, ◌+◌, ◌<◌, ltb, length};
ghost use Rattle.automaton.specs.Choice.{if, any};
ghost use Rattle.automaton.specs.Rule.{Transition};
ghost use Rattle.automaton.specs.Layers.{Chain, Chained};
ghost use Rattle.table_builder.specs.Layers.{shares};
ghost use Rattle.book.specs.Draft.{Draft, no_state, move};
ghost use Rattle.book.specs.Layers.{edge_limit, Inside, Represents, Makes};

use crate::{Book, Progress};
use answer::{Reason, Refusal};

// The paper's move: from one state, at each byte from `low` to `high`, to another.
#[derive(Clone, Copy)]
pub struct Move {
    pub from: u16,
    pub low: u8,
    pub high: u8,
    pub to: u16,
}

pub fn add_transition(
    mut book: Book,
    table: &mut [u64],
    rows: &mut [u32],
    step: Move,
    at: usize,
) -> Result<Progress, Refusal>
    requires inside { Inside book table.old rows.old }
    requires edges_in_bounds { (book.edges < length table.old) × (book.edges < edge_limit) }
    ensures { (d : Draft) → Represents book table.old rows.old d → d.inside ≡ true
        → Makes (move d at step.from step.low step.high step.to) result table.old rows.old
        table.new rows.new (book.edges + 1) }
{
    let end = book.edges;
    if Book::TRANSITIONS <= end - book.first {
        return Err(Reason::TooMany.at(at));
    }
    if is_out_of_range(step) {
        return Err(Reason::OutOfRange.at(at));
    }
    let from = step.from as usize;
    if rows.len() <= from {
        return Ok(Progress::Narrow);
    }
    let stamp = book.stamp();
    let head = table_builder::head(rows, stamp, from);
    book.overlap = overlaps_too(book.overlap, table, head, step.low, step.high);
    table_builder::put_edge(table, end, step.low, step.high, head, step.to);
    table_builder::link_state(rows, stamp, from, end);
    book.edges = end + 1;
    Ok(Progress::On(book))
}

// Whether a number of the move is out of its range.
fn is_out_of_range(step: Move) -> bool
    ensures { result ≡ ltb step.high step.low || (no_state step.from || no_state step.to) }
{
    step.high < step.low || crate::is_no_state(step.from) || crate::is_no_state(step.to)
}

// Whether two transitions of the open rule share a byte, this one counted. Where two do already, no more are compared, so that no more than
// 256 of a state ever are.
fn overlaps_too(known: bool, table: &[u64], head: usize, low: u8, high: u8) -> bool
    requires { Chained table.now head }
    ensures { (first : ℕ) (ts : List Transition) → Chain table.now first head ts
        → result ≡ if known true (any (shares low high) ts) }
{
    if known {
        return true;
    }
    table_builder::shares_byte(table, head, low, high)
}
