// The used bytes of a rule that a table holds. A rule uses a byte that occurs in a string which it matches: a transition that covers the
// byte leaves a state that the start reaches (`reaching`) and leads to one from which a final state is reached (`sweeping`; `releasing` has
// the transitions of which that shows later).
#![tactic(auto)]

pub mod reaching;
pub mod releasing;
pub mod sweeping;

ghost use Rattle.std.specs.Prelude.{◌≡◌, ℕ, ◌+◌, ◌<◌};
ghost use Rattle.automaton.specs.Rule.{Rule, used};
ghost use Rattle.automaton.specs.Layers.{Table};
ghost use Rattle.byte_set.specs.Layers.{mark};
ghost use Rattle.used_bytes.specs.Layers.{Room, RoomIn, Fitted};

use byte_set::ByteSet;

// What a rule is looked through in.
#[derive(Drop)]
pub struct Workspace<const STATES: usize, const WORDS: usize> {
    pub seen: [u8; STATES],
    pub spots: [u64; STATES],
    pub good: [u8; STATES],
    pub queue: [u64; STATES],
    pub waiting: [u64; WORDS],
    pub rows: [u32; STATES],
}

impl<const STATES: usize, const WORDS: usize> Workspace<STATES, WORDS> {
    // `used_by` in this workspace.
    pub fn used_by(&mut self, table: &[u64], rule: usize) -> ByteSet
        requires { (bound : ℕ) × (edges : ℕ) × Fitted bound edges table.now rule
            × RoomIn bound edges (rule + 1) self.old }
        ensures by_index { (bound edges : ℕ) → RoomIn bound edges (rule + 1) self.old → RoomIn bound edges (rule + 2) self.new }
        ensures b_value { (m : Rule) → Table table.now rule m → (b : ℕ) → b < 256 → mark result b ≡ used m b }
    {
        used_by(
            table,
            rule,
            &mut self.seen,
            &mut self.spots,
            &mut self.good,
            &mut self.queue,
            &mut self.waiting,
            &mut self.rows,
        )
    }
}

// The used bytes of rule number `rule`, by working storage of any size that suffices. It may hold what earlier rules have left there.
// It becomes a part of its callers, as what it calls does: as a call it costs up to a twentieth more.
#[inline(always)]
pub fn used_by(
    table: &[u64],
    rule: usize,
    seen: &mut [u8],
    spots: &mut [u64],
    good: &mut [u8],
    queue: &mut [u64],
    waiting: &mut [u64],
    rows: &mut [u32],
) -> ByteSet
    requires { (bound : ℕ) × (edges : ℕ) × Fitted bound edges table.now rule
        × Room bound edges (rule + 1) seen.old spots.old good.old queue.old waiting.old rows.old }
    ensures by_index { (bound edges : ℕ)
        → Room bound edges (rule + 1) seen.old spots.old good.old queue.old
        waiting.old rows.old
        → Room bound edges (rule + 2) seen.new spots.new good.new queue.new
        waiting.new rows.new }
    ensures b_value { (m : Rule) → Table table.now rule m → (b : ℕ) → b < 256 → mark result b ≡ used m b }
{
    let stamp = (rule + 1) as u8;
    let states = crate::reaching::reach(table, rule, seen, stamp, spots);
    let mut set = ByteSet::empty();
    crate::sweeping::sweep(
        table,
        spots,
        states,
        good,
        stamp,
        queue,
        waiting,
        rows,
        &mut set.marks,
    );
    set
}
