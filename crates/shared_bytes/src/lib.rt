// The lowest byte that both a plain and a separator rule of a table use: refusal 23.
#![tactic(auto)]

ghost use Rattle.std.specs.Prelude.{◌≡◌, true, List, ℕ, ◌+◌, ◌<◌, ◌≤◌, length};
ghost use Rattle.automaton.specs.Rule.{Rule, state_count};
ghost use Rattle.automaton.specs.Layers.{edge_start, Table, Tabled, Holds, Held};
ghost use Rattle.byte_set.specs.Layers.{lowest_of};
ghost use Rattle.used_bytes.specs.Layers.{MarksAll, Fits};
ghost use Rattle.shared_bytes.specs.Bytes.{shared_byte};
ghost use Rattle.shared_bytes.specs.Layers.{Fitting, narrow_states, narrow_edges, Covers};

use automaton::words;
use byte_set::ByteSet;
use used_bytes::Workspace;

// Marks the bytes that the transitions of rule number `rule` cover.
fn cover(table: &[u64], rule: usize, set: &mut [bool; 256])
    requires { Tabled table.now rule }
    ensures { (m : Rule) → Table table.now rule m → MarksAll m.transitions set.old set.new }
{
    let first = automaton::first_of(table, rule);
    // The words are those of the transitions from the last to the first.
    for at in (first..automaton::end_of(table, rule)).rev() {
        let e = table[at];
        let low = words::low(e) as usize;
        byte_set::mark_range(set, low, words::high(e) as usize);
    }
}

// The bytes that the transitions of the rules of a kind cover.
fn covered_by_kind(table: &[u64], kind: u64) -> ByteSet
    requires { Held table.now }
    ensures { (rs : List Rule) → Holds table.now rs → Covers rs kind (length rs) result.marks }
{
    let count = automaton::count_of(table);
    let mut set = ByteSet::empty();
    for k in 0..count {
        if automaton::kind_of(table, k) == kind {
            cover(table, k, &mut set.marks);
        }
    }
    set
}

// The lowest byte that both a plain and a separator rule use. In most books no transition of a plain rule covers a byte that one of a
// separator rule covers: that is seen by one look at each.
pub fn shared_byte(table: &[u64]) -> Option<usize>
    requires { Held table.now }
    ensures { (rs : List Rule) → Holds table.now rs → result ≡ lowest_of (shared_byte rs) }
{
    let plain = covered_by_kind(table, 0);
    let separators = covered_by_kind(table, 1);
    if plain.overlaps(separators) {
        shared_by_ways(table)
    } else {
        None
    }
}

// The same by the ways to final states. Most books do with small working storage, which costs less to clear.
fn shared_by_ways(table: &[u64]) -> Option<usize>
    requires { Held table.now }
    ensures { (rs : List Rule) → Holds table.now rs → result ≡ lowest_of (shared_byte rs) }
{
    for k in 0..automaton::count_of(table) {
        if !is_narrow(table, k) {
            return shared_in::<4096, 4161>(table);
        }
    }
    shared_in::<256, 577>(table)
}

// Whether the start of rule number `rule` and all that its transitions lead to are states below 256, and there are at most 512 of them.
fn is_narrow(table: &[u64], rule: usize) -> bool
    requires { Tabled table.now rule }
    ensures { (m : Rule) → Table table.now rule m → result ≡ true → Fits narrow_states narrow_edges m }
{
    let first = automaton::first_of(table, rule);
    let end = automaton::end_of(table, rule);
    if first + 512 < end {
        return false;
    }
    if 256 <= words::state(automaton::start_spot(table, rule)) {
        return false;
    }
    table[first..end]
        .iter()
        .all(|&edge| words::state(words::spot(edge)) < 256)
}

// The lowest byte that both a plain and a separator rule use, by working storage of its own. Its frame is large where STATES is, and so
// it becomes no part of its callers, where that frame would be made in each call.
#[inline(never)]
fn shared_in<const STATES: usize, const WORDS: usize>(table: &[u64]) -> Option<usize>
    requires { (edges : ℕ) × Fitting STATES edges table.now × (STATES ≤ state_count) × (edge_start + edges ≤ WORDS)
        × (WORDS < 65536) }
    ensures { (rs : List Rule) → Holds table.now rs → result ≡ lowest_of (shared_byte rs) }
{
    let mut space = Workspace::<STATES, WORDS> {
        seen: [0; STATES],
        spots: [0; STATES],
        good: [0; STATES],
        queue: [0; STATES],
        waiting: [0; WORDS],
        rows: [0; STATES],
    };
    let rules = automaton::count_of(table);
    let mut plain = ByteSet::empty();
    let mut separators = ByteSet::empty();
    for k in 0..rules {
        let set = space.used_by(table, k);
        let kind = automaton::kind_of(table, k);
        plain = plain.joined_where(kind == 0, set);
        separators = separators.joined_where(kind == 1, set);
    }
    plain.lowest_common(separators)
}
