// Transitions that wait at the state to which they lead, and what becomes of them when that state turns out to lead to a final state: their
// bytes are used, and the states that they leave lead to a final state too. Each waits turned round, as a word of a table of its own.
ghost use Rattle.std.specs.Prelude.{◌≡◌, true, List, [], ℕ, ◌<◌, length};
ghost use Rattle.automaton.specs.Choice.{among};
ghost use Rattle.automaton.specs.Rule.{Transition};
ghost use Rattle.automaton.specs.Layers.{edge_start, Chain, Chained};
ghost use Rattle.table_builder.specs.Layers.{Built};
ghost use Rattle.used_bytes.specs.Layers.{Worklist, Working, Leading, MarksAll, Lets, Waits, Releases};

use automaton::words;

// Marks the bytes of the transitions of the chain from `head`.
pub fn mark_chain(words: &[u64], head: usize, set: &mut [bool; 256])
    requires { Chained words.now head }
    ensures { (first : ℕ) (ts : List Transition) → Chain words.now first head ts
        → MarksAll ts set.old set.new }
{
    let mut h = head;
    // A chain of links.
    while h != 0 {
        let e = words[h];
        h = words::next(e);
        let low = words::low(e) as usize;
        byte_set::mark_range(set, low, words::high(e) as usize);
    }
}

// Marks the bytes of the turned transitions of the chain from `head` and notes the states to which they lead.
pub fn let_go(
    waiting: &[u64],
    head: usize,
    good: &mut [u8],
    stamp: u8,
    queue: &mut [u64],
    count: usize,
    set: &mut [bool; 256],
) -> usize
    requires { (bound : ℕ) × Leading bound waiting.now head × Working bound good.old stamp queue.old count }
    ensures { (bound : ℕ) (base : List ℕ) → Worklist bound good.old stamp queue.old count base
        → (first : ℕ) (ts : List Transition) → Chain waiting.now first head ts
        → Lets bound waiting.now first head ts stamp base queue.old count set.old
        good.new queue.new result set.new }
{
    mark_chain(waiting, head, set);
    crate::reaching::note_chain(waiting, head, good, stamp, queue, count)
}

// What waits at state `s` is let go, and what waits at the states that are noted by that.
pub fn release(
    waiting: &[u64],
    rows: &[u32],
    s: usize,
    good: &mut [u8],
    stamp: u8,
    queue: &mut [u64],
    set: &mut [bool; 256],
)
    requires { (bound : ℕ) × Waits bound waiting.now rows.now stamp × (s < bound) × Working bound good.old stamp queue.old 0 }
    ensures { (bound : ℕ) (base : List ℕ) → Worklist bound good.old stamp queue.old 0 base
        → among s base ≡ true
        → (end : ℕ) (us : List Transition) → Built waiting.now rows.now stamp edge_start end [] us
        → Releases bound us s stamp base set.old good.new queue.new set.new }
{
    let head = table_builder::head(rows, stamp as u32, s);
    let mut n = let_go(waiting, head, good, stamp, queue, 0, set);
    let mut next = 0;
    // The queue grows while it is gone through.
    while next < n {
        let x = words::state(queue[next]) as usize;
        next += 1;
        let first = table_builder::head(rows, stamp as u32, x);
        n = let_go(waiting, first, good, stamp, queue, n, set);
    }
}
