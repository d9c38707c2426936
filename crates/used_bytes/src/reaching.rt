// The states that the start of a rule reaches, each put into a queue once. A mark is the stamp of the rule for which it was set, so that a
// new rule needs none taken away.
ghost use Rattle.std.specs.Prelude.{◌≡◌, List, ℕ, ◌<◌, length};
ghost use Rattle.automaton.specs.Rule.{Transition, Rule};
ghost use Rattle.automaton.specs.Layers.{state_of, Chain, Table};
ghost use Rattle.used_bytes.specs.Layers.{Worklist, Working, Notes, Leading, Follows, Fitted, Unmarked, Reaches};

use automaton::words;

// Marks the state of a spot and puts the spot behind the first `count` of the queue, where the state has no mark. Answers how many there
// are then.
pub fn note(marks: &mut [u8], stamp: u8, queue: &mut [u64], count: usize, spot: u64) -> usize
    requires { (bound : ℕ) × Working bound marks.old stamp queue.old count × (state_of spot < bound) }
    ensures { (bound : ℕ) (base : List ℕ) → Worklist bound marks.old stamp queue.old count base
        → Notes bound stamp base spot marks.old queue.old count marks.new queue.new result }
{
    let s = words::state(spot) as usize;
    if marks[s] == stamp {
        return count;
    }
    marks[s] = stamp;
    queue[count] = spot;
    count + 1
}

// Notes the states to which the chain from `head` leads.
pub fn note_chain(
    table: &[u64],
    head: usize,
    marks: &mut [u8],
    stamp: u8,
    queue: &mut [u64],
    count: usize,
) -> usize
    requires { (bound : ℕ) × Leading bound table.now head × Working bound marks.old stamp queue.old count }
    ensures { (bound : ℕ) (base : List ℕ) → Worklist bound marks.old stamp queue.old count base
        → (first : ℕ) (ts : List Transition) → Chain table.now first head ts
        → Follows bound table.now first head ts stamp base queue.old count
        marks.new queue.new result }
{
    let mut h = head;
    let mut n = count;
    // A chain of links.
    while h != 0 {
        let e = table[h];
        h = words::next(e);
        n = note(marks, stamp, queue, n, words::spot(e));
    }
    n
}

// Puts into the queue the spots of the states that the start of a rule reaches. Answers how many there are.
pub fn reach(table: &[u64], rule: usize, marks: &mut [u8], stamp: u8, queue: &mut [u64]) -> usize
    requires { (bound : ℕ) × (edges : ℕ) × Fitted bound edges table.now rule × Unmarked bound marks.old stamp
        × (length queue.old ≡ bound) }
    ensures { (bound : ℕ) → Unmarked bound marks.old stamp → (m : Rule) → Table table.now rule m
        → Reaches bound table.now rule m stamp marks.new queue.new result }
{
    let mut n = note(marks, stamp, queue, 0, automaton::start_spot(table, rule));
    let mut next = 0;
    // The queue grows while it is gone through.
    while next < n {
        let head = words::head(queue[next]);
        next += 1;
        n = note_chain(table, head, marks, stamp, queue, n);
    }
    n
}
