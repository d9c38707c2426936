// Which of the states that the start reaches lead to a final state, and the bytes of the transitions between such states. The states are
// taken from the last one reached to the first, so that most transitions lead to a state of which that is known. One that does not waits.
// The slices of the workspace come one by one: some are lent to read and some to write, which a struct of them would leave to clauses.
ghost use Rattle.std.specs.Prelude.{◌≡◌, true, false, List, ◌∷◌, eqb, ℕ, ◌+◌, ◌<◌, ◌≤◌, length, get_or};
ghost use Rattle.automaton.specs.Choice.{All, among};
ghost use Rattle.automaton.specs.Rule.{Transition, Rule, ends, used};
ghost use Rattle.automaton.specs.Layers.{rule_room, low_of, high_of, to_of, Chain, Table};
ghost use Rattle.used_bytes.specs.Layers.{Waits, Waiting, Passing, Passes};
ghost use Rattle.used_bytes.specs.Layers.{CanGain, Sweeping, Gains, Led, Sweepable, Goes, Reaches, Storage, Ready};

use automaton::words;

// What the transitions of a state come to: whether one leads to a state that leads to a final one, and where the next one that waits goes.
#[derive(Clone, Copy)]
pub struct Swept {
    pub leads: bool,
    pub end: usize,
}

// Lets the transition `edge`, which leaves state `from`, wait at the state to which it leads.
pub fn wait(waiting: &mut [u64], rows: &mut [u32], stamp: u8, end: usize, edge: u64, from: u16)
    requires { (bound : ℕ) × Waits bound waiting.old rows.old stamp × (end < length waiting.old) × (end + 1 < 65536)
        × (stamp ≤ rule_room) × (to_of edge < bound) × (from < bound) }
    ensures { (bound : ℕ) (us : List Transition) → Waiting bound waiting.old rows.old stamp end us
        → Waiting bound waiting.new rows.new stamp (end + 1)
        (record { from = to_of edge; low = low_of edge; high = high_of edge; to = from } ∷ us) }
{
    let to = words::state(words::spot(edge)) as usize;
    let low = words::low(edge) as u8;
    let high = words::high(edge) as u8;
    let head = table_builder::head(rows, stamp as u32, to);
    table_builder::put_edge(waiting, end, low, high, head, from);
    table_builder::link_state(rows, stamp as u32, to, end);
}

// Goes through the chain from `head` of transitions that leave state `from`: marks the bytes of those that lead to a good state, and lets
// the others wait.
pub fn sweep_chain(
    table: &[u64],
    head: usize,
    from: u16,
    good: &[u8],
    stamp: u8,
    waiting: &mut [u64],
    rows: &mut [u32],
    end: usize,
    set: &mut [bool; 256],
) -> Swept
    requires { Passing table.now head from good.now stamp waiting.old rows.old end }
    ensures { (bound first : ℕ) (ts us : List Transition) (gs : List ℕ) → Chain table.now first head ts
        → All (λ (t : Transition). t.from ≡ from) ts → Waiting bound waiting.old rows.old stamp end us
        → ((x : ℕ) → eqb (get_or good.now x 0) stamp ≡ among x gs)
        → Passes bound stamp gs ts us end set.old waiting.new rows.new set.new
        result.leads result.end }
{
    let mut h = head;
    let mut at = end;
    let mut leads = false;
    // A chain of links.
    while h != 0 {
        let e = table[h];
        h = words::next(e);
        if good[words::state(words::spot(e)) as usize] == stamp {
            let low = words::low(e) as usize;
            byte_set::mark_range(set, low, words::high(e) as usize);
            leads = true;
        } else {
            wait(waiting, rows, stamp, at, e, from);
            at += 1;
        }
    }
    Swept { leads, end: at }
}

// It becomes a part of its callers, and so does `sweep`: there are several for each size of workspace, and as calls they cost a sixth more.
// Where it is `said` that state `s` leads to a final state: marks it and lets go what waits at it.
#[inline(always)]
fn gain(
    said: bool,
    s: usize,
    waiting: &[u64],
    rows: &[u32],
    good: &mut [u8],
    stamp: u8,
    queue: &mut [u64],
    set: &mut [bool; 256],
)
    requires { CanGain s stamp good.old queue.old waiting.now rows.now set.old }
    ensures { (bound : ℕ) (m : Rule) (end : ℕ) (gs : List ℕ) (us : List Transition)
        → Sweeping bound m stamp good.old queue.old waiting.now rows.now end
        set.old gs us
        → (said ≡ true → ends m s ≡ true)
        → Gains bound m s said stamp waiting.now rows.now end gs us set.old
        good.new queue.new set.new }
{
    if said {
        good[s] = stamp;
        if table_builder::head(rows, stamp as u32, s) != 0 {
            crate::releasing::release(waiting, rows, s, good, stamp, queue, set);
        }
    }
}

// Goes through the state of a spot: what it leads to by its transitions, and what follows from that for it and for what waits at it.
// Answers where the next transition that waits goes.
pub fn sweep_state(
    table: &[u64],
    spot: u64,
    good: &mut [u8],
    stamp: u8,
    queue: &mut [u64],
    waiting: &mut [u64],
    rows: &mut [u32],
    end: usize,
    set: &mut [bool; 256],
) -> usize
    requires { Sweepable table.now spot stamp good.old queue.old waiting.old rows.old end set.old }
    ensures { (bound k : ℕ) (m : Rule) → Led bound table.now k m spot → (gs : List ℕ) (us : List Transition)
        → Sweeping bound m stamp good.old queue.old waiting.old rows.old end
        set.old gs us
        → Goes bound m spot stamp end gs us set.old good.new queue.new waiting.new
        rows.new result set.new }
{
    let s = words::state(spot) as usize;
    gain(
        words::is_final(spot),
        s,
        waiting,
        rows,
        good,
        stamp,
        queue,
        set,
    );
    let swept = sweep_chain(
        table,
        words::head(spot),
        s as u16,
        good,
        stamp,
        waiting,
        rows,
        end,
        set,
    );
    gain(swept.leads, s, waiting, rows, good, stamp, queue, set);
    swept.end
}

// Goes through the states of the first `n` spots, which are all that the start of a rule reaches, and marks the bytes that the rule uses.
// `n` comes beside the spots: `Reaches` speaks of the whole queue.
#[inline(always)]
pub fn sweep(
    table: &[u64],
    spots: &[u64],
    n: usize,
    good: &mut [u8],
    stamp: u8,
    queue: &mut [u64],
    waiting: &mut [u64],
    rows: &mut [u32],
    set: &mut [bool; 256],
)
    requires { Ready table.now stamp spots.now n good.old queue.old waiting.old rows.old set.old }
    ensures by_index { (bound edges : ℕ)
        → Storage bound edges stamp good.old queue.old waiting.old rows.old
        → Storage bound edges (stamp + 1) good.new queue.new waiting.new rows.new }
    ensures by_index_2 { (bound k : ℕ) (m : Rule) → Table table.now k m → (seen : List ℕ)
        → Reaches bound table.now k m stamp seen spots.now n
        → (b : ℕ) → b < 256 → get_or set.new b false ≡ used m b }
{
    let mut end = automaton::EDGE_START;
    for k in (0..n).rev() {
        end = sweep_state(table, spots[k], good, stamp, queue, waiting, rows, end, set);
    }
}
