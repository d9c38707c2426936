// Filling a table: names, bodies and transitions of rules, and the cells of a rule that is being read. Its transitions are chained by the
// state that they leave, and get the spots to which they lead at its end. While a rule is open, `rows` has the cells of its states.
#![tactic(auto)]

ghost use Rattle.std.specs.Prelude.{◌≡◌, List, ℕ, ◌+◌, ◌*◌, ◌/◌, ◌%◌, ◌≤◌, ◌<◌, length, set};
ghost use Rattle.automaton.specs.Choice.{any};
ghost use Rattle.automaton.specs.Rule.{Transition, state_count};
ghost use Rattle.automaton.specs.Layers.{rule_room, edge_start, name_place, body_place, edge_word, bare_spot, name_word, body_word};
ghost use Rattle.automaton.specs.Layers.{edge_at, to_of, Chain, Chained, Within};
ghost use Rattle.table_builder.specs.Layers.{shares, row_word, cell_at, head_in, final_in, spot_at, settled, Settles};

use automaton::chain::Words;
use automaton::words;

// The cell of state `s` in the rule with this stamp: twice the head of its chain, plus 1 where it is final. A state that has no cell is not
// final, and nothing leaves it.
fn cell(rows: &[u32], stamp: u32, s: usize) -> u32
    ensures { result ≡ cell_at rows.now stamp s }
{
    match rows.get(s) {
        Some(row) if *row / 131072 == stamp => *row % 131072,
        _ => 0,
    }
}

// The head of the chain of state `s`.
pub fn head(rows: &[u32], stamp: u32, s: usize) -> usize
    ensures { result ≡ head_in rows.now stamp s }
{
    (cell(rows, stamp, s) / 2) as usize
}

// Whether state `s` is final.
pub fn is_final(rows: &[u32], stamp: u32, s: usize) -> bool
    ensures { result ≡ final_in rows.now stamp s }
{
    cell(rows, stamp, s) % 2 == 1
}

// Whether some transition of the chain that starts at `head` shares a byte with `low` to `high`.
pub fn shares_byte(table: &[u64], head: usize, low: u8, high: u8) -> bool
    requires { Chained table.now head }
    ensures { (first : ℕ) (ts : List Transition) → Chain table.now first head ts → result ≡ any (shares low high) ts }
{
    let first = low as u64;
    let last = high as u64;
    for e in (Words { table, link: head }) {
        if first <= words::high(e) && words::low(e) <= last {
            return true;
        }
    }
    false
}

// Two bytes between which all lie that the chain from `head` covers: the lowest, plus 256 times the highest.
pub fn first_bytes(table: &[u64], head: usize) -> u64
    requires { Chained table.now head }
    ensures upper_bound { result < 65536 }
    ensures by_index { (first : ℕ) (ts : List Transition) → Chain table.now first head ts → Within result ts }
{
    let mut low: u64 = 255;
    let mut high: u64 = 0;
    for e in (Words { table, link: head }) {
        low = low.min(words::low(e));
        high = high.max(words::high(e));
    }
    high * 256 + low
}

// Stores the word of a transition to state `to`, with the next link of its chain.
pub fn put_edge(table: &mut [u64], at: usize, low: u8, high: u8, next: usize, to: u16)
    requires { (at < length table.old) × (next < 65536) }
    ensures { table.new ≡ set table.old at (edge_word low high next (bare_spot to)) }
{
    table[at] = words::edge(low, high, next, (to as u64) * 2);
}

// Makes `link` the head of the chain of state `s`.
pub fn link_state(rows: &mut [u32], stamp: u32, s: usize, link: usize)
    requires { (s < length rows.old) × (stamp ≤ rule_room) × (link < 65536) }
    ensures { rows.new ≡ set rows.old s (row_word stamp link (cell_at rows.old stamp s % 2)) }
{
    let old = cell(rows, stamp, s);
    rows[s] = stamp * 131072 + (link as u32) * 2 + old % 2;
}

// Marks state `s` as final.
pub fn mark_final(rows: &mut [u32], stamp: u32, s: usize)
    requires { (s < length rows.old) × (stamp ≤ rule_room) }
    ensures { rows.new ≡ set rows.old s (row_word stamp (cell_at rows.old stamp s / 2) 1) }
{
    let old = cell(rows, stamp, s);
    rows[s] = stamp * 131072 + old / 2 * 2 + 1;
}

// The spot of state `s`.
pub fn spot_of(rows: &[u32], stamp: u32, s: usize) -> u64
    requires { s < state_count }
    ensures { result ≡ spot_at rows.now stamp s }
{
    let c = cell(rows, stamp, s) as u64;
    c / 2 * 65536 + (s as u64) * 2 + c % 2
}

// Puts into each of the words from `first` to before `end` the spot of the state to which it leads.
pub fn settle(table: &mut [u64], rows: &[u32], stamp: u32, first: usize, end: usize)
    requires first_le_end { (first ≤ end) × (end ≤ length table.old) }
    requires by_index { (i : ℕ) → first ≤ i → i < end → to_of (edge_at table.old i) < state_count }
    ensures { Settles rows.now stamp first end table.old table.new }
{
    for i in first..end {
        settle_one(table, rows, stamp, i);
    }
}

fn settle_one(table: &mut [u64], rows: &[u32], stamp: u32, i: usize)
    requires { (i < length table.old) × (to_of (edge_at table.old i) < state_count) }
    ensures { table.new ≡ set table.old i (settled rows.now stamp (edge_at table.old i)) }
{
    let e = table[i];
    let to = words::state(words::spot(e)) as usize;
    let low = words::low(e) as u8;
    let high = words::high(e) as u8;
    table[i] = words::edge(low, high, words::next(e), spot_of(rows, stamp, to));
}

// Stores the name of rule number `rule`.
pub fn put_name(table: &mut [u64], rule: usize, tag: u16, kind: u8, error: u16, start: u16)
    requires { (rule < rule_room) × (edge_start ≤ length table.old) }
    ensures { table.new ≡ set table.old (name_place rule) (name_word tag kind error start) }
{
    table[rule + 1] = (tag as u64) * 1099511627776
        + (error as u64) * 16777216
        + (kind as u64) * 65536
        + (start as u64);
}

// Stores the body of rule number `rule`.
pub fn put_body(table: &mut [u64], rule: usize, start: u64, first: usize, end: usize)
    requires rule_lt_rule_room { (rule < rule_room) × (edge_start ≤ length table.old) }
    requires start_bound { (start < 4294967296) × (first < 65536) × (end < 65536) }
    ensures { table.new ≡ set table.old (body_place rule) (body_word start first end) }
{
    table[rule + 33] = start * 4294967296 + (first as u64) * 65536 + (end as u64);
}

// Stores the number of rules.
pub fn put_count(table: &mut [u64], rules: usize)
    requires { edge_start ≤ length table.old }
    ensures { table.new ≡ set table.old 0 rules }
{
    table[0] = rules as u64;
}
