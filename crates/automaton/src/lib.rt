// Rules at run time: a book's rules in one slice of words, the table. What is in a table and where is said in specs/Layers.antt and
// known here, in `words` and in crate `table_builder` alone, which fills one. Crate `walker` goes along a rule's transitions over a text.
#![tactic(auto)]

pub mod chain;
pub mod words;

ghost use Rattle.std.specs.Prelude.{◌≡◌, ◌<◌, List, eqb, length, MatchOption};
ghost use Rattle.automaton.specs.Rule.{Rule};
ghost use Rattle.automaton.specs.Layers.{first_of, end_of, start_of, body_at, Spot, Table, Tabled, Holds, Held, Ranks};

// A table has room for so many rules.
pub const RULES: usize = 32;

// The place of the first transition, behind the room for rules.
pub const EDGE_START: usize = 65;

// The states of a rule are below this.
pub const STATES: usize = 4096;

// How many rules the table holds.
pub fn count_of(table: &[u64]) -> usize
    requires { Held table.now }
    ensures { (rs : List Rule) → Holds table.now rs → result ≡ length rs }
{
    table[0] as usize
}

pub fn tag_of(table: &[u64], rule: usize) -> u64
    requires { Tabled table.now rule }
    ensures { (m : Rule) → Table table.now rule m → result ≡ m.tag }
{
    table[rule + 1] / 1099511627776
}

pub fn kind_of(table: &[u64], rule: usize) -> u64
    requires { Tabled table.now rule }
    ensures { (m : Rule) → Table table.now rule m → result ≡ m.kind }
{
    table[rule + 1] / 65536 % 256
}

// The number of the error state. Which part of the name is which is known by these functions alone, so each has its own.
pub fn error_of(table: &[u64], rule: usize) -> u64
    requires { Tabled table.now rule }
    ensures { (m : Rule) → Table table.now rule m → result ≡ m.error }
{
    table[rule + 1] / 16777216 % 65536
}

// Whether the rule starts in its error state.
pub fn starts_in_error(table: &[u64], rule: usize) -> bool
    requires { Tabled table.now rule }
    ensures { (m : Rule) → Table table.now rule m → result ≡ eqb m.start m.error }
{
    let name = table[rule + 1];
    name % 65536 == name / 16777216 % 65536
}

// What a walk asks of the start: the head of its chain and two bytes between which all lie that may come first.
pub fn start_of(table: &[u64], rule: usize) -> u64
    requires { Tabled table.now rule }
    ensures { result ≡ start_of (body_at table.now rule) }
{
    table[rule + 33] / 4294967296
}

// The spot of the start.
pub fn start_spot(table: &[u64], rule: usize) -> u64
    requires { Tabled table.now rule }
    ensures { (m : Rule) → Table table.now rule m
        → Spot table.now (first_of (body_at table.now rule)) (end_of (body_at table.now rule))
        m.finals m.transitions m.start result }
{
    start_of(table, rule) / 65536 * 65536 + table[rule + 1] % 65536 * 2
}

// The place of the rule's first transition, and the one behind its last.
pub fn first_of(table: &[u64], rule: usize) -> usize
    requires { Tabled table.now rule }
    ensures { result ≡ first_of (body_at table.now rule) }
{
    (table[rule + 33] / 65536 % 65536) as usize
}

pub fn end_of(table: &[u64], rule: usize) -> usize
    requires { Tabled table.now rule }
    ensures { result ≡ end_of (body_at table.now rule) }
{
    (table[rule + 33] % 65536) as usize
}

// The number of the first rule of this tag.
pub fn find_tag(table: &[u64], tag: u64) -> Option<usize>
    requires { Held table.now }
    ensures { (rs : List Rule) → Holds table.now rs
        → MatchOption result (Ranks rs tag (length rs)) (λ k. (k < length rs) × Ranks rs tag k) }
{
    for k in 0..count_of(table) {
        if tag_of(table, k) == tag {
            return Some(k);
        }
    }
    None
}
