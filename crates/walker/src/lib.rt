// Walking a rule over a text by the table: the longest prefix that it matches, and how far it goes. A step costs the transitions that leave
// the state, whatever the size of the rule.
#![tactic(auto)]

ghost use Rattle.std.specs.Prelude.{◌≡◌, List, ℕ, ◌<◌, max};
ghost use Rattle.automaton.specs.Rule.{Transition, Rule, longest};
ghost use Rattle.automaton.specs.Layers.{Chain, Chained, Table, Tabled};
ghost use Rattle.walker.specs.Layers.{Finds, went_to, Further};

use automaton::words;

// The spot to which the transition that covers `byte` leads, in the chain that starts at `head`.
fn find(table: &[u64], head: usize, byte: u64) -> Option<u64>
    requires { Chained table.now head }
    ensures { (first : ℕ) (ts : List Transition) → Chain table.now first head ts
        → Finds table.now first head ts byte result }
{
    let mut h = head;
    // By hand: an iterator takes the next link of each word before the byte is compared, which costs each step of a walk a fifth or more.
    while h != 0 {
        let e = table[h];
        if words::covers(e, byte) {
            return Some(words::spot(e));
        }
        h = words::next(e);
    }
    None
}

// How a rule walks over a text.
#[derive(Clone, Copy)]
pub struct Walked {
    // the number of bytes of the longest prefix that it matches, 0 for none
    pub len: usize,
    // after how many bytes, one at least, it stands in its error state, one more than there are where it never does; or what was known,
    // where that is more
    pub went: usize,
}

// The walk of rule number `rule` over `text`, where one has gone so far as `known` says.
// It goes on through states that are not final. Nothing leaves the error state, so that a walk ends there as in any state that the
// byte does not leave: by an empty chain. Most rules are dismissed by the first byte alone, with no step along a chain.
pub fn walk(table: &[u64], rule: usize, text: &[u8], known: usize) -> Walked
    requires tabled { Tabled table.now rule }
    requires known_nonzero { 0 < known }
    ensures len_value { (m : Rule) → Table table.now rule m → result.len ≡ longest m text.now }
    ensures further { (m : Rule) → Table table.now rule m → Further m text.now known result.went }
{
    let mut spot = automaton::start_of(table, rule);
    if text.is_empty() || !words::covers(spot, text[0] as u64) {
        return Walked {
            len: 0,
            went: known,
        };
    }
    let mut len = 0;
    for (i, byte) in text.iter().enumerate() {
        let Some(to) = find(table, words::head(spot), *byte as u64) else {
            let went = went_to(table, rule, spot, i, known);
            return Walked { len, went };
        };
        spot = to;
        if words::is_final(spot) {
            len = i + 1;
        }
    }
    let went = went_to(table, rule, spot, text.len(), known);
    Walked { len, went }
}

// How far a walk went that stands at `spot` after `i` bytes and goes no further, or what was known, where that is more.
fn went_to(table: &[u64], rule: usize, spot: u64, i: usize, known: usize) -> usize
    requires tabled { Tabled table.now rule }
    requires i_bound { i < 9223372036854775808 }
    ensures { (m : Rule) → Table table.now rule m → result ≡ max known (went_to m.error spot i) }
{
    let in_error = words::head(spot) == 0
        && 0 < i
        && words::state(spot) == automaton::error_of(table, rule);
    let went = if in_error { i } else { i + 1 };
    known.max(went)
}

// The number of bytes of the longest prefix of `text` that rule number `rule` matches, 0 for none.
pub fn longest_prefix(table: &[u64], rule: usize, text: &[u8]) -> usize
    requires { Tabled table.now rule }
    ensures { (m : Rule) → Table table.now rule m → result ≡ longest m text.now }
{
    walk(table, rule, text, 1).len
}
