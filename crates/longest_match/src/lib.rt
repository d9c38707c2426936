// Lexing a text by the rules that a table holds: at each place the longest match, by the earliest rule.
// A token costs one walk for each rule. `steps` has the choice in the order of the defining text.
#![tactic(auto)]

pub mod steps;

ghost use Rattle.std.specs.Prelude.{◌≡◌, List, ℕ, ◌<◌, ◌≤◌, IfSome, length, take};
ghost use Rattle.automaton.specs.Rule.{Rule};
ghost use Rattle.automaton.specs.Layers.{Holds, Held};
ghost use Rattle.longest_match.specs.Layers.{part, chosen_rule, chosen_len, chosen_mask};
ghost use Rattle.longest_match.specs.Layers.{Chooses, Agrees, Picks, Walks, Cuts};

use answer::Cut;

// What is chosen at the start of a text: the number of the rule, how many bytes it takes, one at least, and the mask of all rules that match
// just these bytes, bit k for rule number k.
#[derive(Clone, Copy, Debug, PartialEq, Eq)]
pub struct Choice {
    pub rule: usize,
    pub len: usize,
    pub mask: u32,
}

// The rule that matches the longest prefix of the bytes of `text` from `from` to `to`, the earliest of them on a tie.
pub fn choose(table: &[u64], text: &[u8], from: usize, to: usize) -> Option<Choice>
    requires held { Held table.now }
    requires from_le_to { (from ≤ to) × (to ≤ length text.now) }
    ensures chooses { (rs : List Rule) (t : List ℕ) → Holds table.now rs
        → part text.now from to ≡ t → Chooses rs t (chosen_rule result) (chosen_len result) }
    ensures agrees { (rs : List Rule) (t : List ℕ) → Holds table.now rs
        → part text.now from to ≡ t → Agrees rs t (chosen_len result) (chosen_mask result) }
    ensures some_byte { IfSome result (λ c. 0 < c.len) }
{
    let mut lengths = [0usize; automaton::RULES];
    choose_with(table, text, from, to, &mut lengths)
}

// The same with a place for the lengths of the rules' prefixes, which a caller lends that chooses again and again.
#[tactic(auto, unfolding(crate::specs::Layers::part))]
pub fn choose_with(
    table: &[u64],
    text: &[u8],
    from: usize,
    to: usize,
    lengths: &mut [usize; automaton::RULES],
) -> Option<Choice>
    requires held { Held table.now }
    requires from_le_to { (from ≤ to) × (to ≤ length text.now) }
    ensures chooses { (rs : List Rule) (t : List ℕ) → Holds table.now rs
        → part text.now from to ≡ t → Chooses rs t (chosen_rule result) (chosen_len result) }
    ensures agrees { (rs : List Rule) (t : List ℕ) → Holds table.now rs
        → part text.now from to ≡ t → Agrees rs t (chosen_len result) (chosen_mask result) }
    ensures some_byte { IfSome result (λ c. 0 < c.len) }
{
    let rules = automaton::count_of(table);
    steps::choose_by_steps(table, &text[from..to], &mut lengths[..rules])
}

// The walks of all rules over the bytes of `text` from `from` to `to`, for a caller that asks how far they go before it chooses: after how
// many bytes, one at least, all rules stand in their error states; one more than there are where that is never so. The lengths of their
// longest prefixes stand at the front of `lengths`. As `choose_with` it only picks the part and the room for `steps`.
#[tactic(auto, unfolding(crate::specs::Layers::part))]
pub fn walk_with(
    table: &[u64],
    text: &[u8],
    from: usize,
    to: usize,
    lengths: &mut [usize; automaton::RULES],
) -> usize
    requires held { Held table.now }
    requires from_le_to { (from ≤ to) × (to ≤ length text.now) }
    ensures { (rs : List Rule) (t : List ℕ) → Holds table.now rs
        → part text.now from to ≡ t → Walks rs t lengths.new result }
{
    let rules = automaton::count_of(table);
    steps::walk_rules(table, &text[from..to], &mut lengths[..rules])
}

// What is chosen where the lengths of the rules' longest prefixes stand at the front of `lengths`.
pub fn choose_walked(table: &[u64], lengths: &[usize; automaton::RULES]) -> Option<Choice>
    requires { Held table.now }
    ensures picks { (rs : List Rule) → Holds table.now rs
        → Picks (take (length rs) lengths.now) (chosen_rule result) (chosen_len result) (chosen_mask result) }
    ensures some_byte { IfSome result (λ c. 0 < c.len) }
{
    let rules = automaton::count_of(table);
    steps::choose_from(&lengths[..rules])
}

// How `text` is cut, with nothing written.
pub fn count(table: &[u64], text: &[u8]) -> Cut
    requires { Held table.now }
    ensures { (rs : List Rule) → Holds table.now rs → Cuts rs text.now result.tokens result.rest }
{
    let mut lengths = [0usize; automaton::RULES];
    let mut tokens = 0;
    let mut at = 0;
    while at < text.len() {
        let Some(c) = choose_with(table, text, at, text.len(), &mut lengths) else {
            break;
        };
        tokens += 1;
        at += c.len;
    }
    Cut { tokens, rest: at }
}
