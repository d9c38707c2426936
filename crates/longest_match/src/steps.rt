// The choice of a token in the three steps of section 8.4 of document 004, in its order: each rule's longest prefix, the longest of them,
// the earliest rule that has it. The second also gives the mask of all rules that have it (document 02, wish 11). The lengths of the
// prefixes stand in a slice that is lent, one for each rule. A turn asks how far the rules walk before it goes on to the second step
// (wish 1).
ghost use Rattle.std.specs.Prelude.{◌≡◌, List, ◌≤◌, ◌<◌, IfSome, MatchOption, length};
ghost use Rattle.automaton.specs.Rule.{Rule};
ghost use Rattle.automaton.specs.Layers.{rule_room, count_at, Holds, Held};
ghost use Rattle.longest_match.specs.Steps.{prefixes, greatest, first_with};
ghost use Rattle.longest_match.specs.Masks.{mask_of};
ghost use Rattle.longest_match.specs.Layers.{chosen_rule, chosen_len, chosen_mask, Chooses, Agrees, Picks, GoFar};

use crate::Choice;

// The rule that matches the longest prefix of a text, the earliest of them on a tie.
pub fn choose_by_steps(table: &[u64], text: &[u8], lengths: &mut [usize]) -> Option<Choice>
    requires held { Held table.now }
    requires lengths_len { length lengths.old ≡ count_at table.now }
    ensures chooses { (rs : List Rule) → Holds table.now rs → Chooses rs text.now (chosen_rule result) (chosen_len result) }
    ensures agrees { (rs : List Rule) → Holds table.now rs → Agrees rs text.now (chosen_len result) (chosen_mask result) }
    ensures some_byte { IfSome result (λ c. 0 < c.len) }
{
    longest_prefixes(table, text, lengths);
    choose_from(lengths)
}

// Steps 2 and 3, from the lengths that the first has found.
pub fn choose_from(lengths: &[usize]) -> Option<Choice>
    requires { length lengths.now ≤ rule_room }
    ensures picks { Picks lengths.now (chosen_rule result) (chosen_len result) (chosen_mask result) }
    ensures some_byte { IfSome result (λ c. 0 < c.len) }
{
    let longest = longest_of(lengths)?;
    let rule = earliest_with(lengths, longest.len)?;
    Some(Choice {
        rule,
        len: longest.len,
        mask: longest.mask,
    })
}

// Step 1 (8.4, the last paragraph but one): the length of the longest prefix that each rule matches, 0 for none.
fn longest_prefixes(table: &[u64], text: &[u8], lengths: &mut [usize])
    requires held { Held table.now }
    requires lengths_len { length lengths.old ≡ count_at table.now }
    ensures { (rs : List Rule) → Holds table.now rs → lengths.new ≡ prefixes rs text.now }
{
    for (rule, len) in lengths.iter_mut().enumerate() {
        *len = walker::longest_prefix(table, rule, text);
    }
}

// The same lengths, and how far the rules walk: after how many bytes, one at least, all of them stand in their error states; one more than
// there are where that is never so.
pub fn walk_rules(table: &[u64], text: &[u8], lengths: &mut [usize]) -> usize
    requires held { Held table.now }
    requires lengths_len { length lengths.old ≡ count_at table.now }
    ensures lengths_after { (rs : List Rule) → Holds table.now rs → lengths.new ≡ prefixes rs text.now }
    ensures go_far { (rs : List Rule) → Holds table.now rs → GoFar rs (length rs) text.now result }
{
    let mut far = 1;
    for (rule, len) in lengths.iter_mut().enumerate() {
        let w = walker::walk(table, rule, text, far);
        *len = w.len;
        far = w.went;
    }
    far
}

// The longest of some lengths, and as a mask which of them are as long.
#[derive(Clone, Copy)]
struct Longest {
    len: usize,
    mask: u32,
}

// Step 2 (8.4, the maximal munch principle): the longest of them, and the rules that have it, bit k for rule number k; none where none is
// more than 0.
fn longest_of(lengths: &[usize]) -> Option<Longest>
    requires { length lengths.now ≤ rule_room }
    ensures { MatchOption result (greatest lengths.now ≡ 0)
        (λ l. (0 < l.len) × (l.len ≡ greatest lengths.now) × (l.mask ≡ mask_of l.len lengths.now)) }
{
    let mut len = 0;
    let mut mask = 0;
    for k in (0..lengths.len()).rev() {
        mask *= 2;
        let n = lengths[k];
        // Most rules match nothing: a branch that is foretold, so that the next walk need not wait for the comparisons.
        if n != 0 {
            if len < n {
                len = n;
                mask = 1;
            } else if len == n {
                mask += 1;
            }
        }
    }
    if len == 0 {
        None
    } else {
        Some(Longest { len, mask })
    }
}

// Step 3 (8.4, the smallest index): the earliest rule that has it.
fn earliest_with(lengths: &[usize], len: usize) -> Option<usize>
    ensures { MatchOption result (first_with len lengths.now ≡ length lengths.now) (λ k. k ≡ first_with len lengths.now) }
{
    for k in 0..lengths.len() {
        if lengths[k] == len {
            return Some(k);
        }
    }
    None
}
