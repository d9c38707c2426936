// Where separators are put: whether one follows a token. `spelling` puts a list together with them.
#![tactic(auto)]

pub mod spelling;

ghost use Rattle.std.specs.Prelude.{◌≡◌, List, ◌≤◌, length, drop};
ghost use Rattle.automaton.specs.Rule.{Rule};
ghost use Rattle.automaton.specs.Layers.{Holds, Held};
ghost use Rattle.longest_match.specs.Lexer.{Token};
ghost use Rattle.spacing.specs.Separators.{meaning, follows};
ghost use Rattle.spacing.specs.Layers.{Ahead};

// Mode 0 is mode 2.
fn meaning_of(mode: u32) -> u32
    ensures { result ≡ meaning mode }
{
    if mode == 0 { 2 } else { mode }
}

// Whether a separator follows the token of `len` bytes at `start`, behind which the rest is written.
pub fn is_due(table: &[u64], mode: u32, last: bool, text: &[u8], start: usize, len: usize) -> bool
    requires held { Held table.now }
    requires start_in_bounds { start ≤ length text.now }
    ensures { (rs : List Rule) → Holds table.now rs
        → (t : Token) (us : List Token) → Ahead rs t us len last (drop start text.now) → result ≡ follows rs mode t us }
{
    if last {
        return false;
    }
    if meaning_of(mode) == 1 {
        return true;
    }
    match longest_match::choose(table, text, start, text.len()) {
        Some(chosen) => chosen.len != len,
        None => true,
    }
}
