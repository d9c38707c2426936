// One automaton for all five rules of the built-in book of document 01, by byte classes: one table step a byte.
ghost use Rattle.std.specs.Prelude.{◌≡◌, ◌/◌, ◌≤◌, MatchOption, length, get_or, drop};
ghost use Rattle.std.proofs.Math.Option.{none};
ghost use Rattle.longest_match.specs.Lexer.{choose};
ghost use Rattle.builtin.specs.Book.{builtin_rules};
ghost use Rattle.builtin.specs.Layers.{State, Stays, Scanned};

use crate::tables::Tables;

// States of the automaton: from the first no byte leads to a match, in the second nothing is read, and from the third on
// some rule matches what is read. A state is the place of its row in the table of next states.
const DEAD: usize = 0;

const START: usize = 16;

const ACCEPTING: usize = 160;

// A token at the front of a text: the state behind it, and how many bytes it takes.
#[derive(Clone, Copy)]
pub struct Match {
    pub state: usize,
    pub len: usize,
}

// The tag of state `s`, from a table of them.
pub fn tag_of(tags: &[u8; 16], s: usize) -> u8
    requires { State s }
    ensures { result ≡ get_or tags.now (s / 16) 0 }
{
    tags[s / 16]
}

// Its mask.
pub fn mask_of(masks: &[u32; 16], s: usize) -> u32
    requires { State s }
    ensures { result ≡ get_or masks.now (s / 16) 0 }
{
    masks[s / 16]
}

// The first place from `from` on whose byte leads away from state `s`. No turn waits for the table step of the one before, which is
// what makes long words fast.
fn run(tables: &Tables, s: usize, text: &[u8], from: usize) -> usize
    requires state { State s }
    requires from_in { from ≤ length text.now }
    ensures { Stays s text.now from result }
{
    for i in from..text.len() {
        if tables.step(s, text[i]) != s {
            return i;
        }
    }
    text.len()
}

// The longest token at the front of `text`: the walk remembers the last state that accepts, and stops where no match can follow.
fn scan(tables: &Tables, text: &[u8]) -> Option<Match>
    ensures { MatchOption result (choose builtin_rules text.now ≡ none) (λ m. Scanned text.now m.state m.len) }
{
    let mut s = START;
    let mut longest = None;
    let mut i = 0;
    while i < text.len() {
        s = tables.step(s, text[i]);
        if s == DEAD {
            return longest;
        }
        i += 1;
        if ACCEPTING <= s {
            i = run(tables, s, text, i);
            longest = Some(Match { state: s, len: i });
        }
    }
    longest
}

// The same from a place of a text.
pub fn scan_at(tables: &Tables, text: &[u8], at: usize) -> Option<Match>
    requires { at ≤ length text.now }
    ensures { MatchOption result (choose builtin_rules (drop at text.now) ≡ none)
        (λ m. Scanned (drop at text.now) m.state m.len) }
{
    scan(tables, &text[at..])
}
