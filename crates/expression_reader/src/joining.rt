// What has been read, made into more of it: what an atom carries, pieces behind each other, alternatives.
ghost use Rattle.std.specs.Prelude.{◌≡◌, ◌+◌, ◌<◌, ◌≤◌, length, drop};
ghost use Rattle.position_reader.specs.Layers.{starts_with};
ghost use Rattle.expression_reader.specs.Layers.{ends_sequence, loops, Linked, widened, united_part};
ghost use Rattle.expression_reader.specs.Layers.{made_part, closed_part, Carries, Joins};

use position_reader::Part;

// This byte stands there.
#[tactic(auto, using(crate::proofs::Behind::starts_there, crate::proofs::Behind::starts_end))]
pub fn stands(text: &[u8], at: usize, byte: u8) -> bool
    ensures { result ≡ starts_with byte (drop at text.now) }
{
    text.get(at) == Some(&byte)
}

// The text ends there, or a | or a ) stands there.
#[tactic(auto, using(crate::proofs::Behind::ends_there, crate::proofs::Behind::ends_end))]
pub fn ends_sequence(text: &[u8], at: usize) -> bool
    ensures { result ≡ ends_sequence (drop at text.now) }
{
    matches!(text.get(at), None | Some(b'|' | b')'))
}

// A * or a + stands there.
#[tactic(auto, using(crate::proofs::Behind::loops_there, crate::proofs::Behind::loops_end))]
fn loops_back(text: &[u8], at: usize) -> bool
    ensures { result ≡ loops (drop at text.now) }
{
    matches!(text.get(at), Some(b'*' | b'+'))
}

fn widen(flag: bool, set: u64, other: u64) -> u64
    ensures { result ≡ widened flag set other }
{
    if flag { set | other } else { set }
}

// To each position from `from` up to `to` that is in `last`, those of `first` follow.
#[tactic(auto, using(crate::proofs::Linking::link_all))]
fn link(follow: &mut [u64; 64], from: usize, to: usize, last: u64, first: u64)
    ensures { Linked from to last first follow.old follow.new }
{
    for p in from..to.min(64) {
        if (last >> p) % 2 == 1 {
            follow[p] |= first;
        }
    }
}

// Two parts, one behind the other.
pub fn join(left: Part, right: Part, base: usize, follow: &mut [u64; 64]) -> Part
    ensures { Joins base left right result follow.old follow.new }
{
    link(follow, base, left.end, left.last, right.first);
    Part {
        at: right.at,
        end: right.end,
        depth: left.depth.max(right.depth),
        empty: left.empty & right.empty,
        first: widen(left.empty, left.first, right.first),
        last: widen(right.empty, right.last, left.last),
    }
}

// One part or the other.
pub fn unite(left: Part, right: Part) -> Part
    ensures { result ≡ united_part left right }
{
    Part {
        at: right.at,
        end: right.end,
        depth: left.depth.max(right.depth),
        empty: left.empty | right.empty,
        first: left.first | right.first,
        last: left.last | right.last,
    }
}

// A part with a byte behind it, of this depth and emptiness.
fn make(part: Part, depth: usize, empty: bool) -> Part
    requires { part.at < 18446744073709551615 }
    ensures { result ≡ made_part part depth empty }
{
    Part {
        at: part.at + 1,
        depth,
        empty,
        ..part
    }
}

// Alternatives in parentheses: the ) has to stand behind them. The Err is the place of the fault.
#[tactic(auto, using(crate::proofs::Parts::closed_yes, crate::proofs::Parts::closed_no))]
pub fn close(text: &[u8], inner: Part) -> Result<Part, usize>
    requires { (inner.at ≤ length text.now) × (inner.depth ≤ inner.at) }
    ensures { result ≡ closed_part inner (drop inner.at text.now) }
{
    if stands(text, inner.at, b')') {
        Ok(make(inner, inner.depth + 1, inner.empty))
    } else {
        Err(inner.at)
    }
}

// An atom with what it carries.
#[tactic(auto, using(crate::proofs::Parts::carried_question, crate::proofs::Parts::question_ends, crate::proofs::Parts::carried_loop, crate::proofs::Parts::carried_none))]
pub fn carry(text: &[u8], atom: Part, base: usize, follow: &mut [u64; 64]) -> Part
    requires { atom.at ≤ length text.now }
    ensures { Carries text.now base atom result follow.old follow.new }
{
    if stands(text, atom.at, b'?') {
        return make(atom, atom.depth, true);
    }
    if loops_back(text, atom.at) {
        link(follow, base, atom.end, atom.last, atom.first);
        let star = stands(text, atom.at, b'*');
        return make(atom, atom.depth, star | atom.empty);
    }
    atom
}
