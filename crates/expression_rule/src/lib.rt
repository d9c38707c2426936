// An expression as a rule of a book (document 02, wish 9).
#![tactic(auto)]

ghost use Rattle.std.specs.Prelude.{List, ℕ, ◌≤◌, length};
ghost use Rattle.expression.specs.Expression.{Expression};
ghost use Rattle.subsets.specs.States.{finals_of};
ghost use Rattle.rule_commands.specs.Bytes.{table_bytes};
ghost use Rattle.output.specs.Outcome.{written};
ghost use Rattle.output.specs.Layers.{PrintAnswered};
ghost use Rattle.expression_rule.specs.Outcome.{compile_outcome, compile_right};
ghost use Rattle.expression_rule.specs.Layers.{Holds, Stood};

use answer::{Reason, Refusal};
use position_reader::Part;

// The bytes of an expression, its positions, and its parentheses within each other, at most.
#[derive(Clone, Copy)]
pub struct Limits {}

impl Limits {
    pub const BYTES: usize = 512;

    pub const POSITIONS: usize = 64;

    pub const DEPTH: usize = 16;
}

// Makes a rule of an expression: the number of bytes of its commands, which stand at the start of `out`, or the refusal: 6, 31, 30, 31, 32,
// 22. Every other byte of `out` stays as it was.
pub fn compile(tag: u16, kind: u32, text: &[u8], out: &mut [u8]) -> Result<usize, Refusal>
    ensures { PrintAnswered (compile_outcome tag kind text.now out.old) result out.new }
{
    if tag == 0 {
        return Err(Reason::OutOfRange.at(0));
    }
    if 1 < kind {
        return Err(Reason::OutOfRange.at(0));
    }
    if Limits::BYTES < text.len() {
        return Err(Reason::LargeExpression.at(0));
    }
    let mut takers = [0u64; 256];
    let mut follow = [0u64; 64];
    match expression_reader::read_expression(text, &mut takers, &mut follow) {
        Ok(part) => compile_part(tag, kind as u8, part, &takers, &follow, out),
        Err(place) => Err(Reason::NoExpression.at(place)),
    }
}

#[inline(never)]
fn compile_part(
    tag: u16,
    kind: u8,
    part: Part,
    takers: &[u64; 256],
    follow: &[u64; 64],
    out: &mut [u8],
) -> Result<usize, Refusal>
    ensures { (e : Expression) → Holds e part takers.now follow.now
        → PrintAnswered (compile_right tag kind e out.old) result out.new }
{
    if Limits::POSITIONS < part.end {
        return Err(Reason::LargeExpression.at(0));
    }
    if Limits::DEPTH < part.depth {
        return Err(Reason::LargeExpression.at(0));
    }
    let mut sets = [0u64; 256];
    let mut targets = [0u8; 65536];
    match subsets::explore(part.first, follow, takers, &mut sets, &mut targets) {
        Some(count) => write_states(
            tag,
            kind,
            part.last,
            part.empty,
            &sets[..count],
            &targets,
            out,
        ),
        None => Err(Reason::TooManySets.at(0)),
    }
}

// The commands of the rule that has these sets as its states.
fn write_states(
    tag: u16,
    kind: u8,
    last: u64,
    empty: bool,
    sets: &[u64],
    targets: &[u8; 65536],
    out: &mut [u8],
) -> Result<usize, Refusal>
    requires { length sets.now ≤ 254 }
    ensures { (rows : List (List ℕ)) → Stood rows targets.now (length sets.now)
        → PrintAnswered (written (table_bytes tag kind (finals_of last empty sets.now) rows) out.old)
        result out.new }
{
    let mut finals = [0u8; 256];
    let found = subsets::list_finals(last, empty, sets, &mut finals);
    rule_commands::write_rule(tag, kind, &finals[..found], targets, sets.len() + 1, out)
}
