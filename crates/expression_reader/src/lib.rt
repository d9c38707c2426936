// Reading an expression of document 02, wish 9: to its first fault, and what its positions take and which of them follow each other.
#![tactic(auto)]

ghost use Rattle.std.specs.Prelude.{◌≡◌};
ghost use Rattle.expression.specs.Spelling.{alternatives, sequence, piece};
ghost use Rattle.position_reader.specs.Layers.{Ready};
ghost use Rattle.expression_reader.specs.Layers.{ReadsAt, ReadsWhole};

use position_reader::Part;

mod joining;

// Reads a whole text; the Err is the place of its first fault. The tables get what its positions take and which of them follow each
// other; `takers` is empty before.
pub fn read_expression(
    text: &[u8],
    takers: &mut [u64; 256],
    follow: &mut [u64; 64],
) -> Result<Part, usize>
    ensures { ReadsWhole text.now result
        takers.old takers.new follow.old follow.new }
{
    let part = read_alternatives(text, 0, 0, takers, follow)?;
    if part.at < text.len() {
        Err(part.at)
    } else {
        Ok(part)
    }
}

// Alternatives: a sequence, and where a bar stands behind it, alternatives again.
#[cycle(reading)]
fn read_alternatives(
    text: &[u8],
    at: usize,
    base: usize,
    takers: &mut [u64; 256],
    follow: &mut [u64; 64],
) -> Result<Part, usize>
    requires { Ready text.now at base }
    ensures { ReadsAt alternatives text.now at base result
        takers.old takers.new follow.old follow.new }
{
    let left = read_sequence(text, at, base, takers, follow)?;
    if !joining::stands(text, left.at, b'|') {
        return Ok(left);
    }
    let right = read_alternatives(text, left.at + 1, left.end, takers, follow)?;
    Ok(joining::unite(left, right))
}

// A sequence: a piece, and where it does not end behind it, a sequence again.
#[cycle(reading)]
fn read_sequence(
    text: &[u8],
    at: usize,
    base: usize,
    takers: &mut [u64; 256],
    follow: &mut [u64; 64],
) -> Result<Part, usize>
    requires { Ready text.now at base }
    ensures { ReadsAt sequence text.now at base result
        takers.old takers.new follow.old follow.new }
{
    let left = read_piece(text, at, base, takers, follow)?;
    if joining::ends_sequence(text, left.at) {
        return Ok(left);
    }
    let right = read_sequence(text, left.at, left.end, takers, follow)?;
    Ok(joining::join(left, right, base, follow))
}

// A piece: an atom, which may be alternatives in parentheses, and what it carries.
#[cycle(reading)]
fn read_piece(
    text: &[u8],
    at: usize,
    base: usize,
    takers: &mut [u64; 256],
    follow: &mut [u64; 64],
) -> Result<Part, usize>
    requires { Ready text.now at base }
    ensures { ReadsAt piece text.now at base result
        takers.old takers.new follow.old follow.new }
{
    let atom = if joining::stands(text, at, b'(') {
        let inner = read_alternatives(text, at + 1, base, takers, follow)?;
        joining::close(text, inner)?
    } else {
        position_reader::read_position(text, at, base, takers, follow)?
    };
    Ok(joining::carry(text, atom, base, follow))
}
