// Rewriting an old book: a SPAN in each STEP's place, and every other command byte for byte. The rules stay the very same.
#![tactic(auto)]

ghost use Rattle.std.specs.Prelude.{◌≡◌, ◌++◌, ◌≤◌, eqb, length, drop};
ghost use Rattle.std.proofs.Math.Seq.{paste};
ghost use Rattle.automaton.specs.Choice.{if};
ghost use Rattle.book.specs.Limits.{max_bytes};
ghost use Rattle.output.specs.Outcome.{written_up_to};
ghost use Rattle.output.specs.Layers.{PrintAnswered};
ghost use Rattle.rewriting.specs.Rewritten.{modern, rewritten};
ghost use Rattle.rewriting.specs.Outcome.{rewrite_outcome};
ghost use Rattle.rewriting.specs.Layers.{Whole, Readable, Fitting};

use answer::{Reason, Refusal};
use book::Book;
use command::Command;

// Rewrites a book: the number of bytes, which stand at the start of `out`, or the refusal: those of reading, 1 where the longer book
// passes the limit, 22. Every other byte of `out` stays as it was.
pub fn rewrite(book: &[u8], out: &mut [u8]) -> Result<usize, Refusal>
    ensures value { result ≡ (rewrite_outcome book.now out.old).answer }
    ensures out_after { out.new ≡ (rewrite_outcome book.now out.old).out }
{
    book_reader::read(book)?;
    rewrite_accepted(book, out)
}

fn rewrite_accepted(book: &[u8], out: &mut [u8]) -> Result<usize, Refusal>
    requires { Readable book.now }
    ensures { PrintAnswered (written_up_to max_bytes Reason.BookTooLong (rewritten book.now) out.old) result out.new }
{
    let total = measure(book);
    if Book::BYTES < total {
        return Err(Reason::BookTooLong.at(0));
    }
    if out.len() < total {
        return Err(Reason::OutputTooShort.at(total));
    }
    write_commands(book, out);
    Ok(total)
}

// The number of bytes of the rewritten book: one more for each STEP.
fn measure(book: &[u8]) -> usize
    requires { Readable book.now }
    ensures { result ≡ length (rewritten book.now) }
{
    let len = book.len();
    let mut total = len;
    let mut at = 0;
    while at < len {
        let code = book[at];
        total += growth(code);
        at += 1 + command::operands(code);
    }
    total
}

// By how many bytes the command of this code grows.
fn growth(code: u8) -> usize
    ensures { result ≡ if (eqb code 5) 1 0 }
{
    if code == Command::STEP { 1 } else { 0 }
}

// Writes the rewritten book to the start of `out`.
fn write_commands(book: &[u8], out: &mut [u8])
    requires { Fitting book.now out.old }
    ensures { out.new ≡ rewritten book.now ++ drop (length (rewritten book.now)) out.old }
{
    let len = book.len();
    let mut at = 0;
    let mut to = 0;
    while at < len {
        let width = 1 + command::operands(book[at]);
        to += write_command(&book[at..at + width], &mut out[to..]);
        at += width;
    }
}

// Writes a whole command, a STEP as the SPAN that it means, to the start of `out`: the number of bytes written.
fn write_command(command: &[u8], out: &mut [u8]) -> usize
    requires whole { Whole command.now }
    requires room { length (modern command.now) ≤ length out.old }
    ensures { (result ≡ length (modern command.now)) × (out.new ≡ paste out.old 0 (modern command.now) result) }
{
    if command[0] == Command::STEP {
        let from = command[1];
        let byte = command[2];
        let target = command[3];
        out[..5].copy_from_slice(&[Command::SPAN, from, byte, byte, target]);
        return 5;
    }
    output::copy(command, 0, command.len(), out, 0);
    command.len()
}
