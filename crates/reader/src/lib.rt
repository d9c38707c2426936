// Reading the commands of a book into a lent table: `load` for the crates that use the rules, `load_by` by the ordinary or the stricter
// reading. Both go by one loop, to which `strict` is a value; `applying` gives each command to the function that it is for.
#![tactic(auto)]

pub mod applying;

ghost use Rattle.std.specs.Prelude.{◌<◌, ◌≤◌, length};
ghost use Rattle.automaton.specs.Rule.{state_count};
ghost use Rattle.book.specs.Layers.{Fresh};
ghost use Rattle.reader.specs.Layers.{Lent, LoadedBy, Loaded, Going, Copied, Stops};

use answer::{Reason, Refusal};
use automaton::STATES;
use book::{Book, Progress};
use command::Cursor;

// The states for which a call has cells at once: those of one byte.
const NARROW: usize = 256;

// Checks a book and fills the table with its rules; where the book is refused, what it holds is of no account.
pub fn load(book: &[u8], table: &mut [u64]) -> Result<usize, Refusal>
    requires { Lent (length book.now) table.old }
    ensures { Loaded book.now result table.new }
{
    load_by(false, book, table)
}

// The same by the reading that `strict` names.
pub fn load_by(strict: bool, book: &[u8], table: &mut [u64]) -> Result<usize, Refusal>
    requires { Lent (length book.now) table.old }
    ensures { LoadedBy strict book.now result table.new }
{
    let mut rows = [0u32; NARROW];
    load_rows(strict, book, table, &mut rows)
}

// The same with the cells of the open rule's states, all zero. Most books have no state past them; one that has is read on with a cell for
// every state.
fn load_rows(
    strict: bool,
    book: &[u8],
    table: &mut [u64],
    rows: &mut [u32],
) -> Result<usize, Refusal>
    requires lent { Lent (length book.now) table.old }
    requires fresh { Fresh table.old rows.old }
    ensures { LoadedBy strict book.now result table.new }
{
    if Book::BYTES < book.len() {
        return Err(Reason::BookTooLong.at(0));
    }
    match read_on(strict, book, table, rows, Cursor::new(), Book::new())? {
        Stop::Accepted(rules) => Ok(rules),
        Stop::Narrow(cursor, state) => load_wide(strict, book, table, rows, cursor, state),
    }
}

// Why `read_on` stops: the book is accepted, or the command at the cursor needs a cell that is not there.
#[derive(Clone, Copy)]
enum Stop {
    Accepted(usize),
    Narrow(Cursor, Book),
}

// Takes in command by command from the cursor on.
fn read_on(
    strict: bool,
    book: &[u8],
    table: &mut [u64],
    rows: &mut [u32],
    start: Cursor,
    begun: Book,
) -> Result<Stop, Refusal>
    requires { Going strict book.now table.old rows.old start.at begun }
    ensures { Stops strict book.now table.new rows.new result }
{
    let len = book.len();
    let mut cursor = start;
    let mut state = begun;
    while cursor.at < len {
        let at = cursor.at;
        let read = cursor
            .command(strict, book, state.inside)
            .map_err(|reason| reason.at(at))?;
        match crate::applying::apply(state, read.command, at, len, table, rows)? {
            Progress::On(on) => {
                state = on;
                cursor = read.next;
            }
            Progress::Done(rules) => return Ok(Stop::Accepted(rules)),
            Progress::Narrow => return Ok(Stop::Narrow(cursor, state)),
        }
    }
    Err(Reason::CutOff.at(len))
}

// Reads on with a cell for each state that a rule may have, the first of them as they stand in `rows`.
fn load_wide(
    strict: bool,
    book: &[u8],
    table: &mut [u64],
    rows: &[u32],
    cursor: Cursor,
    state: Book,
) -> Result<usize, Refusal>
    requires { Going strict book.now table.old rows.now cursor.at state × (length rows.now < state_count) }
    ensures { LoadedBy strict book.now result table.new }
{
    let mut wide = [0u32; STATES];
    copy_cells(rows, &mut wide);
    match read_on(strict, book, table, &mut wide, cursor, state)? {
        Stop::Accepted(rules) => Ok(rules),
        // never: there is a cell for each state
        Stop::Narrow(_, _) => unreachable!(),
    }
}

fn copy_cells(from: &[u32], to: &mut [u32])
    requires { length from.now ≤ length to.old }
    ensures { Copied from.now to.old to.new (length from.now) }
{
    to[..from.len()].copy_from_slice(from);
}
