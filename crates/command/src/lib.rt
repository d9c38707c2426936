// The commands of a book, and the cursor that reads them.
#![tactic(auto)]

ghost use Rattle.std.specs.Prelude.{◌≡◌, ◌+◌, ◌≤◌, ◌<◌, length};
ghost use Rattle.command.specs.Commands.{byte_at, placed, operands_of, decode, retired, command_at};

use answer::Reason;

// A command with its operands, under the names of document 01. A state is given in one byte or in two: the command is the same.
#[derive(Clone, Copy)]
pub enum Command {
    Rule {
        tag: u16,
        kind: u8,
    },
    Start(u16),
    Error(u16),
    Final(u16),
    Step {
        from: u16,
        byte: u8,
        to: u16,
    },
    Span {
        from: u16,
        low: u8,
        high: u8,
        to: u16,
    },
    Close,
    End,
}

impl Command {
    // The codes of the two moves: what a STEP says, a SPAN says too. A code is a byte of a book, any number: `placed`, `operands_of` and
    // `decode` say what becomes of each, so no enum stands between.
    pub const STEP: u8 = 5;

    pub const SPAN: u8 = 6;
}

// A command that stands at a cursor, and the cursor past it.
#[derive(Clone, Copy)]
pub struct Decoded {
    pub command: Command,
    pub next: Cursor,
}

// A place in a book at which a command begins. Reading hands it back moved.
#[derive(Clone, Copy)]
pub struct Cursor {
    pub at: usize,
}

impl Cursor {
    pub fn new() -> Cursor
        ensures { result.at ≡ 0 }
    {
        Cursor { at: 0 }
    }

    // The command at the cursor; `strict`: in the stricter reading; `inside`: it stands inside a rule. Or why there is none: a byte that is
    // no command or not one for this place, a command that the stricter reading does not take, or operands that run past the end.
    #[tactic(auto, using(crate::proofs::Commands::operands_le), unfolding(crate::specs::Commands::command_at))]
    pub fn command(self, strict: bool, book: &[u8], inside: bool) -> Result<Decoded, Reason>
        requires { self.at < length book.now }
        ensures { result ≡ command_at strict book.now self.at inside }
    {
        let at = self.at;
        let code = book[at];
        if !is_placed(code, inside) {
            return Err(Reason::Misplaced);
        }
        if is_retired(strict, code) {
            return Err(Reason::Retired);
        }
        let next = at + 1 + operands(code);
        if book.len() < next {
            return Err(Reason::CutOff);
        }
        Ok(Decoded {
            command: command_of(book, at, code),
            next: Cursor { at: next },
        })
    }
}

// Whether `code` is a command that may stand inside a rule, or outside one.
#[tactic(auto, unfolding(crate::specs::Commands::placed))]
fn is_placed(code: u8, inside: bool) -> bool
    ensures { result ≡ placed code inside }
{
    match code {
        1 | 8 => !inside,
        2..=12 => inside,
        _ => false,
    }
}

// Whether `code` is a command that the stricter reading does not take.
#[tactic(auto, unfolding(crate::specs::Commands::retired))]
fn is_retired(strict: bool, code: u8) -> bool
    ensures { result ≡ retired strict code }
{
    strict && code == Command::STEP
}

// The number of operand bytes of a command.
#[tactic(auto, unfolding(crate::specs::Commands::operands_of))]
pub fn operands(code: u8) -> usize
    ensures { result ≡ operands_of code }
{
    match code {
        1 => 3,
        2..=4 => 1,
        5 => 3,
        6 => 4,
        9..=11 => 2,
        12 => 6,
        _ => 0,
    }
}

// The state of one byte at `at`.
fn state(book: &[u8], at: usize) -> u16
    requires { at < length book.now }
    ensures { result ≡ byte_at book.now at }
{
    u16::from(book[at])
}

// The command `code` whose operands begin after `at`.
#[tactic(auto, unfolding(crate::specs::Commands::operands_of, crate::specs::Commands::decode))]
fn command_of(book: &[u8], at: usize, code: u8) -> Command
    requires { at + 1 + operands_of code ≤ length book.now }
    ensures { result ≡ decode book.now at code }
{
    match code {
        1 => Command::Rule {
            tag: big_endian::read_two(book, at + 1),
            kind: book[at + 3],
        },
        2 => Command::Start(state(book, at + 1)),
        3 => Command::Error(state(book, at + 1)),
        4 => Command::Final(state(book, at + 1)),
        5 => Command::Step {
            from: state(book, at + 1),
            byte: book[at + 2],
            to: state(book, at + 3),
        },
        6 => Command::Span {
            from: state(book, at + 1),
            low: book[at + 2],
            high: book[at + 3],
            to: state(book, at + 4),
        },
        7 => Command::Close,
        9 => Command::Start(big_endian::read_two(book, at + 1)),
        10 => Command::Error(big_endian::read_two(book, at + 1)),
        11 => Command::Final(big_endian::read_two(book, at + 1)),
        12 => Command::Span {
            from: big_endian::read_two(book, at + 1),
            low: book[at + 3],
            high: book[at + 4],
            to: big_endian::read_two(book, at + 5),
        },
        _ => Command::End,
    }
}
