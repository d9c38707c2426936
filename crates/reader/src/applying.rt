// What a command makes of a book.
ghost use Rattle.std.specs.Prelude.{◌≡◌, ◌<◌, length};
ghost use Rattle.book.specs.Layers.{Represented, Takes, stands_inside, edge_limit};

use answer::Refusal;
use book::moving::Move;
use book::{Book, Progress};
use command::Command;

// What a command, which stands at `at` of a book of `len` bytes, makes of the book, the table and the cells of the open rule's states.
pub fn apply(
    state: Book,
    command: Command,
    at: usize,
    len: usize,
    table: &mut [u64],
    rows: &mut [u32],
) -> Result<Progress, Refusal>
    requires represented { Represented state table.old rows.old }
    requires inside_value { (state.inside ≡ stands_inside command) × (state.edges < length table.old) × (state.edges < edge_limit) × (at < len) }
    ensures { Takes state command at len result table.old rows.old table.new rows.new }
{
    match command {
        Command::Rule { tag, kind } => book::opening::open_rule(state, table, tag, kind, at),
        Command::Start(s) => state.set_start(s, at),
        Command::Error(s) => state.set_error(s, at),
        Command::Final(s) => state.add_final(rows, s, at),
        Command::Step { from, byte, to } => book::moving::add_transition(
            state,
            table,
            rows,
            Move {
                from,
                low: byte,
                high: byte,
                to,
            },
            at,
        ),
        Command::Span {
            from,
            low,
            high,
            to,
        } => book::moving::add_transition(
            state,
            table,
            rows,
            Move {
                from,
                low,
                high,
                to,
            },
            at,
        ),
        Command::Close => closing::close(state, table, rows, at),
        Command::End => state.end(at, len),
    }
}
