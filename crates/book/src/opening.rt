// The command RULE.
ghost use Rattle.std.specs.Prelude.{◌≡◌, List, ℕ};
ghost use Rattle.automaton.specs.Rule.{Rule};
ghost use Rattle.automaton.specs.Layers.{Holds, Held};
ghost use Rattle.book.specs.Draft.{tagged};
ghost use Rattle.book.specs.Layers.{Takes};

use crate::{Book, Progress};
use answer::{Reason, Refusal};
use command::Command;

pub fn open_rule(
    book: Book,
    table: &[u64],
    tag: u16,
    kind: u8,
    at: usize,
) -> Result<Progress, Refusal>
    requires { Held table.now }
    ensures { (rows : List ℕ) (len : ℕ)
        → Takes book (Command.Rule tag kind) at len result table.now rows table.now rows }
{
    let rules = book.rules;
    if Book::RULES <= rules {
        return Err(Reason::TooMany.at(at));
    }
    if tag == 0 || 1 < kind {
        return Err(Reason::OutOfRange.at(at));
    }
    if is_taken(table, tag) {
        return Err(Reason::TagTaken.at(at));
    }
    Ok(Progress::On(Book {
        inside: true,
        tag,
        kind,
        ..Book::between(rules, book.edges)
    }))
}

// Whether a rule of the table has this tag.
fn is_taken(table: &[u64], tag: u16) -> bool
    requires { Held table.now }
    ensures { (rs : List Rule) → Holds table.now rs → result ≡ tagged tag rs }
{
    automaton::find_tag(table, tag as u64).is_some()
}
