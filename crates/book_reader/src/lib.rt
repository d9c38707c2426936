// Reading a book by its bytes, open to every caller: `read` answers the number of rules or the refusal, `read_strict` the same but that it
// refuses STEP, `rule` the tag and kind of one rule. The table is a local of the call, and `sizes` picks its size.
#![tactic(auto)]

pub mod sizes;

ghost use Rattle.std.specs.Prelude.{◌≡◌, List, length};
ghost use Rattle.automaton.specs.Rule.{Rule};
ghost use Rattle.automaton.specs.Layers.{Holds, Held};
ghost use Rattle.reader.specs.Reading.{read_by, read_book, read_strict, answer};
ghost use Rattle.reader.specs.Layers.{Lent};
ghost use Rattle.book_reader.specs.Rules.{numbered, rule_answer, rule_outcome};
ghost use Rattle.book_reader.specs.Layers.{Inspects};

use answer::{Reason, Refusal, RuleName};

// Reads a book: the number of its rules, or the refusal of document 01.
pub fn read(book: &[u8]) -> Result<usize, Refusal>
    ensures { result ≡ answer (read_book book.now) }
{
    read_by(false, book)
}

// The stricter reading of document 02, wish 10: as `read`, with 33 for a STEP.
pub fn read_strict(book: &[u8]) -> Result<usize, Refusal>
    ensures { result ≡ answer (read_strict book.now) }
{
    read_by(true, book)
}

fn read_by(strict: bool, book: &[u8]) -> Result<usize, Refusal>
    ensures { result ≡ answer (read_by strict book.now) }
{
    crate::sizes::inspect(strict, book, 0).rules
}

// The tag and the kind of rule number `index`, from 0, or the refusal: the book's, or 18 past the last rule, its place the number of rules.
pub fn rule(book: &[u8], index: usize) -> Result<RuleName, Refusal>
    ensures { result ≡ rule_outcome book.now index }
{
    crate::sizes::inspect(false, book, index).rule
}

// What is read off a book: the answer of reading it, and what is said of one of its rules.
#[derive(Clone, Copy)]
pub struct Inspected {
    pub rules: Result<usize, Refusal>,
    pub rule: Result<RuleName, Refusal>,
}

fn inspect_with(strict: bool, book: &[u8], table: &mut [u64], index: usize) -> Inspected
    requires { Lent (length book.now) table.old }
    ensures { Inspects strict book.now index result }
{
    match reader::load_by(strict, book, table) {
        Ok(count) => Inspected {
            rules: Ok(count),
            rule: rule_in(table, index),
        },
        Err(refusal) => Inspected {
            rules: Err(refusal),
            rule: Err(refusal),
        },
    }
}

// Among the rules that the table holds.
fn rule_in(table: &[u64], index: usize) -> Result<RuleName, Refusal>
    requires { Held table.now }
    ensures { (rs : List Rule) → Holds table.now rs → result ≡ rule_answer (numbered rs index) (length rs) }
{
    let rules = automaton::count_of(table);
    if rules <= index {
        return Err(Reason::UnknownTag.at(rules));
    }
    let tag = automaton::tag_of(table, index) as usize;
    let kind = automaton::kind_of(table, index) as usize;
    Ok(RuleName { tag, kind })
}
