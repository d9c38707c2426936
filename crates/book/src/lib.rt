// What has been read of a book, and what each command makes of it and of the table.
// Here are the limits, START, ERROR, FINAL and END; `opening` has RULE, `moving` STEP and SPAN; CLOSE is crate `closing`.
#![tactic(auto)]

pub mod moving;
pub mod opening;

ghost use Rattle.std.specs.Prelude.{◌≡◌, List, ℕ, ◌+◌, ◌<◌, length};
ghost use Rattle.automaton.specs.Layers.{edge_start};
ghost use Rattle.book.specs.Limits.{max_rules};
ghost use Rattle.book.specs.Draft.{no_state};
ghost use Rattle.book.specs.Layers.{idle, once, Takes};

use answer::{Reason, Refusal};
use command::Command;

// A book that is being read: how many rules are closed, where the transitions of the open rule begin in the table and the next one
// goes, and the rest of the open rule. Its transitions are in the table already, its final states in the cells of its states.
#[derive(Clone, Copy)]
pub struct Book {
    pub rules: usize,
    pub first: usize,
    pub edges: usize,
    pub start: Option<u16>,
    pub error: Option<u16>,
    pub tag: u16,
    pub kind: u8,
    // tag and kind are 0 where it is not so, as in `Draft`; start, error and overlap are the open rule's too, so no Option of the two
    pub inside: bool,
    // whether two of its transitions leave one state at one byte
    pub overlap: bool,
}

// What a command comes to that is not refused. `Narrow`: nothing yet, since the cells that are lent do not reach a state of the command.
#[derive(Clone, Copy)]
pub enum Progress {
    On(Book),
    Done(usize),
    Narrow,
}

impl Book {
    // The limits of a book.
    pub const BYTES: usize = 65536;

    pub const RULES: usize = 32;
    // transitions of one rule
    pub const TRANSITIONS: usize = 4096;
    // states of one rule, numbered from 0
    pub const STATES: usize = automaton::STATES;

    // Bytes of a text, tokens of a list, bytes that a printer writes.
    pub const TEXT: usize = 65536;

    pub const TOKENS: usize = 65536;

    // Bytes of a scratch for short lists, and words of a table for any book.
    pub const SMALL: usize = 2048;

    pub const TABLE: usize = 16450;

    // Nothing read yet.
    pub fn new() -> Book
        ensures { result ≡ idle 0 edge_start }
    {
        Book::between(0, automaton::EDGE_START)
    }

    // Between two rules, or before the first.
    pub fn between(rules: usize, edges: usize) -> Book
        ensures { result ≡ idle rules edges }
    {
        Book {
            rules,
            first: edges,
            edges,
            inside: false,
            tag: 0,
            kind: 0,
            start: None,
            error: None,
            overlap: false,
        }
    }

    // START.
    pub fn set_start(mut self, s: u16, at: usize) -> Result<Progress, Refusal>
        ensures { (tb rows : List ℕ) (len : ℕ) → Takes self (Command.Start s) at len result tb rows tb rows }
    {
        self.start = Some(set_once(self.start, s, at)?);
        Ok(Progress::On(self))
    }

    // ERROR, which sets another field by `set_once`: what is left of START and ERROR is no plainer as one.
    pub fn set_error(mut self, s: u16, at: usize) -> Result<Progress, Refusal>
        ensures { (tb rows : List ℕ) (len : ℕ) → Takes self (Command.Error s) at len result tb rows tb rows }
    {
        self.error = Some(set_once(self.error, s, at)?);
        Ok(Progress::On(self))
    }

    // What the cells of the open rule's states are stamped with.
    pub fn stamp(self) -> u32
        requires { self.rules < max_rules }
        ensures { result ≡ self.rules + 1 }
    {
        (self.rules + 1) as u32
    }

    // FINAL.
    pub fn add_final(self, rows: &mut [u32], s: u16, at: usize) -> Result<Progress, Refusal>
        requires { self.rules < max_rules }
        ensures { (tb : List ℕ) (len : ℕ)
            → Takes self (Command.Final s) at len result tb rows.old tb rows.new }
    {
        if is_no_state(s) {
            return Err(Reason::OutOfRange.at(at));
        }
        if rows.len() <= s as usize {
            return Ok(Progress::Narrow);
        }
        table_builder::mark_final(rows, self.stamp(), s as usize);
        Ok(Progress::On(self))
    }

    // END; `len` is the book's length.
    pub fn end(self, at: usize, len: usize) -> Result<Progress, Refusal>
        requires { at < len }
        ensures { (tb rows : List ℕ) → Takes self Command.End at len result tb rows tb rows }
    {
        if self.rules == 0 {
            return Err(Reason::NoRule.at(at));
        }
        if at + 1 < len {
            return Err(Reason::BytesAfterEnd.at(at + 1));
        }
        Ok(Progress::Done(self.rules))
    }
}

// The state that a rule gives once, as its start or its error state.
fn set_once(given: Option<u16>, s: u16, at: usize) -> Result<u16, Refusal>
    ensures { result ≡ once given s at }
{
    if is_no_state(s) {
        return Err(Reason::OutOfRange.at(at));
    }
    if given.is_some() {
        return Err(Reason::TwiceOrMissing.at(at));
    }
    Ok(s)
}

// Whether `s` is above the highest state that a rule may have.
pub fn is_no_state(s: u16) -> bool
    ensures { result ≡ no_state s }
{
    Book::STATES <= s as usize
}
