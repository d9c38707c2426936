// What a call answers: what it came to, or a refusal, which says why and where.
#![tactic(auto)]

ghost use Rattle.std.specs.Prelude.{◌≡◌};
ghost use Rattle.answer.specs.Refusals.{number_of};

use std::fmt;

// Why a call is refused, in the order of the numbers that C reads.
#[derive(Clone, Copy, Debug, PartialEq, Eq)]
pub enum Reason {
    // Reading a book.
    BookTooLong,
    CutOff,
    Misplaced,
    BytesAfterEnd,
    TooMany,
    OutOfRange,
    TagTaken,
    TwiceOrMissing,
    Overlap,
    LeavesError,
    ErrorFinal,
    StartFinal,
    NoRule,
    // Lexing.
    TextTooLong,
    TooFewRecords,
    // Printing.
    TooManyTokens,
    PastThePool,
    UnknownTag,
    NotAlone,
    OutputTooLong,
    ReadOn,
    OutputTooShort,
    // Printing with separators.
    SharedByte,
    UnknownMode,
    NoSeparator,
    SeparatorInList,
    // Lexing in turns.
    PastTheText,
    // Making a rule of an expression.
    NoExpression,
    LargeExpression,
    TooManySets,
    // Reading a book strictly.
    Retired,
}

impl Reason {
    // The number under which the reason is known.
    pub fn number(self) -> u8
        ensures { result ≡ number_of self }
    {
        match self {
            Reason::BookTooLong => 1,
            Reason::CutOff => 2,
            Reason::Misplaced => 3,
            Reason::BytesAfterEnd => 4,
            Reason::TooMany => 5,
            Reason::OutOfRange => 6,
            Reason::TagTaken => 7,
            Reason::TwiceOrMissing => 8,
            Reason::Overlap => 9,
            Reason::LeavesError => 10,
            Reason::ErrorFinal => 11,
            Reason::StartFinal => 12,
            Reason::NoRule => 13,
            Reason::TextTooLong => 14,
            Reason::TooFewRecords => 15,
            Reason::TooManyTokens => 16,
            Reason::PastThePool => 17,
            Reason::UnknownTag => 18,
            Reason::NotAlone => 19,
            Reason::OutputTooLong => 20,
            Reason::ReadOn => 21,
            Reason::OutputTooShort => 22,
            Reason::SharedByte => 23,
            Reason::UnknownMode => 24,
            Reason::NoSeparator => 25,
            Reason::SeparatorInList => 26,
            Reason::PastTheText => 27,
            Reason::NoExpression => 30,
            Reason::LargeExpression => 31,
            Reason::TooManySets => 32,
            Reason::Retired => 33,
        }
    }

    // The refusal for this reason, at a place.
    pub fn at(self, place: usize) -> Refusal
        ensures { result ≡ record { reason = self; place = place } }
    {
        Refusal {
            reason: self,
            place,
        }
    }
}

#[derive(Clone, Copy, Debug, PartialEq, Eq)]
pub struct Refusal {
    pub reason: Reason,
    pub place: usize,
}

impl fmt::Display for Refusal {
    fn fmt<W: fmt::Write>(&self, f: &mut fmt::Formatter<W>) -> fmt::Result {
        let number = self.reason.number();
        let place = self.place;
        write!(f, "refused {number} {place}")
    }
}

// A rule of a book, as a caller may ask for it; its kind is a number in a book, for C and in the definition of a rule.
#[derive(Clone, Copy, Debug, PartialEq, Eq)]
pub struct RuleName {
    pub tag: usize,
    pub kind: usize,
}

// A cut of a text: how many tokens it has, and the place of the rest.
#[derive(Clone, Copy, Debug, PartialEq, Eq)]
pub struct Cut {
    pub tokens: usize,
    pub rest: usize,
}

// A turn of lexing: the number of its tokens, the next place, the bytes that it examined, and whether it is finished (else it is spent).
#[derive(Clone, Copy, Debug, PartialEq, Eq)]
pub struct Turn {
    pub tokens: usize,
    pub next: usize,
    pub examined: usize,
    pub finished: bool,
}
