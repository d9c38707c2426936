// An answer as one word of 64 bits, and read back; specs/Words.antt says which bits hold what.
#![tactic(auto)]

ghost use Rattle.std.specs.Prelude.{◌≡◌, min};
ghost use Rattle.longest_match.specs.Masks.{bit};
ghost use Rattle.answer_word.specs.Words.{refusal_word, accepted_word, book_word, rule_word, lex_word, print_word};
ghost use Rattle.answer_word.specs.Words.{turn_word, next_after, examined_after};

use answer::{Cut, Refusal, RuleName, Turn};

// An answer that is a number of rules or of bytes.
pub fn counted(answer: Result<usize, Refusal>) -> u64
    ensures of_book { result ≡ book_word answer }
    ensures of_print { result ≡ print_word answer }
{
    match answer {
        Ok(count) => accepted(count, 0),
        Err(refusal) => refused(refusal),
    }
}

pub fn ruled(answer: Result<RuleName, Refusal>) -> u64
    ensures { result ≡ rule_word answer }
{
    match answer {
        Ok(rule) => accepted(rule.tag, rule.kind),
        Err(refusal) => refused(refusal),
    }
}

pub fn lexed(answer: Result<Cut, Refusal>) -> u64
    ensures { result ≡ lex_word answer }
{
    match answer {
        Ok(cut) => accepted(cut.tokens, cut.rest),
        Err(refusal) => refused(refusal),
    }
}

// 1 where the turn is finished.
pub fn turned(answer: Result<Turn, Refusal>) -> u64
    ensures { result ≡ turn_word answer }
{
    match answer {
        Ok(turn) => accepted(turn.tokens, turn.finished as usize),
        Err(refusal) => refused(refusal),
    }
}

// The numbers of an answer that its word has no room for; after a refusal they stay.
pub fn put_numbers(answer: Result<Turn, Refusal>, next: &mut u64, examined: &mut u64)
    ensures next_after { next.new ≡ next_after answer next.old }
    ensures examined_after { examined.new ≡ examined_after answer examined.old }
{
    if let Ok(turn) = answer {
        *next = turn.next as u64;
        *examined = turn.examined as u64;
    }
}

pub fn refused(refusal: Refusal) -> u64
    ensures { result ≡ refusal_word refusal }
{
    (refusal.reason.number() as u64) * 72057594037927936
        + (refusal.place as u64).min(72057594037927935)
}

pub fn accepted(first: usize, second: usize) -> u64
    ensures { result ≡ accepted_word first second }
{
    (first as u64).min(268435455) * 268435456 + (second as u64).min(268435455)
}
