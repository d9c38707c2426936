// What is refused before anything is put together: shared bytes, the mode, the separator token, the tokens of the list.
ghost use Rattle.std.specs.Prelude.{◌≡◌, List};
ghost use Rattle.automaton.specs.Rule.{Rule};
ghost use Rattle.automaton.specs.Layers.{Holds, Held};
ghost use Rattle.record.specs.Tokens.{records_of};
ghost use Rattle.token_list.specs.Faults.{fault_of};
ghost use Rattle.token_list.specs.Checks.{first_fault};
ghost use Rattle.token_list.specs.Layers.{checked_of, fault_for};
ghost use Rattle.shared_bytes.specs.Kinds.{separates};
ghost use Rattle.separated.specs.Refusals.{or_else, plain_fault, list_refusal, separated_refusal};
ghost use Rattle.separated.specs.Layers.{differs};

use answer::{Reason, Refusal};
use book::Book;
use record::TokenRecord;

// Whether a separator rule has the tag.
pub fn is_separator(table: &[u64], tag: u64) -> bool
    requires { Held table.now }
    ensures { (rs : List Rule) → Holds table.now rs → result ≡ separates rs tag }
{
    for k in 0..automaton::count_of(table) {
        if automaton::tag_of(table, k) == tag && automaton::kind_of(table, k) == 1 {
            return true;
        }
    }
    false
}

// The fault of a token, or else `reason` where its kind is not the wanted one.
pub fn fault_or_kind(
    table: &[u64],
    pool: &[u8],
    token: TokenRecord,
    separator: bool,
    reason: Reason,
) -> Option<Reason>
    requires { Held table.now }
    ensures { (rs : List Rule) → Holds table.now rs
        → result ≡ fault_for (or_else (fault_of rs pool.now token) (differs separator (separates rs token.tag)) reason) }
{
    match token_list::faults::token_fault(table, pool, token) {
        Some(first) => Some(first),
        None => {
            if is_separator(table, token.tag as u64) == separator {
                return None;
            }
            Some(reason)
        }
    }
}

// The first token of the list that is at fault.
pub fn check_tokens(table: &[u64], records: &[u8], pool: &[u8]) -> Result<(), Refusal>
    requires { Held table.now }
    ensures { (rs : List Rule) → Holds table.now rs
        → result ≡ checked_of (first_fault (plain_fault rs pool.now) (records_of records.now) 0) }
{
    token_list::first_refused(records, |token| {
        fault_or_kind(table, pool, token, false, Reason::SeparatorInList)
    })
}

// All the checks of a call, in the order of document 01.
pub fn check_call(
    table: &[u64],
    separator: TokenRecord,
    mode: u32,
    records: &[u8],
    pool: &[u8],
) -> Result<(), Refusal>
    requires { Held table.now }
    ensures { (rs : List Rule) → Holds table.now rs
        → result ≡ checked_of (separated_refusal rs separator mode records.now pool.now) }
{
    match shared_bytes::shared_byte(table) {
        Some(b) => Err(Reason::SharedByte.at(b)),
        None => check_list(table, separator, mode, records, pool),
    }
}

// The same after the used bytes.
fn check_list(
    table: &[u64],
    separator: TokenRecord,
    mode: u32,
    records: &[u8],
    pool: &[u8],
) -> Result<(), Refusal>
    requires { Held table.now }
    ensures { (rs : List Rule) → Holds table.now rs
        → result ≡ checked_of (list_refusal rs separator mode records.now pool.now) }
{
    if 2 < mode {
        return Err(Reason::UnknownMode.at(0));
    }
    let count = records.len() / 10;
    if let Some(reason) = fault_or_kind(table, pool, separator, true, Reason::NoSeparator) {
        return Err(reason.at(count));
    }
    if Book::TOKENS < count {
        return Err(Reason::TooManyTokens.at(0));
    }
    check_tokens(table, records, pool)
}
