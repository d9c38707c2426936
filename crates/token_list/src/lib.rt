// A list of tokens as a caller lends it, records that point into a byte pool: its bytes joined, the first token at fault (`faults` has the
// fault of one), and whether it is read back (`readback`).
#![tactic(auto)]

pub mod faults;
pub mod readback;

ghost use Rattle.std.specs.Prelude.{◌≡◌, List, Option};
ghost use Rattle.answer.specs.declared.Reason.{Reason};
ghost use Rattle.automaton.specs.Rule.{Rule};
ghost use Rattle.automaton.specs.Layers.{Holds, Held};
ghost use Rattle.longest_match.specs.Lexer.{join};
ghost use Rattle.record.specs.declared.TokenRecord.{TokenRecord};
ghost use Rattle.record.specs.Tokens.{records_of, tokens_of};
ghost use Rattle.token_list.specs.Faults.{fault_of};
ghost use Rattle.token_list.specs.Checks.{first_fault};
ghost use Rattle.token_list.specs.Layers.{checked_of, Finds, Fitting, Joined};

use answer::{Reason, Refusal};
use record::TokenRecord;

// The first token that `fault` has a reason to refuse.
pub fn first_refused<F: Fn(TokenRecord) -> Option<Reason>>(
    records: &[u8],
    fault: F,
) -> Result<(), Refusal>
    requires { F.IsAlwaysCallable fault }
    ensures { (g : _) → Finds (F.post fault) g
        → result ≡ checked_of (first_fault g (records_of records.now) 0) }
{
    for k in 0..records.len() / 10 {
        if let Some(reason) = fault(record::read_record(records, k)) {
            return Err(reason.at(k));
        }
    }
    Ok(())
}

// The first token that is at fault.
pub fn check_tokens(table: &[u64], records: &[u8], pool: &[u8]) -> Result<(), Refusal>
    requires { Held table.now }
    ensures { (rs : List Rule) → Holds table.now rs
        → result ≡ checked_of (first_fault (fault_of rs pool.now) (records_of records.now) 0) }
{
    first_refused(records, |token| faults::token_fault(table, pool, token))
}

// Puts the bytes of the tokens one behind the other, from the start of `out`.
pub fn join_tokens(records: &[u8], pool: &[u8], out: &mut [u8])
    requires { Fitting records.now pool.now out.old }
    ensures { Joined (join (tokens_of records.now pool.now)) out.old out.new }
{
    let mut at = 0;
    for k in 0..records.len() / 10 {
        let token = record::read_record(records, k);
        let len = token.len as usize;
        output::copy(pool, token.place as usize, len, out, at);
        at += len;
    }
}
