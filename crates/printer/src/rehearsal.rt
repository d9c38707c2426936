// A list of tokens is rehearsed before it is printed: its bytes are joined and read back, so that a list with which nothing is wrong is
// walked once. Only one with which something is wrong is asked what that is.
ghost use Rattle.std.specs.Prelude.{◌≡◌, List, ◌≤◌, length};
ghost use Rattle.std.proofs.Math.Option.{some};
ghost use Rattle.automaton.specs.Rule.{Rule};
ghost use Rattle.automaton.specs.Layers.{Holds, Held};
ghost use Rattle.token_list.specs.Layers.{Spanned};
ghost use Rattle.printer.specs.Layers.{trouble, Rehearses, Suspects, Roomy};

use answer::{Reason, Refusal};

// What a rehearsal comes to: so many bytes stand at the front of the scratch and are read back, or something is wrong with the list:
// a token is at fault, or else this refusal applies.
pub fn rehearse(
    table: &[u64],
    records: &[u8],
    pool: &[u8],
    scratch: &mut [u8],
) -> Result<usize, Refusal>
    requires held { Held table.now }
    requires roomy { Roomy records.now pool.now scratch.old }
    ensures { (rs : List Rule) → Holds table.now rs
        → Rehearses rs records.now pool.now scratch.new result }
{
    match token_list::readback::measure(records, pool) {
        Some(total) => rehearse_bytes(table, records, pool, scratch, total),
        None => Err(Reason::OutputTooLong.at(0)),
    }
}

// The same of tokens that lie in the pool and have `total` bytes.
fn rehearse_bytes(
    table: &[u64],
    records: &[u8],
    pool: &[u8],
    scratch: &mut [u8],
    total: usize,
) -> Result<usize, Refusal>
    requires held { Held table.now }
    requires total_in_bounds { total ≤ length scratch.old }
    requires spanned { Spanned records.now pool.now total }
    ensures { (rs : List Rule) → Holds table.now rs
        → Rehearses rs records.now pool.now scratch.new result }
{
    token_list::join_tokens(records, pool, scratch);
    let k = token_list::readback::read_back(table, records, &scratch[..total]);
    if k < records.len() / 10 {
        return Err(Reason::ReadOn.at(k));
    }
    Ok(total)
}

// What refuses a list with which something is wrong: the first token at fault, or else what the rehearsal found.
pub fn find_refusal(table: &[u64], records: &[u8], pool: &[u8], found: Refusal) -> Refusal
    requires { Suspects table.now records.now pool.now found }
    ensures { (rs : List Rule) → Holds table.now rs → trouble rs records.now pool.now ≡ some result }
{
    match token_list::check_tokens(table, records, pool) {
        Ok(()) => found,
        Err(refusal) => refusal,
    }
}
