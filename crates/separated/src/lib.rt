// Printing a list of plain tokens with separators between them, the paper's spacing writing, by the rules that a lent table holds. Tokens
// and separators are put together in a scratch, so that the output stands as it was where the list is refused. `checks` has what is
// refused before that. Printing by a book's bytes is in crate `book_separated`.
#![tactic(auto)]

pub mod checks;

ghost use Rattle.std.specs.Prelude.{List, ◌≤◌, length, drop};
ghost use Rattle.automaton.specs.Rule.{Rule};
ghost use Rattle.automaton.specs.Layers.{Holds, Held};
ghost use Rattle.book.specs.Limits.{max_text};
ghost use Rattle.output.specs.Layers.{PrintAnswered};
ghost use Rattle.spacing.specs.Separators.{spelled};
ghost use Rattle.separated.specs.Outcome.{writing, separated_rules};
ghost use Rattle.separated.specs.Layers.{Passed, Roomy};

use answer::{Reason, Refusal};
use record::TokenRecord;

// Prints the tokens that `records` say with `pool`, with the separator token between neighbours where the mode places it.
pub fn print_rules(
    table: &[u64],
    separator: TokenRecord,
    mode: u32,
    records: &[u8],
    pool: &[u8],
    scratch: &mut [u8],
    out: &mut [u8],
) -> Result<usize, Refusal>
    requires held { Held table.now }
    requires roomy { Roomy separator mode records.now pool.now scratch.old }
    ensures { (rs : List Rule) → Holds table.now rs
        → PrintAnswered (separated_rules rs separator mode records.now pool.now out.old)
        result out.new }
{
    crate::checks::check_call(table, separator, mode, records, pool)?;
    print_passed(table, separator, mode, records, pool, scratch, out)
}

// The same of a call that the checks pass.
fn print_passed(
    table: &[u64],
    separator: TokenRecord,
    mode: u32,
    records: &[u8],
    pool: &[u8],
    scratch: &mut [u8],
    out: &mut [u8],
) -> Result<usize, Refusal>
    requires passed { Passed table.now separator mode records.now pool.now }
    requires roomy { Roomy separator mode records.now pool.now scratch.old }
    ensures { (rs : List Rule) → Holds table.now rs
        → PrintAnswered (writing (spelled rs separator mode records.now pool.now) out.old)
        result out.new }
{
    match spacing::spelling::put_list(table, separator, mode, records, pool, scratch) {
        Some(at) => write_from(scratch, at, out),
        None => Err(Reason::OutputTooLong.at(0)),
    }
}

// Writes what stands in the scratch from `at` on.
fn write_from(scratch: &[u8], at: usize, out: &mut [u8]) -> Result<usize, Refusal>
    requires { (at ≤ length scratch.now) × (length scratch.now ≤ max_text) }
    ensures { PrintAnswered (writing (drop at scratch.now) out.old) result out.new }
{
    output::write(scratch, at, scratch.len() - at, out)
}
