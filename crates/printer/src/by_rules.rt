// Printing a list of tokens by the rules that a lent table holds.
ghost use Rattle.std.specs.Prelude.{List};
ghost use Rattle.automaton.specs.Rule.{Rule};
ghost use Rattle.automaton.specs.Layers.{Holds, Held};
ghost use Rattle.printer.specs.Outcome.{print_rules};
ghost use Rattle.output.specs.Layers.{PrintAnswered};
ghost use Rattle.printer.specs.Layers.{Roomy};

use answer::{Reason, Refusal};
use book::Book;

// The bytes are joined in the scratch. The list is rehearsed, and only one with which something is wrong is asked what that is.
pub fn print_rules(
    table: &[u64],
    records: &[u8],
    pool: &[u8],
    scratch: &mut [u8],
    out: &mut [u8],
) -> Result<usize, Refusal>
    requires held { Held table.now }
    requires roomy { Roomy records.now pool.now scratch.old }
    ensures { (rs : List Rule) → Holds table.now rs
        → PrintAnswered (print_rules rs records.now pool.now out.old) result out.new }
{
    if Book::TOKENS < records.len() / 10 {
        return Err(Reason::TooManyTokens.at(0));
    }
    match crate::rehearsal::rehearse(table, records, pool, scratch) {
        Ok(total) => output::write(scratch, 0, total, out),
        Err(found) => Err(crate::rehearsal::find_refusal(table, records, pool, found)),
    }
}
