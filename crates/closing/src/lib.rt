// The command CLOSE: what a whole rule must be, 8 to 12, and putting it into the table.
#![tactic(auto)]

ghost use Rattle.std.specs.Prelude.{◌≡◌, ℕ, Some};
ghost use Rattle.book.specs.Layers.{Inside, Closes, Takes};

use answer::{Reason, Refusal};
use book::{Book, Progress};
use command::Command;

pub fn close(book: Book, table: &mut [u64], rows: &[u32], at: usize) -> Result<Progress, Refusal>
    requires { Inside book table.old rows.now }
    ensures { (len : ℕ) → Takes book Command.Close at len result table.old rows.now
        table.new rows.now }
{
    let (Some(start), Some(error)) = (book.start, book.error) else {
        return Err(Reason::TwiceOrMissing.at(at));
    };
    if book.overlap {
        return Err(Reason::Overlap.at(at));
    }
    let stamp = book.stamp();
    if table_builder::head(rows, stamp, error as usize) != 0 {
        return Err(Reason::LeavesError.at(at));
    }
    if table_builder::is_final(rows, stamp, error as usize) {
        return Err(Reason::ErrorFinal.at(at));
    }
    if table_builder::is_final(rows, stamp, start as usize) {
        return Err(Reason::StartFinal.at(at));
    }
    store_rule(book, start, error, table, rows);
    Ok(Progress::On(Book::between(book.rules + 1, book.edges)))
}

// Puts the open rule into the table as the next one: the spots to which its transitions lead, and its name and body.
fn store_rule(book: Book, start: u16, error: u16, table: &mut [u64], rows: &[u32])
    requires inside { Inside book table.old rows.now }
    requires given { (book.start ≡ Some start) × (book.error ≡ Some error) }
    ensures { Closes book rows.now table.old table.new }
{
    let rule = book.rules;
    let first = book.first;
    let end = book.edges;
    let stamp = book.stamp();
    let head = table_builder::head(rows, stamp, start as usize);
    let first_bytes = (head as u64) * 65536 + table_builder::first_bytes(table, head);
    table_builder::settle(table, rows, stamp, first, end);
    table_builder::put_name(table, rule, book.tag, book.kind, error, start);
    table_builder::put_body(table, rule, first_bytes, first, end);
    table_builder::put_count(table, rule + 1);
}
