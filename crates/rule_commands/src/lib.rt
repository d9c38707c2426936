// A rule that is given by a table, as commands of a book: for each state and byte the state that it leads to.
#![tactic(auto)]

ghost use Rattle.std.specs.Prelude.{◌≡◌, ℕ, ◌+◌, ◌*◌, ◌<◌, ◌≤◌, length};
ghost use mathlib.Core.List.{map, flatten};
ghost use Rattle.output.specs.Outcome.{written};
ghost use Rattle.output.specs.Layers.{PrintAnswered};
ghost use Rattle.rule_commands.specs.Spans.{row_spans, spans_of};
ghost use Rattle.rule_commands.specs.Bytes.{final_bytes, head_bytes, table_bytes};
ghost use Rattle.rule_commands.specs.Layers.{rows_of, apart_at, closes_at, bytes_of, Put};

use answer::{Reason, Refusal};
use command::Command;

// The codes of the commands, as `head_bytes` and its kin have them in numbers; that of SPAN is `Command::SPAN`.
const RULE: u8 = 1;

const START: u8 = 2;

const ERROR: u8 = 3;

const FINAL: u8 = 4;

const CLOSE: u8 = 7;

// A table's rule starts in state 0 and has this error state.
const ERROR_STATE: u8 = 255;

// ---- where a SPAN ends

// Whether the byte behind `b` leads elsewhere, or there is none.
fn run_ends(row: &[u8], b: usize) -> bool
    requires { b < length row.now }
    ensures { result ≡ apart_at row.now b }
{
    b + 1 == row.len() || row[b] != row[b + 1]
}

fn span_ends(row: &[u8], b: usize) -> bool
    requires { b < length row.now }
    ensures { result ≡ closes_at row.now b }
{
    run_ends(row, b) && row[b] != 0
}

// ---- how many there are

fn count_row(row: &[u8]) -> usize
    requires { length row.now ≡ 256 }
    ensures { ((from : ℕ) → result ≡ length (row_spans from row.now)) × (result ≤ 256) }
{
    let mut count = 0;
    for b in 0..256 {
        if span_ends(row, b) {
            count += 1;
        }
    }
    count
}

// The number of SPANs of the first `rows` states.
fn count_spans(targets: &[u8; 65536], rows: usize) -> usize
    requires { rows ≤ 256 }
    ensures { (result ≡ length (spans_of 0 (rows_of targets.now rows))) × (result ≤ 65536) }
{
    let mut count = 0;
    for k in 0..rows {
        count += count_row(&targets[256 * k..256 * k + 256]);
    }
    count
}

// ---- the commands, each function answers the place past what it writes

fn put(bytes: &[u8], out: &mut [u8], to: usize) -> usize
    requires { to + length bytes.now ≤ length out.old }
    ensures { Put bytes.now to out.old result out.new }
{
    let end = to + bytes.len();
    out[to..end].copy_from_slice(bytes);
    end
}

fn write_head(tag: u16, kind: u8, out: &mut [u8]) -> usize
    requires { 8 ≤ length out.old }
    ensures { Put (head_bytes tag kind) 0 out.old result out.new }
{
    let high = (tag / 256) as u8;
    let low = (tag % 256) as u8;
    let head = [RULE, high, low, kind, START, 0, ERROR, ERROR_STATE];
    put(&head, out, 0)
}

fn write_finals(finals: &[u8], out: &mut [u8], to: usize) -> usize
    requires { to + 2 * length finals.now ≤ length out.old }
    ensures { Put (flatten (map final_bytes finals.now)) to out.old result out.new }
{
    let mut at = to;
    for state in finals {
        at = put(&[FINAL, *state], out, at);
    }
    at
}

// The SPANs of state `from`.
fn write_row(from: u8, row: &[u8], out: &mut [u8], to: usize) -> usize
    requires row_size { length row.now ≡ 256 }
    requires row_in_bounds { to + length (bytes_of (row_spans from row.now)) ≤ length out.old }
    ensures { Put (bytes_of (row_spans from row.now)) to out.old result out.new }
{
    let mut at = to;
    let mut low = 0;
    for b in 0..256 {
        if span_ends(row, b) {
            at = put(&[Command::SPAN, from, low as u8, b as u8, row[b]], out, at);
        }
        if run_ends(row, b) {
            low = b + 1;
        }
    }
    at
}

// Those of the first `rows` states.
fn write_spans(targets: &[u8; 65536], rows: usize, out: &mut [u8], to: usize) -> usize
    requires rows_bound { rows ≤ 256 }
    requires rows_in_bounds { to + length (bytes_of (spans_of 0 (rows_of targets.now rows))) ≤ length out.old }
    ensures { Put (bytes_of (spans_of 0 (rows_of targets.now rows))) to out.old result out.new }
{
    let mut at = to;
    for k in 0..rows {
        at = write_row(k as u8, &targets[256 * k..256 * k + 256], out, at);
    }
    at
}

// The whole rule, from the start of `out`.
fn write_commands(
    tag: u16,
    kind: u8,
    finals: &[u8],
    targets: &[u8; 65536],
    rows: usize,
    out: &mut [u8],
) -> usize
    requires table { rows ≤ 256 }
    requires rows_in_bounds { length (table_bytes tag kind finals.now (rows_of targets.now rows)) ≤ length out.old }
    ensures { Put (table_bytes tag kind finals.now (rows_of targets.now rows)) 0 out.old result out.new }
{
    let finals_at = write_head(tag, kind, out);
    let spans_at = write_finals(finals, out, finals_at);
    let close_at = write_spans(targets, rows, out, spans_at);
    put(&[CLOSE], out, close_at)
}

// `row_count` stands beside `targets`, since a slice of just the rows would need a clause that they are whole.
// Writes the rule that has `finals` as its final states and, for each of its first `row_count` states, a row of 256 targets: the number of
// bytes, which stand at the start of `out`, or 22. Every other byte of `out` stays as it was.
pub fn write_rule(
    tag: u16,
    kind: u8,
    finals: &[u8],
    targets: &[u8; 65536],
    row_count: usize,
    out: &mut [u8],
) -> Result<usize, Refusal>
    requires { (length finals.now ≤ 256) × (row_count ≤ 256) }
    ensures { PrintAnswered
        (written (table_bytes tag kind finals.now (rows_of targets.now row_count)) out.old)
        result out.new }
{
    let total = 9 + 2 * finals.len() + 5 * count_spans(targets, row_count);
    if out.len() < total {
        return Err(Reason::OutputTooShort.at(total));
    }
    Ok(write_commands(tag, kind, finals, targets, row_count, out))
}
