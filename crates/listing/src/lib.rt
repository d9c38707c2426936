// What the program cutlist prints of a book and a text: `list` cuts the text and writes the lines of the outcome into a lent buffer.
// `digits` writes numbers in decimal, `lines` a token's line.
#![tactic(auto)]

pub mod digits;
pub mod lines;

ghost use Rattle.std.specs.Prelude.{◌≡◌, ◌++◌, ◌*◌, ◌≤◌, length, drop};
ghost use Rattle.lexer.specs.Outcome.{lex_outcome};
ghost use Rattle.lexer.specs.Masked.{masked_outcome};
ghost use Rattle.listing.specs.Layers.{Room, Puts, LinesFit};
ghost use Rattle.listing.specs.Lines.{word_line, record_lines, lines_of, listing};

use answer::{Cut, Refusal};

// The bytes of the 6,000 records and masks that are lent to `list`, and of the output, which no listing passes.
pub const RECORD_BYTES: usize = 60000;

pub const MASK_BYTES: usize = 24000;

pub const OUTPUT_BYTES: usize = 144024;

// A word and the two numbers behind it, from `at` on. Each `put` answers the place behind what it wrote.
fn put_line(out: &mut [u8], at: usize, word: &[u8], a: usize, b: usize) -> usize
    requires { Room at (word_line word.now a b) out.old }
    ensures { Puts out.old at (word_line word.now a b) result out.new }
{
    let len = word.len();
    output::copy(word, 0, len, out, at);
    crate::digits::put_last_two(out, at + len, a, b)
}

// The lines of the first `n` records, from the start of `out`.
fn put_records(out: &mut [u8], records: &[u8], n: usize) -> usize
    requires n_in_bounds { 10 * n ≤ length records.now }
    requires room { Room 0 (record_lines records.now n) out.old }
    ensures { Puts out.old 0 (record_lines records.now n) result out.new }
{
    let mut at = 0;
    for k in 0..n {
        at = crate::lines::put_record(out, at, records, k);
    }
    at
}

// The lines of an answer and the records beside it, for a text of `len` bytes.
fn put_lines(out: &mut [u8], answer: Result<Cut, Refusal>, records: &[u8], len: usize) -> usize
    requires { LinesFit answer records.now len out.old }
    ensures { Puts out.old 0 (lines_of answer records.now len) result out.new }
{
    match answer {
        Ok(cut) => {
            let at = put_records(out, records, cut.tokens);
            put_line(out, at, b"rest ", cut.rest, len - cut.rest)
        }
        Err(refusal) => {
            put_line(
                out,
                0,
                b"refused ",
                refusal.reason.number() as usize,
                refusal.place,
            )
        }
    }
}

// Cuts `text` by the rules of a book, with the records and the masks lent, and writes the lines of the outcome from the start of `out`;
// answers how many bytes they are.
pub fn list(
    book: &[u8],
    text: &[u8],
    records: &mut [u8; RECORD_BYTES],
    masks: &mut [u8; MASK_BYTES],
    out: &mut [u8; OUTPUT_BYTES],
) -> usize
    ensures value { result ≡ length (listing book.now text.now records.old) }
    ensures records_after { records.new ≡ (lex_outcome book.now text.now records.old).records }
    ensures masks_after { masks.new
        ≡ (masked_outcome book.now text.now records.old masks.old).masks }
    ensures out_after { out.new
        ≡ listing book.now text.now records.old ++ drop result out.old }
{
    let answer = book_lexer::lex(book, text, records, masks);
    put_lines(out, answer, records, text.len())
}
