// Lexing by the built-in book of document 01, through its byte classes. `commands` has the book's bytes, `tables` the classes and the
// automaton of all five rules, `scanner` the walk over them.
#![tactic(auto)]

pub mod commands;
pub mod scanner;
pub mod tables;

ghost use Rattle.std.specs.Prelude.{◌≡◌};
ghost use Rattle.longest_match.specs.Layers.{Cuts};
ghost use Rattle.lexer.specs.Layers.{Room, Fills, LexAnswered};
ghost use Rattle.lexer.specs.Masked.{masked_rules, masked_outcome};
ghost use Rattle.builtin.specs.Book.{builtin_bytes, builtin_rules};

use crate::tables::Tables;
use answer::{Cut, Reason, Refusal};
use book::Book;

// How `text` is cut, with nothing written.
fn count(tables: &Tables, text: &[u8]) -> Cut
    ensures { Cuts builtin_rules text.now result.tokens result.rest }
{
    let mut tokens = 0;
    let mut at = 0;
    while at < text.len() {
        let Some(m) = crate::scanner::scan_at(tables, text, at) else {
            break;
        };
        tokens += 1;
        at += m.len;
    }
    Cut { tokens, rest: at }
}

// How `text` is cut, with a record and a mask of each token stored from the starts of `records` and `masks`. `count` stays beside it: one
// loop for both asks at each token whether to write, and is no plainer.
fn fill(tables: &Tables, text: &[u8], records: &mut [u8], masks: &mut [u8]) -> Cut
    requires { Room builtin_rules text.now records.old masks.old }
    ensures cuts { Cuts builtin_rules text.now result.tokens result.rest }
    ensures fills { Fills builtin_rules text.now records.old records.new masks.old masks.new }
{
    let mut tokens = 0;
    let mut place = 0;
    while place < text.len() {
        let Some(m) = crate::scanner::scan_at(tables, text, place) else {
            break;
        };
        let tag = u64::from(tables.tag_of(m.state));
        record::put_record(records, tokens, tag, place, m.len);
        record::put_mask(masks, tokens, tables.mask_of(m.state));
        tokens += 1;
        place += m.len;
    }
    Cut {
        tokens,
        rest: place,
    }
}

// Lexing by the lent tables. Each token has a byte, so that as many records and masks as the text has bytes are surely enough.
fn lex_lent(
    tables: &Tables,
    text: &[u8],
    records: &mut [u8],
    masks: &mut [u8],
) -> Result<Cut, Refusal>
    ensures { LexAnswered (masked_rules builtin_rules text.now records.old masks.old) result
        records.new masks.new }
{
    if Book::TEXT < text.len() {
        return Err(Reason::TextTooLong.at(0));
    }
    let room = record::room(records, masks);
    if room < text.len() {
        let needed = count(tables, text).tokens;
        if room < needed {
            return Err(Reason::TooFewRecords.at(needed));
        }
    }
    Ok(fill(tables, text, records, masks))
}

// Lexes `text` by the built-in book. Answer, records and masks are those of `book_lexer::lex` with the book's command bytes (document 01,
// 'The built-in book', sentence 7, its second half).
pub fn lex_builtin(text: &[u8], records: &mut [u8], masks: &mut [u8]) -> Result<Cut, Refusal>
    ensures value { result ≡ (masked_outcome builtin_bytes text.now records.old masks.old).answer }
    ensures records_after { records.new
        ≡ (masked_outcome builtin_bytes text.now records.old masks.old).records }
    ensures masks_after { masks.new
        ≡ (masked_outcome builtin_bytes text.now records.old masks.old).masks }
{
    lex_lent(&Tables::new(), text, records, masks)
}
