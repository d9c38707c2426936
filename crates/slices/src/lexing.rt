// Lexing a text into structs of its tokens, and a mask beside each, by the rules that a lent table holds. `begin`, `next` and `answer` hand
// out one token after the other, and store none: a caller stores the token and the mask of what is pending.
ghost use Rattle.std.specs.Prelude.{◌≡◌, List, ◌+◌, ◌≤◌, min, length, MatchResult};
ghost use Rattle.automaton.specs.Rule.{Rule};
ghost use Rattle.automaton.specs.Layers.{Holds, Held};
ghost use Rattle.book.specs.Limits.{max_text};
ghost use Rattle.reader.specs.Layers.{Lent};
ghost use Rattle.longest_match.specs.Layers.{Cuts};
ghost use Rattle.record.specs.Encoding.{encoded};
ghost use Rattle.record.specs.Masks.{mask_bytes};
ghost use Rattle.lexer.specs.Masked.{masked_rules};
ghost use Rattle.lexer.specs.Layers.{LexAnswered, RecordsRoom, Fills};
ghost use Rattle.slices.specs.Layers.{TokensFit, RoomRefused};
ghost use Rattle.slices.specs.Layers.{answer_of, refused_pending, PendingAt, Ready, Opens, Begun};

use answer::{Cut, Reason, Refusal};
use book::Book;
use record::TokenRecord;

// For where there is no token.
const NO_TOKEN: TokenRecord = TokenRecord {
    tag: 0,
    place: 0,
    len: 0,
};

// Every token has a byte, so that as many structs and masks as the text has bytes are surely enough, and the text is walked once; else
// the tokens are counted before the first is stored.
pub(crate) fn lex_rules(
    table: &[u64],
    text: &[u8],
    tokens: &mut [TokenRecord],
    masks: &mut [u32],
) -> Result<Cut, Refusal>
    requires { Held table.now }
    ensures { (rs : List Rule) → Holds table.now rs
        → LexAnswered (masked_rules rs text.now (encoded tokens.old) (mask_bytes masks.old)) result
        (encoded tokens.new) (mask_bytes masks.new) }
{
    check_room(table, text, tokens.len().min(masks.len()))?;
    Ok(fill(table, text, tokens, masks))
}

// Refuses a text that is too long, or has more tokens than there is room for.
fn check_room(table: &[u64], text: &[u8], room: usize) -> Result<(), Refusal>
    requires { Held table.now }
    ensures { (rs : List Rule) → Holds table.now rs
        → MatchResult result (λ _. TokensFit rs text.now room) (RoomRefused rs text.now room) }
{
    if Book::TEXT < text.len() {
        return Err(Reason::TextTooLong.at(0));
    }
    if room < text.len() {
        let needed = longest_match::count(table, text);
        if room < needed.tokens {
            return Err(Reason::TooFewRecords.at(needed.tokens));
        }
    }
    Ok(())
}

// How `text` is cut, with each token and its mask stored from the starts of `tokens` and `masks`.
fn fill(table: &[u64], text: &[u8], tokens: &mut [TokenRecord], masks: &mut [u32]) -> Cut
    requires room { RecordsRoom table.now text.now (encoded tokens.old) (mask_bytes masks.old) }
    requires short { length text.now ≤ max_text }
    ensures cuts { (rs : List Rule) → Holds table.now rs → Cuts rs text.now result.tokens result.rest }
    ensures fills { (rs : List Rule) → Holds table.now rs
        → Fills rs text.now (encoded tokens.old) (encoded tokens.new) (mask_bytes masks.old)
        (mask_bytes masks.new) }
{
    let mut lengths = [0usize; automaton::RULES];
    let mut count = 0;
    let mut place = 0;
    while place < text.len() {
        let Some(c) = longest_match::choose_with(table, text, place, text.len(), &mut lengths)
        else {
            break;
        };
        let tag = automaton::tag_of(table, c.rule);
        tokens[count] = TokenRecord {
            tag: (tag % 65536) as u16,
            place: place as u32,
            len: c.len as u32,
        };
        masks[count] = c.mask;
        count += 1;
        place += c.len;
    }
    Cut {
        tokens: count,
        rest: place,
    }
}

// What is pending: whether `token` and `mask` are to be stored, as number `index`, and where the text goes on behind it; where there is
// none, `index` tokens are stored and the rest is at `next`, or the call is refused.
#[derive(Clone, Copy)]
pub struct Pending {
    pub more: bool,
    pub index: usize,
    pub token: TokenRecord,
    pub mask: u32,
    pub next: usize,
    pub refusal: Option<Refusal>,
}

// What is pending first in lexing `text` by a book into so many tokens and masks; the table is lent empty, and holds the book's rules
// afterwards.
pub fn begin(
    book: &[u8],
    table: &mut [u64; Book::TABLE],
    text: &[u8],
    tokens: usize,
    masks: usize,
) -> Pending
    requires { Lent (length book.now) table.old }
    ensures { Begun book.now text.now (min tokens masks) table.new result }
{
    match reader::load(book, table) {
        Ok(_) => begin_rules(table, text, tokens.min(masks)),
        Err(refusal) => refuse(refusal),
    }
}

// What is pending once the token of `pending` is stored.
pub fn next(table: &[u64; Book::TABLE], text: &[u8], pending: Pending) -> Pending
    requires { Ready table.now text.now pending }
    ensures { (rs : List Rule) → Holds table.now rs
        → PendingAt rs text.now (pending.index + 1) pending.next result }
{
    pending_at(table, text, pending.index + 1, pending.next)
}

// What is answered when there is no token to store.
pub fn answer(pending: Pending) -> Result<Cut, Refusal>
    ensures { result ≡ answer_of pending }
{
    match pending.refusal {
        Some(refusal) => Err(refusal),
        None => Ok(Cut {
            tokens: pending.index,
            rest: pending.next,
        }),
    }
}

// What is pending first by the rules of the table, with so much room for tokens and masks.
fn begin_rules(table: &[u64], text: &[u8], room: usize) -> Pending
    requires { Held table.now }
    ensures { (rs : List Rule) → Holds table.now rs → Opens rs text.now room result }
{
    if let Err(refusal) = check_room(table, text, room) {
        return refuse(refusal);
    }
    pending_at(table, text, 0, 0)
}

// What is pending in a refused call.
fn refuse(refusal: Refusal) -> Pending
    ensures { result ≡ refused_pending refusal }
{
    Pending {
        more: false,
        index: 0,
        token: NO_TOKEN,
        mask: 0,
        next: 0,
        refusal: Some(refusal),
    }
}

// What is pending after `index` tokens, where the text goes on at `at`.
fn pending_at(table: &[u64], text: &[u8], index: usize, at: usize) -> Pending
    requires held { Held table.now }
    requires at_in_bounds { (at ≤ length text.now) × (length text.now ≤ max_text) }
    ensures { (rs : List Rule) → Holds table.now rs → PendingAt rs text.now index at result }
{
    let Some(c) = longest_match::choose(table, text, at, text.len()) else {
        return Pending {
            more: false,
            index,
            token: NO_TOKEN,
            mask: 0,
            next: at,
            refusal: None,
        };
    };
    let tag = automaton::tag_of(table, c.rule);
    Pending {
        more: true,
        index,
        token: TokenRecord {
            tag: (tag % 65536) as u16,
            place: at as u32,
            len: c.len as u32,
        },
        mask: c.mask,
        next: at + c.len,
        refusal: None,
    }
}
