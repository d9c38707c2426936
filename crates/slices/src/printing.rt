// Printing a slice of tokens by the rules that a lent table holds, in three passes: each token is checked and the bytes are counted, the
// bytes are joined in a scratch, and they are read back. `begin`, `step` and `finish` take one token after the other: in each pass a caller
// gives the token of the stage's number.
ghost use Rattle.std.specs.Prelude.{◌≡◌, List, ◌+◌, ◌*◌, ◌^◌, ◌<◌, ◌≤◌, IfOk, MatchResult, Err, length, take, drop, ℕ};
ghost use Rattle.std.proofs.Math.Option.{none, some};
ghost use Rattle.std.proofs.Math.Seq.{paste};
ghost use Rattle.automaton.specs.Rule.{Rule};
ghost use Rattle.automaton.specs.Layers.{Holds, Held};
ghost use Rattle.book.specs.Limits.{max_text, max_tokens};
ghost use Rattle.reader.specs.Layers.{Lent};
ghost use Rattle.longest_match.specs.Lexer.{join};
ghost use Rattle.record.specs.Encoding.{encoded, Fits};
ghost use Rattle.record.specs.Tokens.{tokens_of};
ghost use Rattle.output.specs.Layers.{PrintAnswered};
ghost use Rattle.token_list.specs.Faults.{fault_of};
ghost use Rattle.token_list.specs.Checks.{first_extended};
ghost use Rattle.token_list.specs.Layers.{checked_of, Fitting, Joined, Faultless};
ghost use Rattle.printer.specs.Outcome.{print_rules};
ghost use Rattle.slices.specs.Layers.{EachFits, Counted};
ghost use Rattle.slices.specs.Layers.{going, done, refused_stage, moved_on, checked, Reads, Steps, Stepped};
ghost use Rattle.slices.specs.Layers.{begun, Begins, Finishes};

use answer::{Reason, Refusal};
use book::Book;
use record::TokenRecord;

// The bytes are joined in a scratch, so that `out` stands as it was where the list is refused.
pub(crate) fn print_rules(
    table: &[u64],
    tokens: &[TokenRecord],
    pool: &[u8],
    out: &mut [u8],
) -> Result<usize, Refusal>
    requires { Held table.now }
    ensures { (rs : List Rule) → Holds table.now rs
        → PrintAnswered (print_rules rs (encoded tokens.now) pool.now out.old) result out.new }
{
    if Book::TOKENS < tokens.len() {
        return Err(Reason::TooManyTokens.at(0));
    }
    let total = measure(table, tokens, pool)?;
    let mut scratch = [0u8; Book::TEXT];
    join_tokens(tokens, pool, &mut scratch);
    read_back(table, tokens, &scratch, total)?;
    output::write(&scratch, 0, total, out)
}

// How many bytes the tokens have, if none is at fault and the bytes are few enough to be written.
fn measure(table: &[u64], tokens: &[TokenRecord], pool: &[u8]) -> Result<usize, Refusal>
    requires held { Held table.now }
    requires few { length tokens.now ≤ max_tokens }
    ensures fits { IfOk result (λ _. EachFits tokens.now) }
    ensures counts { (rs : List Rule) → Holds table.now rs
        → MatchResult result (λ n. Counted rs (encoded tokens.now) pool.now n)
        (λ f. (out : List ℕ)
        → PrintAnswered (print_rules rs (encoded tokens.now) pool.now out) (Err f) out) }
{
    let mut total = 0;
    for (k, token) in tokens.iter().enumerate() {
        match token_len(table, pool, *token) {
            Ok(len) => total += len,
            Err(reason) => return Err(reason.at(k)),
        }
    }
    if Book::TEXT < total {
        return Err(Reason::OutputTooLong.at(0));
    }
    Ok(total)
}

// How many bytes a token has, or the reason that refuses it.
fn token_len(table: &[u64], pool: &[u8], token: TokenRecord) -> Result<usize, Reason>
    requires { Held table.now }
    ensures fits { Fits token }
    ensures counts { (rs : List Rule) → Holds table.now rs
        → MatchResult result (λ n. (n ≡ token.len) × (fault_of rs pool.now token ≡ none))
        (λ reason. fault_of rs pool.now token ≡ some reason) }
{
    match token_list::faults::token_fault(table, pool, token) {
        Some(reason) => Err(reason),
        None => Ok(token.len as usize),
    }
}

// Puts the bytes of the tokens one behind the other, from the start of `out`.
fn join_tokens(tokens: &[TokenRecord], pool: &[u8], out: &mut [u8])
    requires fits { EachFits tokens.now }
    requires fitting { Fitting (encoded tokens.now) pool.now out.old }
    ensures { Joined (join (tokens_of (encoded tokens.now) pool.now)) out.old out.new }
{
    let mut at = 0;
    for token in tokens {
        let len = token.len as usize;
        output::copy(pool, token.place as usize, len, out, at);
        at += len;
    }
}

// Refuses the first token at whose place of the tokens' bytes joined, the first `total` bytes of `text`, another length than its own is
// chosen.
fn read_back(
    table: &[u64],
    tokens: &[TokenRecord],
    text: &[u8],
    total: usize,
) -> Result<(), Refusal>
    requires held { Held table.now }
    requires fits { EachFits tokens.now }
    requires total_in_bounds { total ≤ length text.now }
    ensures { (rs : List Rule) (pool : List ℕ) → Holds table.now rs
        → Faultless rs (encoded tokens.now) pool
        → take total text.now ≡ join (tokens_of (encoded tokens.now) pool)
        → result ≡ checked_of (first_extended rs (tokens_of (encoded tokens.now) pool) 0) }
{
    let mut lengths = [0usize; automaton::RULES];
    let mut at = 0;
    for (k, token) in tokens.iter().enumerate() {
        let len = token.len as usize;
        match longest_match::choose_with(table, text, at, total, &mut lengths) {
            Some(chosen) if chosen.len == len => at += len,
            _ => return Err(Reason::ReadOn.at(k)),
        }
    }
    Ok(())
}

// Where printing stands: the pass, the number of the token to be read, and how many bytes its pass is past; `total` is known
// after the first pass. Where no token is to be read, all have passed, or the call is refused.
#[derive(Clone, Copy)]
pub struct Stage {
    pub more: bool,
    pub pass: u8,
    pub index: usize,
    pub at: usize,
    pub total: usize,
    pub refusal: Option<Refusal>,
}

impl Stage {
    // The passes; the third asks what reads on.
    pub const CHECK: u8 = 0;

    pub const JOIN: u8 = 1;

    pub const READ: u8 = 2;
}

// The first stage of printing `count` tokens by a book; the table is lent empty, and holds the book's rules afterwards.
pub fn begin(book: &[u8], table: &mut [u64; Book::TABLE], count: usize) -> Stage
    requires { Lent (length book.now) table.old }
    ensures { Begins book.now count table.new result }
{
    match reader::load(book, table) {
        Ok(_) => begin_count(count),
        Err(refusal) => refuse(refusal),
    }
}

// The token as it is, whose fields fit their types.
pub fn fitting(token: TokenRecord) -> TokenRecord
    ensures same { result ≡ token }
    ensures fits { Fits result }
{
    token
}

// The stage after token number `stage.index` of `count`.
pub fn step(
    table: &[u64; Book::TABLE],
    scratch: &mut [u8; Book::TEXT],
    pool: &[u8],
    stage: Stage,
    token: TokenRecord,
    count: usize,
) -> Stage
    requires { Steps table.now scratch.old pool.now stage token }
    ensures { Stepped table.now scratch.old scratch.new pool.now stage token count result }
{
    match stage.pass {
        Stage::CHECK => check_token(table, pool, stage, token, count),
        Stage::JOIN => join_token(pool, scratch, stage, token, count),
        _ => read_token(table, scratch, stage, token.len as usize, count),
    }
}

// What is answered when there is no token to be read: the joined bytes are written, or the call is refused.
pub fn finish(scratch: &[u8; Book::TEXT], stage: Stage, out: &mut [u8]) -> Result<usize, Refusal>
    requires { stage.total ≤ length scratch.now }
    ensures { Finishes scratch.now stage out.old result out.new }
{
    match stage.refusal {
        Some(refusal) => Err(refusal),
        None => output::write(scratch, 0, stage.total, out),
    }
}

fn begin_count(count: usize) -> Stage
    ensures { result ≡ begun count }
{
    if Book::TOKENS < count {
        refuse(Reason::TooManyTokens.at(0))
    } else if count == 0 {
        end(0)
    } else {
        go(Stage::CHECK, 0, 0, 0)
    }
}

fn check_token(table: &[u64], pool: &[u8], stage: Stage, token: TokenRecord, count: usize) -> Stage
    requires held { Held table.now }
    requires index_lt_max_tokens { (stage.index < max_tokens) × (stage.at ≤ stage.index * 4294967295) }
    ensures { (rs : List Rule) → Holds table.now rs
        → result ≡ checked (fault_of rs pool.now token) stage token.len count }
{
    match token_len(table, pool, token) {
        Ok(len) => move_on(stage, len, count),
        Err(reason) => refuse(reason.at(stage.index)),
    }
}

fn join_token(
    pool: &[u8],
    scratch: &mut [u8],
    stage: Stage,
    token: TokenRecord,
    count: usize,
) -> Stage
    requires len_in_bounds { (token.place + token.len ≤ length pool.now) × (stage.at + token.len ≤ length scratch.old) }
    requires index_lt_max_tokens { stage.index < max_tokens }
    ensures { (scratch.new ≡ paste scratch.old stage.at (drop token.place pool.now) token.len)
        × (result ≡ moved_on stage token.len count) }
{
    let len = token.len as usize;
    output::copy(pool, token.place as usize, len, scratch, stage.at);
    move_on(stage, len, count)
}

fn read_token(table: &[u64], scratch: &[u8], stage: Stage, len: usize, count: usize) -> Stage
    requires held { Held table.now }
    requires at_le_total { (stage.at ≤ stage.total) × (stage.total ≤ max_text) × (length scratch.now ≡ max_text) }
    requires len_bound { (len < 4294967296) × (stage.index < max_tokens) }
    ensures { (rs : List Rule) → Holds table.now rs
        → Reads rs (take stage.total scratch.now) stage len count result }
{
    let most = match longest_match::choose(table, scratch, stage.at, stage.total) {
        Some(chosen) => chosen.len,
        None => 0,
    };
    if most == len {
        move_on(stage, len, count)
    } else {
        refuse(Reason::ReadOn.at(stage.index))
    }
}

// The stage after a token of `len` bytes that passed.
fn move_on(stage: Stage, len: usize, count: usize) -> Stage
    requires { (stage.index + 1 < 2 ^ 64) × (stage.at + len < 2 ^ 64) }
    ensures { result ≡ moved_on stage len count }
{
    let index = stage.index + 1;
    let at = stage.at + len;
    if index < count {
        return go(stage.pass, index, at, stage.total);
    }
    match stage.pass {
        Stage::CHECK if Book::TEXT < at => refuse(Reason::OutputTooLong.at(0)),
        Stage::CHECK => go(Stage::JOIN, 0, 0, at),
        Stage::JOIN => go(Stage::READ, 0, 0, stage.total),
        _ => end(stage.total),
    }
}

fn go(pass: u8, index: usize, at: usize, total: usize) -> Stage
    ensures { result ≡ going pass index at total }
{
    Stage {
        more: true,
        pass,
        index,
        at,
        total,
        refusal: None,
    }
}

fn end(total: usize) -> Stage
    ensures { result ≡ done total }
{
    Stage {
        more: false,
        pass: 0,
        index: 0,
        at: 0,
        total,
        refusal: None,
    }
}

fn refuse(refusal: Refusal) -> Stage
    ensures { result ≡ refused_stage refusal }
{
    Stage {
        more: false,
        pass: 0,
        index: 0,
        at: 0,
        total: 0,
        refusal: Some(refusal),
    }
}
