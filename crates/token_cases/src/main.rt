// Runs `slices::lex_tokens`, `slices::print_tokens` and `book_lexer::rest` on examples and edges of document 01, and prints what they answer
// and what stands in the tokens, in the masks and in the output afterwards.
#![tactic(auto)]

ghost use Rattle.std.specs.Prelude.{◌≤◌};

use answer::{Cut, Refusal};
use record::TokenRecord;
use std::io;
use std::io::Write;

// A byte more than a text may have.
const LONG: usize = 65537;

// Books A and B of document 01, a rule to a line; 9 is the error state of each. Book C has "if", words, "s" and a space: "if" and "s" are
// words too, so that "if" hides words and words hide "s".
fn main(rt: HostRuntime) -> io::Result<()> {
    let a =
        b"\x01\x00\x01\x00\x02\x00\x03\x09\x04\x01\x04\x03\x05\x00a\x01\x05\x01b\x02\x05\x02c\x03\x07\
        \x01\x00\x02\x00\x02\x00\x03\x09\x04\x01\x05\x00b\x01\x07\
        \x01\x00\x03\x00\x02\x00\x03\x09\x04\x01\x05\x00c\x01\x07\
        \x01\x00\x04\x01\x02\x00\x03\x09\x04\x01\x05\x00 \x01\x05\x01 \x01\x07\
        \x08";
    lex_by_a(&rt, a)?;
    print_by_a(&rt, a)?;
    let b = b"\x01\x00\x01\x00\x02\x00\x03\x09\x04\x01\x04\x02\x05\x00a\x01\x05\x01b\x02\x07\
        \x01\x00\x02\x00\x02\x00\x03\x09\x04\x02\x05\x00b\x01\x05\x01c\x02\x07\
        \x08";
    by_b(&rt, b)?;
    let c = b"\x01\x00\x01\x00\x02\x00\x03\x09\x04\x02\x06\x00ii\x01\x06\x01ff\x02\x07\
        \x01\x00\x02\x00\x02\x00\x03\x09\x04\x01\x06\x00az\x01\x06\x01az\x01\x07\
        \x01\x00\x03\x00\x02\x00\x03\x09\x04\x01\x06\x00ss\x01\x07\
        \x01\x00\x04\x01\x02\x00\x03\x09\x04\x01\x06\x00  \x01\x07\
        \x08";
    by_c(&rt, c)?;
    by_none(&rt, b"")
}

fn lex_by_a(rt: &HostRuntime, book: &[u8]) -> io::Result<()> {
    put(rt, b"book A\n")?;
    lex(rt, book, b"")?;
    lex(rt, book, b"abc")?;
    lex(rt, book, b"ab")?;
    lex(rt, book, b"abd")?;
    lex(rt, book, b"a  c")?;
    lex(rt, book, b"d")?;
    lex(rt, book, b"a  c!b")?;
    lex(rt, book, b"cccc")?;
    lex(rt, book, b"ccccc")?;
    lex_long(rt, book, &[b' '; LONG])?;
    lex_few(rt, book)
}

// Masks that are just enough for two tokens, and that are too few.
fn lex_few(rt: &HostRuntime, book: &[u8]) -> io::Result<()> {
    lex_to(rt, book, b"ab", &mut [90, 91])?;
    lex_to(rt, book, b"ab", &mut [90])?;
    lex_to(rt, book, b"", &mut [])
}

fn print_by_a(rt: &HostRuntime, book: &[u8]) -> io::Result<()> {
    let a = token(1, 0, 1);
    let b = token(2, 1, 1);
    let c = token(3, 2, 1);
    print(rt, b"c b a", book, [c, b, a, a], 3)?;
    print(rt, b"b c b a", book, [b, c, b, a], 4)?;
    print(rt, b"a b", book, [a, b, c, a], 2)?;
    print(rt, b"a b c", book, [a, b, c, a], 3)?;
    print(rt, b"nothing", book, [a, b, c, a], 0)?;
    print_short(rt, book, [c, b, a, a], [a, b, c, a])?;
    print_faults(rt, book, c)
}

// Outputs that just hold three bytes, and that do not.
fn print_short(
    rt: &HostRuntime,
    book: &[u8],
    cba: [TokenRecord; 4],
    abc: [TokenRecord; 4],
) -> io::Result<()> {
    print_to(rt, b"c b a", book, cba, 3, &mut [b'.'; 3])?;
    print_to(rt, b"c b a", book, cba, 3, &mut [b'.'; 2])?;
    print_to(rt, b"a b c", book, abc, 3, &mut [b'.'; 2])
}

// Faults of a token behind c: its tag, its bytes, its place.
fn print_faults(rt: &HostRuntime, book: &[u8], c: TokenRecord) -> io::Result<()> {
    print(rt, b"c and tag 5", book, [c, token(5, 0, 1), c, c], 2)?;
    print(rt, b"c and b as tag 1", book, [c, token(1, 1, 1), c, c], 2)?;
    print(rt, b"c and b past abc", book, [c, token(2, 3, 1), c, c], 2)
}

fn by_b(rt: &HostRuntime, book: &[u8]) -> io::Result<()> {
    let a = token(1, 0, 1);
    let bc = token(2, 1, 2);
    put(rt, b"book B\n")?;
    lex(rt, book, b"abc")?;
    print(rt, b"a bc", book, [a, bc, a, a], 2)?;
    print(rt, b"bc a", book, [bc, a, a, a], 2)
}

fn by_c(rt: &HostRuntime, book: &[u8]) -> io::Result<()> {
    put(rt, b"book C\n")?;
    lex(rt, book, b"if")?;
    lex(rt, book, b"s")?;
    lex(rt, book, b"if s")?;
    lex(rt, book, b"s ifs")
}

fn by_none(rt: &HostRuntime, book: &[u8]) -> io::Result<()> {
    put(rt, b"no book\n")?;
    lex(rt, book, b"abc")?;
    print(rt, b"nothing", book, marks(), 0)
}

fn token(tag: u16, place: u32, len: u32) -> TokenRecord {
    TokenRecord { tag, place, len }
}

// Four tokens that no text gives.
fn marks() -> [TokenRecord; 4] {
    [
        token(90, 0, 0),
        token(91, 0, 0),
        token(92, 0, 0),
        token(93, 0, 0),
    ]
}

// With four masks that no text gives by these books.
fn lex(rt: &HostRuntime, book: &[u8], text: &[u8]) -> io::Result<()> {
    lex_to(rt, book, text, &mut [90, 91, 92, 93])
}

fn lex_to(rt: &HostRuntime, book: &[u8], text: &[u8], masks: &mut [u32]) -> io::Result<()> {
    let filled = lex_into(book, text, marks(), masks);
    put(rt, b"lex ")?;
    put_text(rt, text)?;
    let answer = filled.answer;
    put_lexed(rt, answer)?;
    let tokens = filled.tokens;
    put_tokens(rt, tokens)?;
    put_masks(rt, masks)?;
    put_rest(rt, text.len(), book_lexer::rest(book, text))
}

fn lex_long(rt: &HostRuntime, book: &[u8], text: &[u8; LONG]) -> io::Result<()> {
    lex(rt, book, text)
}

// Prints the first `count` tokens, whose bytes lie in "abc".
fn print(
    rt: &HostRuntime,
    name: &[u8],
    book: &[u8],
    tokens: [TokenRecord; 4],
    count: usize,
) -> io::Result<()>
    requires { count ≤ 4 }
{
    print_to(rt, name, book, tokens, count, &mut [b'.'; 8])
}

fn print_to(
    rt: &HostRuntime,
    name: &[u8],
    book: &[u8],
    tokens: [TokenRecord; 4],
    count: usize,
    out: &mut [u8],
) -> io::Result<()>
    requires { count ≤ 4 }
{
    let answer = print_from(book, tokens, count, b"abc", out);
    put(rt, b"print ")?;
    put(rt, name)?;
    put_printed(rt, answer)?;
    put(rt, b"  ")?;
    put_text(rt, out)?;
    put(rt, b"\n")
}

// Arrays of tokens by value, lent as slices to the pair of crate slices.

// What `lex_tokens` answers, and the tokens as it leaves them.
#[derive(Clone, Copy)]
struct Filled {
    answer: Result<Cut, Refusal>,
    tokens: [TokenRecord; 4],
}

fn lex_into(book: &[u8], text: &[u8], mut tokens: [TokenRecord; 4], masks: &mut [u32]) -> Filled {
    let answer = slices::lex_tokens(book, text, &mut tokens, masks);
    Filled { answer, tokens }
}

// Prints the first `count` tokens.
fn print_from(
    book: &[u8],
    tokens: [TokenRecord; 4],
    count: usize,
    pool: &[u8],
    out: &mut [u8],
) -> Result<usize, Refusal>
    requires { count ≤ 4 }
{
    slices::print_tokens(book, &tokens[..count], pool, out)
}

// Lines on standard output.

fn put(rt: &HostRuntime, bytes: &[u8]) -> io::Result<()> {
    io::writer(rt).write_all(bytes)
}

fn put_number(rt: &HostRuntime, before: &[u8], n: u64) -> io::Result<()> {
    put(rt, before)?;
    print!(rt; "{n}")
}

// A short text in quotes, of a long one the number of its bytes.
fn put_text(rt: &HostRuntime, text: &[u8]) -> io::Result<()> {
    if text.len() > 16 {
        put_number(rt, b"", text.len() as u64)?;
        return put(rt, b" bytes");
    }
    put(rt, b"\"")?;
    put(rt, text)?;
    put(rt, b"\"")
}

fn put_lexed(rt: &HostRuntime, answer: Result<Cut, Refusal>) -> io::Result<()> {
    match answer {
        Ok(cut) => {
            let tokens = cut.tokens;
            let rest = cut.rest;
            print!(rt; ": tokens {tokens}, rest at {rest}")?;
        }
        Err(refusal) => print!(rt; ": {refusal}")?,
    }
    put(rt, b"\n")
}

fn put_printed(rt: &HostRuntime, answer: Result<usize, Refusal>) -> io::Result<()> {
    match answer {
        Ok(bytes) => put_number(rt, b": bytes ", bytes as u64)?,
        Err(refusal) => print!(rt; ": {refusal}")?,
    }
    put(rt, b"\n")
}

// Tag, place and length of each.
fn put_tokens(rt: &HostRuntime, tokens: [TokenRecord; 4]) -> io::Result<()> {
    put_token(rt, b" ", tokens[0])?;
    put_token(rt, b",", tokens[1])?;
    put_token(rt, b",", tokens[2])?;
    put_token(rt, b",", tokens[3])?;
    put(rt, b"\n")
}

fn put_token(rt: &HostRuntime, before: &[u8], token: TokenRecord) -> io::Result<()> {
    put(rt, before)?;
    put_number(rt, b" ", token.tag as u64)?;
    put_number(rt, b" ", token.place as u64)?;
    put_number(rt, b" ", token.len as u64)
}

fn put_masks(rt: &HostRuntime, masks: &[u32]) -> io::Result<()> {
    put(rt, b"  masks")?;
    for mask in masks {
        print!(rt; " {mask}")?;
    }
    put(rt, b"\n")
}

// The rest of a text of `whole` bytes.
fn put_rest(rt: &HostRuntime, whole: usize, rest: &[u8]) -> io::Result<()> {
    if rest.len() <= whole {
        put_number(rt, b"  rest at ", (whole - rest.len()) as u64)?;
        put(rt, b": ")?;
        put_text(rt, rest)?;
        put(rt, b"\n")?;
    }
    Ok(())
}
