// Lexing into and printing from a slice of token structs, for callers inside the server; lexing fills a slice of masks beside it.
// `lexing` and `printing` go by the rules that a table holds, and offer the same token by token.
#![tactic(auto)]

pub mod lexing;
pub mod printing;

ghost use Rattle.std.specs.Prelude.{◌≡◌};
ghost use Rattle.record.specs.Encoding.{encoded};
ghost use Rattle.record.specs.Masks.{mask_bytes};
ghost use Rattle.lexer.specs.Masked.{masked_outcome};
ghost use Rattle.printer.specs.Outcome.{print_outcome};

use answer::{Cut, Refusal};
use book::Book;
use record::TokenRecord;

// Cuts `text` by the rules of a book, as `book_lexer::lex` does, into tokens of a slice: the number of tokens and the
// place of the rest, or the refusal of document 01. Each token has a mask at its number in `masks`: bit k is set where rule number k
// of the book matches just its bytes. Tokens and masks past the count stay as they were; 15 is also said where the masks are too few.
pub fn lex_tokens(
    book: &[u8],
    text: &[u8],
    tokens: &mut [TokenRecord],
    masks: &mut [u32],
) -> Result<Cut, Refusal>
    ensures { (result
        ≡ (masked_outcome book.now text.now (encoded tokens.old) (mask_bytes masks.old)).answer)
        × (encoded tokens.new
        ≡ (masked_outcome book.now text.now (encoded tokens.old) (mask_bytes masks.old)).records)
        × (mask_bytes masks.new
        ≡ (masked_outcome book.now text.now (encoded tokens.old) (mask_bytes masks.old)).masks) }
{
    let mut table = [0u64; Book::TABLE];
    reader::load(book, &mut table)?;
    lexing::lex_rules(&table, text, tokens, masks)
}

// Prints tokens whose bytes lie in `pool`, as `book_printer::print` does: the number of bytes, which stand at the start of `out`, or
// the refusal of document 01. Every other byte of `out` stays as it was.
pub fn print_tokens(
    book: &[u8],
    tokens: &[TokenRecord],
    pool: &[u8],
    out: &mut [u8],
) -> Result<usize, Refusal>
    ensures { (result ≡ (print_outcome book.now (encoded tokens.now) pool.now out.old).answer)
        × (out.new
        ≡ (print_outcome book.now (encoded tokens.now) pool.now out.old).out) }
{
    let mut table = [0u64; Book::TABLE];
    reader::load(book, &mut table)?;
    printing::print_rules(&table, tokens, pool, out)
}
