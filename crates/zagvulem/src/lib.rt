// The library as C calls it: numbers and byte slices, each answer in 64 bits, which `answer_word` puts together.
// Crate `zagvulem_c` exports these functions to C, and include/zagvulem.h declares them.
#![tactic(auto)]

ghost use Rattle.std.specs.Prelude.{◌≡◌};
ghost use Rattle.reader.specs.Reading.{read_book, read_strict, answer};
ghost use Rattle.book_reader.specs.Rules.{rule_outcome};
ghost use Rattle.rewriting.specs.Outcome.{rewrite_outcome};
ghost use Rattle.expression_rule.specs.Outcome.{compile_outcome};
ghost use Rattle.lexer.specs.Masked.{masked_outcome};
ghost use Rattle.turns.specs.Outcome.{turn_outcome};
ghost use Rattle.builtin.specs.Book.{builtin_bytes};
ghost use Rattle.printer.specs.Outcome.{print_outcome};
ghost use Rattle.separated.specs.Outcome.{separated_outcome};
ghost use Rattle.answer_word.specs.Words.{book_word, rule_word, lex_word, turn_word, next_after, examined_after, print_word};
ghost use Rattle.zagvulem.specs.Separator.{separator};

use record::TokenRecord;

// Reads a book: the number of its rules and 0, or the refusal.
pub fn zgv_read_book(book: &[u8]) -> u64
    ensures { result ≡ book_word (answer (read_book book.now)) }
{
    answer_word::counted(book_reader::read(book))
}

// The stricter reading, which refuses STEP: as `zgv_read_book`, with 33 directly after 3.
pub fn zgv_read_book_strict(book: &[u8]) -> u64
    ensures { result ≡ book_word (answer (read_strict book.now)) }
{
    answer_word::counted(book_reader::read_strict(book))
}

// Rewrites an old book, a SPAN in each STEP's place: the number of bytes and 0, or the refusal.
pub fn zgv_rewrite_book(book: &[u8], out: &mut [u8]) -> u64
    ensures value { result ≡ print_word (rewrite_outcome book.now out.old).answer }
    ensures out_after { out.new ≡ (rewrite_outcome book.now out.old).out }
{
    answer_word::counted(rewriting::rewrite(book, out))
}

// Makes a rule of an expression, of this tag and kind: the number of bytes of its commands and 0, or the refusal.
pub fn zgv_compile(tag: u16, kind: u32, regex: &[u8], out: &mut [u8]) -> u64
    ensures value { result ≡ print_word (compile_outcome tag kind regex.now out.old).answer }
    ensures out_after { out.new ≡ (compile_outcome tag kind regex.now out.old).out }
{
    answer_word::counted(expression_rule::compile(tag, kind, regex, out))
}

// The tag and the kind of a rule of a book by its number, from 0, or the refusal.
pub fn zgv_rule(book: &[u8], index: u32) -> u64
    ensures { result ≡ rule_word (rule_outcome book.now index) }
{
    answer_word::ruled(book_reader::rule(book, index as usize))
}

// Lexes a text by a book: the number of tokens and the place of the rest, or the refusal.
pub fn zgv_lex(book: &[u8], text: &[u8], records: &mut [u8], masks: &mut [u8]) -> u64
    ensures value { result
        ≡ lex_word (masked_outcome book.now text.now records.old masks.old).answer }
    ensures records_after { records.new
        ≡ (masked_outcome book.now text.now records.old masks.old).records }
    ensures masks_after { masks.new
        ≡ (masked_outcome book.now text.now records.old masks.old).masks }
{
    answer_word::lexed(book_lexer::lex(book, text, records, masks))
}

// Lexes a text by the built-in book, through its byte classes: as `zgv_lex` with the book's command bytes.
pub fn zgv_lex_builtin(text: &[u8], records: &mut [u8], masks: &mut [u8]) -> u64
    ensures value { result ≡ lex_word (masked_outcome builtin_bytes text.now records.old masks.old).answer }
    ensures records_after { records.new
        ≡ (masked_outcome builtin_bytes text.now records.old masks.old).records }
    ensures masks_after { masks.new
        ≡ (masked_outcome builtin_bytes text.now records.old masks.old).masks }
{
    answer_word::lexed(builtin::lex_builtin(text, records, masks))
}

// Lexes a text in turns: from `place` on while the next reach fits what is left of `budget`. The number of tokens and whether the turn is
// finished (1, else 0), with the next place and the bytes examined in the two numbers that are lent; or the refusal, which leaves them.
pub fn zgv_lex_within(
    book: &[u8],
    text: &[u8],
    place: usize,
    budget: u64,
    records: &mut [u8],
    masks: &mut [u8],
    next: &mut u64,
    examined: &mut u64,
) -> u64
    ensures value { result
        ≡ turn_word
        (turn_outcome book.now text.now place budget records.old masks.old).answer }
    ensures records_after { records.new
        ≡ (turn_outcome book.now text.now place budget records.old masks.old).records }
    ensures masks_after { masks.new
        ≡ (turn_outcome book.now text.now place budget records.old masks.old).masks }
    ensures next_after { next.new
        ≡ next_after (turn_outcome book.now text.now place budget records.old masks.old).answer
        next.old }
    ensures examined_after { examined.new
        ≡ examined_after
        (turn_outcome book.now text.now place budget records.old masks.old).answer
        examined.old }
{
    let answer = book_turns::lex_within(book, text, place, budget as usize, records, masks);
    answer_word::put_numbers(answer, next, examined);
    answer_word::turned(answer)
}

// Prints the tokens that the records say with a pool: the number of bytes and 0, or the refusal.
pub fn zgv_print(book: &[u8], records: &[u8], pool: &[u8], out: &mut [u8]) -> u64
    ensures value { result
        ≡ print_word (print_outcome book.now records.now pool.now out.old).answer }
    ensures out_after { out.new
        ≡ (print_outcome book.now records.now pool.now out.old).out }
{
    answer_word::counted(book_printer::print(book, records, pool, out))
}

// Prints the tokens with a separator token between them: the number of bytes and 0, or the refusal.
pub fn zgv_print_separated(
    book: &[u8],
    separator_tag: u16,
    separator_place: u32,
    separator_length: u32,
    mode: u32,
    records: &[u8],
    pool: &[u8],
    out: &mut [u8],
) -> u64
    ensures value { result
        ≡ print_word (separated_outcome book.now (separator separator_tag separator_place separator_length) mode
        records.now pool.now out.old).answer }
    ensures out_after { out.new
        ≡ (separated_outcome book.now (separator separator_tag separator_place separator_length) mode
        records.now pool.now out.old).out }
{
    let token = TokenRecord {
        tag: separator_tag,
        place: separator_place,
        len: separator_length,
    };
    answer_word::counted(book_separated::print_separated(book, token, mode, records, pool, out))
}
