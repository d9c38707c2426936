// The functions of `zagvulem` as a C program links them, under their own names. include/zagvulem.h declares them.
#![tactic(auto)]

ghost use Rattle.std.specs.Prelude.{◌≡◌};
ghost use Rattle.reader.specs.Reading.{read_book, read_strict, answer};
ghost use Rattle.book_reader.specs.Rules.{rule_outcome};
ghost use Rattle.rewriting.specs.Outcome.{rewrite_outcome};
ghost use Rattle.expression_rule.specs.Outcome.{compile_outcome};
ghost use Rattle.lexer.specs.Masked.{masked_outcome};
ghost use Rattle.turns.specs.Outcome.{turn_outcome};
ghost use Rattle.builtin.specs.Book.{builtin_bytes};
ghost use Rattle.printer.specs.Outcome.{print_outcome};
ghost use Rattle.separated.specs.Outcome.{separated_outcome};
ghost use Rattle.answer_word.specs.Words.{book_word, rule_word, lex_word, turn_word, next_after, examined_after, print_word};
ghost use Rattle.zagvulem.specs.Separator.{separator};

#[unsafe(no_mangle)]
pub extern "C" fn zgv_read_book(book: &[u8]) -> u64
    ensures { result ≡ book_word (answer (read_book book.now)) }
{
    zagvulem::zgv_read_book(book)
}

#[unsafe(no_mangle)]
pub extern "C" fn zgv_read_book_strict(book: &[u8]) -> u64
    ensures { result ≡ book_word (answer (read_strict book.now)) }
{
    zagvulem::zgv_read_book_strict(book)
}

#[unsafe(no_mangle)]
pub extern "C" fn zgv_rewrite_book(book: &[u8], out: &mut [u8]) -> u64
    ensures value { result ≡ print_word (rewrite_outcome book.now out.old).answer }
    ensures out_after { out.new ≡ (rewrite_outcome book.now out.old).out }
{
    zagvulem::zgv_rewrite_book(book, out)
}

#[unsafe(no_mangle)]
pub extern "C" fn zgv_compile(tag: u16, kind: u32, regex: &[u8], out: &mut [u8]) -> u64
    ensures value { result ≡ print_word (compile_outcome tag kind regex.now out.old).answer }
    ensures out_after { out.new ≡ (compile_outcome tag kind regex.now out.old).out }
{
    zagvulem::zgv_compile(tag, kind, regex, out)
}

#[unsafe(no_mangle)]
pub extern "C" fn zgv_rule(book: &[u8], index: u32) -> u64
    ensures { result ≡ rule_word (rule_outcome book.now index) }
{
    zagvulem::zgv_rule(book, index)
}

#[unsafe(no_mangle)]
pub extern "C" fn zgv_lex(book: &[u8], text: &[u8], records: &mut [u8], masks: &mut [u8]) -> u64
    ensures value { result
        ≡ lex_word (masked_outcome book.now text.now records.old masks.old).answer }
    ensures records_after { records.new
        ≡ (masked_outcome book.now text.now records.old masks.old).records }
    ensures masks_after { masks.new
        ≡ (masked_outcome book.now text.now records.old masks.old).masks }
{
    zagvulem::zgv_lex(book, text, records, masks)
}

#[unsafe(no_mangle)]
pub extern "C" fn zgv_lex_builtin(text: &[u8], records: &mut [u8], masks: &mut [u8]) -> u64
    ensures value { result ≡ lex_word (masked_outcome builtin_bytes text.now records.old masks.old).answer }
    ensures records_after { records.new
        ≡ (masked_outcome builtin_bytes text.now records.old masks.old).records }
    ensures masks_after { masks.new
        ≡ (masked_outcome builtin_bytes text.now records.old masks.old).masks }
{
    zagvulem::zgv_lex_builtin(text, records, masks)
}

#[unsafe(no_mangle)]
pub extern "C" fn zgv_lex_within(
    book: &[u8],
    text: &[u8],
    place: usize,
    budget: u64,
    records: &mut [u8],
    masks: &mut [u8],
    next: &mut u64,
    examined: &mut u64,
) -> u64
    ensures value { result
        ≡ turn_word
        (turn_outcome book.now text.now place budget records.old masks.old).answer }
    ensures records_after { records.new
        ≡ (turn_outcome book.now text.now place budget records.old masks.old).records }
    ensures masks_after { masks.new
        ≡ (turn_outcome book.now text.now place budget records.old masks.old).masks }
    ensures next_after { next.new
        ≡ next_after (turn_outcome book.now text.now place budget records.old masks.old).answer
        next.old }
    ensures examined_after { examined.new
        ≡ examined_after
        (turn_outcome book.now text.now place budget records.old masks.old).answer
        examined.old }
{
    zagvulem::zgv_lex_within(book, text, place, budget, records, masks, next, examined)
}

#[unsafe(no_mangle)]
pub extern "C" fn zgv_print(book: &[u8], records: &[u8], pool: &[u8], out: &mut [u8]) -> u64
    ensures value { result
        ≡ print_word (print_outcome book.now records.now pool.now out.old).answer }
    ensures out_after { out.new
        ≡ (print_outcome book.now records.now pool.now out.old).out }
{
    zagvulem::zgv_print(book, records, pool, out)
}

#[unsafe(no_mangle)]
pub extern "C" fn zgv_print_separated(
    book: &[u8],
    separator_tag: u16,
    separator_place: u32,
    separator_length: u32,
    mode: u32,
    records: &[u8],
    pool: &[u8],
    out: &mut [u8],
) -> u64
    ensures value { result
        ≡ print_word (separated_outcome book.now (separator separator_tag separator_place separator_length) mode
        records.now pool.now out.old).answer }
    ensures out_after { out.new
        ≡ (separated_outcome book.now (separator separator_tag separator_place separator_length) mode
        records.now pool.now out.old).out }
{
    zagvulem::zgv_print_separated(
        book,
        separator_tag,
        separator_place,
        separator_length,
        mode,
        records,
        pool,
        out,
    )
}
