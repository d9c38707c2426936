// Reading with a table of the size that the book needs, as `book_lexer` has them for cutting (docs/DECISIONS.md, "Sizes by need").
ghost use Rattle.std.specs.Prelude.{length};
ghost use Rattle.reader.specs.Layers.{Suits};
ghost use Rattle.book_reader.specs.Layers.{Inspects};

use crate::Inspected;

pub fn inspect(strict: bool, book: &[u8], index: usize) -> Inspected
    ensures { Inspects strict book.now index result }
{
    match book.len() {
        0..=1024 => inspect_in::<322>(strict, book, index),
        1025..=2048 => inspect_in::<578>(strict, book, index),
        2049..=4096 => inspect_in::<1090>(strict, book, index),
        4097..=8192 => inspect_in::<2114>(strict, book, index),
        8193..=16384 => inspect_in::<4162>(strict, book, index),
        16385..=32768 => inspect_in::<8258>(strict, book, index),
        _ => inspect_in::<16450>(strict, book, index),
    }
}

// With a table of so many words.
#[inline(never)]
fn inspect_in<const WORDS: usize>(strict: bool, book: &[u8], index: usize) -> Inspected
    requires { Suits (length book.now) WORDS }
    ensures { Inspects strict book.now index result }
{
    let mut table = [0u64; WORDS];
    crate::inspect_with(strict, book, &mut table, index)
}
