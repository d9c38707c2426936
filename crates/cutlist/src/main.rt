// Document 01's program cutlist: cuts text.bin by the rules of book.bin, both of the working folder, and prints a line for
// each token and the rest, or one line for a refusal.
#![tactic(auto)]

ghost use Rattle.std.specs.Prelude.{◌≡◌, ◌≤◌, length, take};

use book::Book;
use listing::{MASK_BYTES, OUTPUT_BYTES, RECORD_BYTES};
use std::io::{Read, Write};
use std::{fs, io};

// The files are read one byte past their limits, so that a longer one is still refused.
const BOOK_BYTES: usize = Book::BYTES + 1;

const TEXT_BYTES: usize = Book::TEXT + 1;

fn main(rt: HostRuntime) -> io::Result<()> {
    let mut book = [0u8; BOOK_BYTES];
    let mut text = [0u8; TEXT_BYTES];
    let mut records = [0u8; RECORD_BYTES];
    let mut masks = [0u8; MASK_BYTES];
    let mut out = [0u8; OUTPUT_BYTES];
    run(
        &rt,
        &mut book,
        &mut text,
        &mut records,
        &mut masks,
        &mut out,
    )
}

fn run(
    rt: &HostRuntime,
    book: &mut [u8; BOOK_BYTES],
    text: &mut [u8; TEXT_BYTES],
    records: &mut [u8; RECORD_BYTES],
    masks: &mut [u8; MASK_BYTES],
    out: &mut [u8; OUTPUT_BYTES],
) -> io::Result<()> {
    print_cut(rt, book, text, records, masks, out)
}

fn print_cut(
    rt: &HostRuntime,
    book: &mut [u8],
    text: &mut [u8],
    records: &mut [u8; RECORD_BYTES],
    masks: &mut [u8; MASK_BYTES],
    out: &mut [u8; OUTPUT_BYTES],
) -> io::Result<()> {
    let b = read_file(rt, "book.bin", book);
    let t = read_file(rt, "text.bin", text);
    let n = listing::list(&book[..b], &text[..t], records, masks, out);
    print_front(rt, out, n)
}

// Prints the first `n` bytes of a buffer.
fn print_front(rt: &HostRuntime, out: &[u8], n: usize) -> io::Result<()>
    requires { n ≤ length out.now }
{
    io::writer(rt).write_all(&out[..n])
}

// Reads a file into `buffer` and answers how many bytes came. One that cannot be opened counts as empty.
fn read_file(rt: &HostRuntime, path: &str, buffer: &mut [u8]) -> usize
    ensures within { result ≤ length buffer.new }
    ensures front { result ≡ length (take result buffer.new) }
{
    match fs::open(rt, path) {
        Ok(mut file) => read_full(&mut file, buffer),
        Err(_) => 0,
    }
}

// Reads until the buffer is full, or no more comes.
fn read_full(file: &mut fs::File, buffer: &mut [u8]) -> usize
    ensures within { result ≤ length buffer.new }
    ensures front { result ≡ length (take result buffer.new) }
{
    let mut done = 0;
    while done < buffer.len() {
        match file.read(&mut buffer[done..]) {
            Ok(0) => break,
            Ok(n) => done += n,
            Err(_) => break,
        }
    }
    done
}
