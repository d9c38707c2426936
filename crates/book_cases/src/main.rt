// Runs the book reader over the cases of standard input, the examples and edges of document 01, and prints what it answers, a
// line for each book.
#![tactic(auto)]

use answer::Refusal;
use std::io;
use std::io::{Read, Write};

fn main(rt: HostRuntime) -> io::Result<()> {
    let mut room = [0u8; 80000];
    run(&rt, &mut room)
}

fn run(rt: &HostRuntime, room: &mut [u8; 80000]) -> io::Result<()> {
    let text = read(rt, room);
    cases(rt, room, text)
}

// Reads standard input to the front of `room` and ends its last line; where the text ends.
fn read(rt: &HostRuntime, room: &mut [u8]) -> usize {
    let text = read_full(rt, room);
    put(room, text, b'\n')
}

// Reads until the room is full, or no more comes.
fn read_full(rt: &HostRuntime, room: &mut [u8]) -> usize {
    let mut input = rt.stdin();
    let mut done = 0;
    while done < room.len() {
        match input.read(&mut room[done..]) {
            Ok(0) => break,
            Ok(n) => done += n,
            Err(_) => break,
        }
    }
    done
}

// The books are made behind the text, each in the place of the one before, which ends at `book`.
fn cases(rt: &HostRuntime, room: &mut [u8], text: usize) -> io::Result<()> {
    let mut start = 0;
    let mut book = text;
    for i in 0..text {
        if get(room, i) == b'\n' {
            book = line(rt, room, start, i, text, book)?;
            start = i + 1;
        }
    }
    Ok(())
}

// Answers where the last book ends, 0 where the line has none.
fn line(
    rt: &HostRuntime,
    room: &mut [u8],
    start: usize,
    end: usize,
    text: usize,
    book: usize,
) -> io::Result<usize> {
    let first = get(room, start);
    if first == b'#' || first == b'\n' {
        return Ok(book);
    }
    let mark = find_mark(room, start, end);
    write_name(rt, room, start, mark)?;
    let to = make(room, mark, end, text, book);
    answer(rt, room, text, to)?;
    Ok(to)
}

// The place of the first mark, or `end`.
fn find_mark(room: &[u8], start: usize, end: usize) -> usize {
    for i in start..end {
        if is_mark(get(room, i)) {
            return i;
        }
    }
    end
}

fn is_mark(byte: u8) -> bool {
    byte == b'=' || byte == b'+' || byte == b'*'
}

// The book of a line: = has its bytes, + those behind the book before, * names what it repeats.
fn make(room: &mut [u8], mark: usize, end: usize, text: usize, book: usize) -> usize {
    let kind = get(room, mark);
    let to = decode(room, mark, end, if kind == b'+' { book } else { text });
    if kind == b'*' {
        repeat(room, text, to)
    } else {
        to
    }
}

// Stores from `book` on the bytes that stand behind a mark as a blank and two hexadecimal digits each; where they end, or 0
// where other characters stand there.
fn decode(room: &mut [u8], mark: usize, end: usize, book: usize) -> usize {
    let mut to = book;
    let mut digits = MARK;
    for i in mark..end {
        digits = next_digits(digits, get(room, i));
        if digits >= BYTE {
            to = put(room, to, (digits % 256) as u8);
            digits = 0;
        }
    }
    if digits == 0 { to } else { 0 }
}

// The digits of a byte behind a 1: 1 after the blank, 1h after a digit, 1hh after both.
const BYTE: u16 = 256;

// Once a character came that cannot stand there.
const OTHER: u16 = 32;

const MARK: u16 = 33;

fn next_digits(digits: u16, byte: u8) -> u16 {
    if digits == MARK {
        return 0;
    }
    if digits == 0 {
        return if byte == b' ' { 1 } else { OTHER };
    }
    if digits < OTHER {
        let digit = hex_value(byte);
        if digit < 16 {
            return digits * 16 + digit;
        }
    }
    OTHER
}

// 16 where it is no digit.
fn hex_value(byte: u8) -> u16 {
    match byte {
        b'0'..=b'9' => (byte - b'0') as u16,
        b'a'..=b'f' => (byte - b'a' + 10) as u16,
        _ => 16,
    }
}

// The book that the three bytes at text..to name, in their place; where it ends, or 0 where there are not three.
fn repeat(room: &mut [u8], text: usize, to: usize) -> usize {
    if to < text {
        return 0;
    }
    if to - text != 3 {
        return 0;
    }
    let command = get(room, text);
    let size = book_size(command, get(room, text + 1), get(room, text + 2));
    fill(room, text, command, size)
}

fn book_size(command: u8, high: u8, low: u8) -> u64 {
    let count = high as u64 * 256 + low as u64;
    match command {
        1 => 9 * count + 1,
        5 => 4 * count + 10,
        _ => 2 * count + 10,
    }
}

fn fill(room: &mut [u8], text: usize, command: u8, size: u64) -> usize {
    let mut to = text;
    for i in 0..size {
        to = put(room, to, book_byte(command, i, size - i));
    }
    to
}

// The byte with `i` before it and `left` from it on.
fn book_byte(command: u8, i: u64, left: u64) -> u8 {
    if left == 1 {
        return 8;
    }
    if left == 2 {
        return 7;
    }
    if command == 1 {
        return rule_byte(i % 9, i / 9);
    }
    if i < 8 {
        return rule_byte(i, 0);
    }
    if command == 5 {
        return step_byte(i - 8);
    }
    if i % 2 == 0 { command } else { 1 }
}

// RULE number `rule`, START 0, ERROR 99, CLOSE.
fn rule_byte(i: u64, rule: u64) -> u8 {
    match i {
        0 => 1,
        2 => (rule % 64) as u8 + 1,
        4 => 2,
        6 => 3,
        7 => 99,
        8 => 7,
        _ => 0,
    }
}

// STEPs on each byte from state 0, then from 1, and so on, to state 1.
fn step_byte(i: u64) -> u8 {
    match i % 4 {
        0 => 5,
        1 => (i / 1024 % 256) as u8,
        2 => (i / 4 % 256) as u8,
        _ => 1,
    }
}

// A byte, or 0 behind the last.
fn get(room: &[u8], at: usize) -> u8 {
    if at < room.len() { room[at] } else { 0 }
}

// Stores a byte where there is room; the next place.
fn put(room: &mut [u8], at: usize, byte: u8) -> usize {
    if at < room.len() {
        room[at] = byte;
        return at + 1;
    }
    at
}

// A name ends a blank before its mark.
fn write_name(rt: &HostRuntime, room: &[u8], start: usize, mark: usize) -> io::Result<()> {
    if mark > room.len() {
        return Ok(());
    }
    if start < mark {
        return io::writer(rt).write_all(&room[start..mark - 1]);
    }
    Ok(())
}

fn answer(rt: &HostRuntime, room: &[u8], from: usize, to: usize) -> io::Result<()> {
    if to > room.len() {
        return Ok(());
    }
    if from > to {
        return println!(rt; ": not a case");
    }
    print(rt, book_reader::read(&room[from..to]))
}

fn print(rt: &HostRuntime, answer: Result<usize, Refusal>) -> io::Result<()> {
    match answer {
        Ok(rules) => println!(rt; ": accepted {rules}"),
        Err(refusal) => println!(rt; ": {refusal}"),
    }
}
