// The texts of the sessions, and lines of a log.
use std::io;

// Puts a byte at a place, if the buffer reaches so far; the answer is the next place.
fn put_byte(buf: &mut [u8], at: usize, b: u8) -> usize {
    if at < buf.len() {
        buf[at] = b;
        return at + 1;
    }
    at
}

// Puts a word at a place.
fn put_word(buf: &mut [u8], at: usize, word: &[u8]) -> usize {
    let mut next = at;
    for b in word {
        next = put_byte(buf, next, *b);
    }
    next
}

// Puts a number in decimal at a place.
fn put_number(buf: &mut [u8], at: usize, n: u32) -> usize {
    let mut digits = [0u8; 20];
    let k = text::put_number(&mut digits, 0, n);
    put_word(buf, at, &digits[..k])
}

// Puts the clause 1..size.
fn put_clause(buf: &mut [u8], at: usize, size: u32) -> usize {
    let mut next = at;
    for l in 1..=size {
        next = put_number(buf, next, l);
        next = put_byte(buf, next, 32);
    }
    put_word(buf, next, b"0\n")
}

// Puts the clause -l twice.
fn put_twice(buf: &mut [u8], at: usize, l: u32) -> usize {
    let a = put_byte(buf, at, 45);
    let b = put_number(buf, a, l);
    let c = put_word(buf, b, b" 0\n-");
    let d = put_number(buf, c, l);
    put_word(buf, d, b" 0\n")
}

// Puts the clauses -1..-size, each twice: none of them is unique, and no literal is pure.
fn put_negations(buf: &mut [u8], at: usize, size: u32) -> usize {
    let mut next = at;
    for l in 1..=size {
        next = put_twice(buf, next, l);
    }
    next
}

// Puts a formula whose only unique literal clause has a size; the answer is its length.
pub fn put_unique(buf: &mut [u8], size: u8) -> usize {
    let k = size as u32;
    let a = put_word(buf, 0, b"p cnf ");
    let b = put_number(buf, a, k);
    let c = put_byte(buf, b, 32);
    let d = put_number(buf, c, 2 * k + 1);
    let e = put_byte(buf, d, 10);
    let f = put_clause(buf, e, k);
    put_negations(buf, f, k)
}

// How many lines are left after a byte.
fn left_after(b: u8, left: usize) -> usize {
    if left == 0 {
        return 0;
    }
    if b == 10 {
        return left - 1;
    }
    left
}

// The place past some lines.
pub fn past_lines(text: &[u8], lines: usize) -> usize {
    let mut left = lines;
    for (at, b) in text.iter().enumerate() {
        if left == 0 {
            return at;
        }
        left = left_after(*b, left);
    }
    text.len()
}

// Prints the bytes between two places.
pub fn print_part(rt: &impl Print, text: &[u8], a: usize, b: usize) -> io::Result<()> {
    if a <= b {
        if b <= text.len() {
            rt.write_all(&text[a..b])?;
        }
    }
    Ok(())
}
