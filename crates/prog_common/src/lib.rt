// What the programs share: arguments, files, and the line of a refusal.
#![tactic(auto)]

ghost use Rattle.std.specs.Prelude.{◌≡◌, ◌≤◌, length};
ghost use Rattle.std.specs.Io.{ReadsAtMost};

use run::{Arrangement, Form, Settings};
use std::env::Env;
use std::fmt::Display;
use std::fs::Files;
use std::io::Read;
use std::{fs, io, str};

// Puts an argument at the start of a buffer; the answer is its length, 0 where it is missing or longer than the buffer.
fn put_arg(rt: &impl Env, i: usize, buf: &mut [u8]) -> usize
    ensures { result ≤ length buf.new }
{
    rt.arg(i, buf).unwrap_or(0)
}

// Whether an argument is a word.
fn is_arg(rt: &impl Env, i: usize, word: &[u8]) -> bool {
    let mut buf = [0u8; 16];
    let n = put_arg(rt, i, &mut buf);
    &buf[..n] == word
}

// The form that the first argument names: the order form for `order`, else the counter form.
fn named_form(rt: &impl Env) -> Form {
    if is_arg(rt, 1, b"order") {
        Form::Order
    } else {
        Form::Counter
    }
}

// The arrangement that the second argument names: alignment for `align`, else as the literals stand.
fn named_arrangement(rt: &impl Env) -> Arrangement {
    if is_arg(rt, 2, b"align") {
        Arrangement::Alignment
    } else {
        Arrangement::AsListed
    }
}

// The settings that the arguments name.
fn named_settings(rt: &impl Env) -> Settings {
    let form = named_form(rt);
    let arrangement = named_arrangement(rt);
    Settings {
        form,
        arrangement,
        step: 1,
    }
}

// A number given as an argument; 0 if it is none up to 1,000,000.
pub fn number_arg(rt: &impl Env, i: usize) -> usize {
    let mut buf = [0u8; 16];
    let n = put_arg(rt, i, &mut buf);
    text::read_natural(&buf[..n]).unwrap_or(0) as usize
}

// Reads until a buffer is full or the input ends; the answer is how many bytes stand at the start of the buffer. A read that fails
// leaves a buffer of the same length.
pub fn read_full(input: &mut impl Read, buf: &mut [u8]) -> io::Result<usize>
    ensures read { ReadsAtMost result buf.new }
    ensures kept { length buf.new ≡ length buf.old }
{
    let mut done = 0;
    while done < buf.len() {
        let n = input.read(&mut buf[done..])?;
        if n == 0 {
            break;
        }
        done += n;
    }
    Ok(done)
}

// Reads the file that an argument names into a buffer; the answer is its length, as far as the buffer reaches.
pub fn read_file(rt: &(impl Env + Files), i: usize, buf: &mut [u8]) -> io::Result<usize>
    ensures read { ReadsAtMost result buf.new }
    ensures kept { length buf.new ≡ length buf.old }
{
    let mut path = [0u8; 4096];
    let n = put_arg(rt, i, &mut path);
    match str::from_utf8(&path[..n]) {
        Ok(name) => {
            let mut file = fs::open(rt, name)?;
            read_full(&mut file, buf)
        }
        Err(_) => Err(io::Error::from(io::ErrorKind::InvalidInput)),
    }
}

// Prints a number after a blank.
pub fn print_number(rt: &impl Print, n: usize) -> io::Result<()> {
    print!(rt; " {n}")
}

// Prints a refusal, or its number, on a line.
pub fn print_refusal<R: Display + Drop>(rt: &impl Print, refusal: R) -> io::Result<()> {
    println!(rt; "refused {refusal}")
}

// Prints that a text does not fit its buffer.
pub fn print_too_long(rt: &impl Print) -> io::Result<()> {
    println!(rt; "text too long")
}

// Prints the first n bytes of a buffer.
pub fn print_start(rt: &impl Print, buf: &[u8], n: usize) -> io::Result<()> {
    if n <= buf.len() {
        rt.write_all(&buf[..n])?;
    }
    Ok(())
}

// ---- reencoding

// Reads a formula, reencodes it as the arguments say and prints the log or the new formula, or the number of the refusal.
fn print_reencoded(
    rt: &(impl Env + Input + Print),
    is_log: bool,
    text: &mut [u8],
    work: &mut [i32],
    log: &mut [u8],
    formula: &mut [u8],
) -> io::Result<()> {
    let n = read_full(&mut rt.reader(), text)?;
    if text.len() <= n {
        return print_too_long(rt);
    }
    let settings = named_settings(rt);
    match call_reencode::reencode_texts(&text[..n], settings, work, log, formula) {
        Err(refusal) => print_refusal(rt, refusal),
        Ok(t) => {
            if is_log {
                print_start(rt, log, t.log_bytes)
            } else {
                print_start(rt, formula, t.formula_bytes)
            }
        }
    }
}

// Reencodes the formula on standard input, with the workspace of a formula at a quarter of document 01's limits.
pub fn reencode_input(rt: &(impl Env + Input + Print), is_log: bool) -> io::Result<()> {
    let mut text = [0u8; 524288];
    let mut work = [0i32; 652192];
    let mut log = [0u8; 524288];
    let mut formula = [0u8; 262144];
    print_reencoded(rt, is_log, &mut text, &mut work, &mut log, &mut formula)
}
