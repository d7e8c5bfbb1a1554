// Buffers and workspaces of just the length that is asked for, and one short: the refusal, and its buffers all zero.
#![tactic(auto)]

use refusals::Refusal;
use run::{Arrangement, Form, Settings};
use std::io;

// Fills a buffer with a pattern.
fn fill(buf: &mut [u8]) {
    buf.fill(170);
}

// Whether every byte is 0.
fn is_zero(buf: &[u8]) -> bool {
    buf.iter().all(|b| *b == 0)
}

// Prints the number of the outcome after the call's name, 0 for a result.
fn print_outcome<T>(rt: &impl Print, name: &str, r: &Result<T, Refusal>) -> io::Result<()> {
    match r {
        Ok(_) => print!(rt; "{name} 0"),
        Err(refusal) => print!(rt; "{name} {refusal}"),
    }
}

// Prints whether a buffer is all zero.
fn print_zero(rt: &impl Print, is_all: bool) -> io::Result<()> {
    if is_all {
        print!(rt; " zero")
    } else {
        print!(rt; " filled")
    }
}

// Order form, literals as they stand.
fn order() -> Settings {
    let form = Form::Order;
    let arrangement = Arrangement::AsListed;
    Settings {
        form,
        arrangement,
        step: 1,
    }
}

// Prints the bytes of log and formula in order form, told beforehand.
fn print_sizes(rt: &impl Print, text: &[u8], work: &mut [i32]) -> io::Result<()> {
    let r = call_sizes::sizes(text, order(), work);
    print_outcome(rt, "sizes", &r)?;
    if let Ok(t) = r {
        prog_common::print_number(rt, t.log_bytes)?;
        prog_common::print_number(rt, t.formula_bytes)?;
    }
    println!(rt)
}

// Reencodes a formula in order form, over filled buffers.
fn print_reencoding(
    rt: &impl Print,
    text: &[u8],
    work: &mut [i32],
    log: &mut [u8],
    formula: &mut [u8],
) -> io::Result<()> {
    fill(log);
    fill(formula);
    let r = call_reencode::reencode_texts(text, order(), work, log, formula);
    print_outcome(rt, "reencode", &r)?;
    print_zero(rt, is_zero(log))?;
    print_zero(rt, is_zero(formula))?;
    println!(rt)
}

// Prints the outcome of a call that writes a line, and whether its buffer is all zero.
fn print_carried(
    rt: &impl Print,
    name: &str,
    r: Result<usize, Refusal>,
    out: &[u8],
) -> io::Result<()> {
    print_outcome(rt, name, &r)?;
    print_zero(rt, is_zero(out))?;
    println!(rt)
}

// Walks session H's answer back over a log and a filled buffer.
fn print_walk_back(
    rt: &impl Print,
    formula: &[u8],
    log: &[u8],
    work: &mut [i32],
    out: &mut [u8],
) -> io::Result<()> {
    let answer = b"s SATISFIABLE\nv 1 2 3 4 5 -6 -7 -8 -9 10 0\n";
    fill(out);
    let r = call_walk_back::walk_back(formula, log, 41, answer, work, out);
    print_carried(rt, "walk_back", r, out)
}

// Carries the plan of session H forward over a log and a filled buffer.
fn print_carry_forward(
    rt: &impl Print,
    formula: &[u8],
    log: &[u8],
    work: &mut [i32],
    out: &mut [u8],
) -> io::Result<()> {
    let plan = b"s SATISFIABLE\nv -1 -2 -3 4 -5 -6 0\n";
    fill(out);
    let r = call_carry_forward::carry_forward(formula, log, 41, plan, work, out);
    print_carried(rt, "carry_forward", r, out)
}

// Session H: 740 entries and 21 bytes back.
fn print_walk_backs(
    rt: &impl Print,
    text: &[u8],
    log: &[u8],
    work: &mut [i32],
    short_work: &mut [i32],
) -> io::Result<()> {
    let mut line = [0u8; 21];
    let mut short_line = [0u8; 20];
    print_walk_back(rt, text, log, short_work, &mut line)?;
    print_walk_back(rt, text, log, work, &mut short_line)?;
    print_walk_back(rt, text, log, work, &mut line)
}

// Its plan forward: as many entries, and 33 bytes.
fn print_carries_forward(
    rt: &impl Print,
    text: &[u8],
    log: &[u8],
    work: &mut [i32],
    short_work: &mut [i32],
) -> io::Result<()> {
    let mut line = [0u8; 33];
    let mut short_line = [0u8; 32];
    print_carry_forward(rt, text, log, short_work, &mut line)?;
    print_carry_forward(rt, text, log, work, &mut short_line)?;
    print_carry_forward(rt, text, log, work, &mut line)
}

// Session F: 8,972 entries, 371 bytes and 77 bytes.
fn main(rt: HostRuntime) -> io::Result<()> {
    let text = b"p cnf 6 7\n1 2 3 4 5 0\n-1 -2 0\n-1 6 0\n-2 6 0\n-3 6 0\n-4 -6 0\n-5 -6 0\n";
    let mut work = [0i32; 8972];
    let mut log = [0u8; 371];
    let mut formula = [0u8; 77];
    let mut short_work = [0i32; 8971];
    let mut short_log = [0u8; 370];
    let mut short_formula = [0u8; 76];
    print_sizes(&rt, text, &mut short_work)?;
    print_sizes(&rt, text, &mut work)?;
    print_reencoding(&rt, text, &mut short_work, &mut log, &mut formula)?;
    print_reencoding(&rt, text, &mut work, &mut short_log, &mut formula)?;
    print_reencoding(&rt, text, &mut work, &mut log, &mut short_formula)?;
    print_reencoding(&rt, text, &mut work, &mut log, &mut formula)?;
    let mut table = [0i32; 740];
    let mut short_table = [0i32; 739];
    print_walk_backs(&rt, text, &log, &mut table, &mut short_table)?;
    print_carries_forward(&rt, text, &log, &mut table, &mut short_table)
}
