// Walks a solver's answer, on standard input, back to the formula and prints the plan's line. The arguments are the formula's file, the
// log's file and the number of lines to keep.
#![tactic(auto)]

use std::env::Env;
use std::fs::Files;
use std::io;

// Walks an answer back and prints the line, or the number of the refusal.
fn print_plan(
    rt: &(impl Env + Print),
    formula: &[u8],
    log: &[u8],
    answer: &[u8],
    work: &mut [i32],
    out: &mut [u8],
) -> io::Result<()> {
    let kept = prog_common::number_arg(rt, 3);
    match call_walk_back::walk_back(formula, log, kept, answer, work, out) {
        Ok(n) => prog_common::print_start(rt, out, n),
        Err(refusal) => prog_common::print_refusal(rt, refusal),
    }
}

// Reads the three texts and walks back.
fn read_and_print(
    rt: &(impl Env + Files + Input + Print),
    formula: &mut [u8],
    log: &mut [u8],
    answer: &mut [u8],
    work: &mut [i32],
    out: &mut [u8],
) -> io::Result<()> {
    let a = prog_common::read_file(rt, 1, formula)?;
    let b = prog_common::read_file(rt, 2, log)?;
    let c = prog_common::read_full(&mut rt.reader(), answer)?;
    if formula.len() <= a || log.len() <= b || answer.len() <= c {
        return prog_common::print_too_long(rt);
    }
    print_plan(rt, &formula[..a], &log[..b], &answer[..c], work, out)
}

fn main(rt: HostRuntime) -> io::Result<()> {
    let mut formula = [0u8; 524288];
    let mut log = [0u8; 1048576];
    let mut answer = [0u8; 524288];
    let mut work = [0i32; 1048576];
    let mut out = [0u8; 65536];
    read_and_print(
        &rt,
        &mut formula,
        &mut log,
        &mut answer,
        &mut work,
        &mut out,
    )
}
