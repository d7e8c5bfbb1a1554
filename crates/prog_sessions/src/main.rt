// Runs the listed sessions that are not shown by proof, a line for each.
#![tactic(auto)]

mod texts;

use formula_run::Tally;
use run::{Arrangement, Form, Settings};
use std::io;

// Ends a line.
pub fn print_end(rt: &impl Print) -> io::Result<()> {
    println!(rt)
}

// Counter form.
fn counter(arrangement: Arrangement, step: u32) -> Settings {
    let form = Form::Counter;
    Settings {
        form,
        arrangement,
        step,
    }
}

// Prints choices, H, M, lines and both lengths.
fn print_tally(rt: &impl Print, t: Tally) -> io::Result<()> {
    prog_common::print_number(rt, t.choices)?;
    prog_common::print_number(rt, t.highest as usize)?;
    prog_common::print_number(rt, t.clauses)?;
    prog_common::print_number(rt, t.lines)?;
    prog_common::print_number(rt, t.log_bytes)?;
    prog_common::print_number(rt, t.formula_bytes)
}

// Prints the result, or the number of the refusal.
fn print_outcome(rt: &impl Print, text: &[u8], step: u32) -> io::Result<()> {
    let mut work = [0i32; 16384];
    let mut log = [0u8; 1024];
    let mut formula = [0u8; 1024];
    let s = counter(Arrangement::AsListed, step);
    match call_reencode::reencode_texts(text, s, &mut work, &mut log, &mut formula) {
        Ok(t) => {
            print!(rt; "accepted")?;
            print_tally(rt, t)?;
            print_end(rt)
        }
        Err(refusal) => prog_common::print_refusal(rt, refusal),
    }
}

// The six texts with V 1, C 1.
fn print_outcomes(rt: &impl Print) -> io::Result<()> {
    print_outcome(rt, b"p cnf 1 1\n1 1 0\n", 1)?;
    print_outcome(rt, b"p cnf 1 1\n1 -1 0\n", 1)?;
    print_outcome(rt, b"p cnf 1 1\n2 0\n", 1)?;
    print_outcome(rt, b"p cnf 1 1\n-0\n", 1)?;
    print_outcome(rt, b"p cnf 1 1\n1\n", 1)?;
    print_outcome(rt, b"p cnf 1 1\n1 0 1 0\n", 1)
}

// Three clauses that are resolved into one choice: at the step 1, at the greatest step, and past both ends.
fn print_steps(rt: &impl Print) -> io::Result<()> {
    let text = b"p cnf 8 3\n1 2 3 0\n-3 4 5 0\n-5 6 7 8 0\n";
    print_outcome(rt, text, 1)?;
    print_outcome(rt, text, 100)?;
    print_outcome(rt, text, 0)?;
    print_outcome(rt, text, 101)
}

// Prints the result for a formula with one unique literal clause of a size, up to 65: with that 17,296 entries are asked for.
fn print_size(rt: &impl Print, size: u8) -> io::Result<()> {
    let mut text = [0u8; 2048];
    let mut work = [0i32; 17296];
    let mut log = [0u8; 8192];
    let mut formula = [0u8; 8192];
    let n = texts::put_unique(&mut text, size);
    print!(rt; "size")?;
    prog_common::print_number(rt, size as usize)?;
    if n <= text.len() {
        let s = counter(Arrangement::AsListed, 1);
        match call_reencode::reencode_texts(&text[..n], s, &mut work, &mut log, &mut formula) {
            Ok(t) => print_tally(rt, t)?,
            Err(refusal) => prog_common::print_refusal(rt, refusal)?,
        }
    }
    print_end(rt)
}

// 1..5 and 6..10, linked 1-8 and 2-6; each negated literal stands twice. Prints the log's line that deletes the second choice.
fn print_alignment(rt: &impl Print, arrangement: Arrangement) -> io::Result<()> {
    let text =
        b"p cnf 10 24\n1 2 3 4 5 0\n6 7 8 9 10 0\n-1 0\n-1 0\n-2 0\n-2 0\n-3 0\n-3 0\n-4 0\n-4 0\n-5 0\n-5 0\n-6 0\n-6 0\n-7 0\n-7 0\n-8 0\n-8 0\n-9 0\n-9 0\n-10 0\n-10 0\n-1 -8 0\n-2 -6 0\n";
    let mut work = [0i32; 16384];
    let mut log = [0u8; 1024];
    let mut formula = [0u8; 1024];
    let s = counter(arrangement, 1);
    match call_reencode::reencode_texts(text, s, &mut work, &mut log, &mut formula) {
        Ok(_) => {
            let a = texts::past_lines(&log, 33);
            let b = texts::past_lines(&log, 34);
            texts::print_part(rt, &log, a, b)
        }
        Err(refusal) => prog_common::print_refusal(rt, refusal),
    }
}

fn main(rt: HostRuntime) -> io::Result<()> {
    print_outcomes(&rt)?;
    print_steps(&rt)?;
    print_size(&rt, 4)?;
    print_size(&rt, 5)?;
    print_size(&rt, 64)?;
    print_size(&rt, 65)?;
    print_alignment(&rt, Arrangement::AsListed)?;
    print_alignment(&rt, Arrangement::Alignment)
}
