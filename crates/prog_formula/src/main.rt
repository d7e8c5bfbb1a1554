// Reads a formula in DIMACS CNF from standard input and prints the new formula. The arguments are `counter` or `order`, and
// `align` for alignment.
#![tactic(auto)]

use std::io;

fn main(rt: HostRuntime) -> io::Result<()> {
    prog_common::reencode_input(&rt, false)
}
