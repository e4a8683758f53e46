#![tactic(auto)]
//! Reads lines of curves from standard input, and prints the close points of each.
mod lines;

use lines::next_line;
use reports::output::{line_output, telling_bytes};
use std::alloc::Global;
use std::io::{BufRead, BufReader};

/// Prints the answer to each line of the input.
fn run<R: BufRead>(rt: &impl Print, heap: Global, input: &mut R) -> anyhow::Result<()> {
    let mut line = Vec::new(heap);
    let most = telling_bytes();
    // Lines after the 9,999th are not read.
    for number in 1..10_000u32 {
        if !next_line(input, &mut line, most)? {
            break;
        }
        let text = line_output(heap, number, line.as_slice())?;
        print!(rt; "{text}")?;
    }
    Ok(())
}

fn main(rt: HostRuntime) -> anyhow::Result<()> {
    // The reader over the runtime's own handle (`rt.reader()`) would rest on one C function more.
    let mut input = BufReader::new(rt.alloc(), rt.stdin())?;
    run(&rt, rt.alloc(), &mut input)
}
