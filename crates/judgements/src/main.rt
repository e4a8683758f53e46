#![tactic(auto)]
//! Judges the sheets of the table on standard input, and prints of each what the judge answers and whether that is expected.
mod assignments;
mod sheet_table;
mod verdicts;

use sheet_table::show_sheets;
use std::io::BufReader;

fn main(rt: HostRuntime) -> anyhow::Result<()> {
    // The reader over the runtime's own handle (`rt.reader()`) would rest on one C function more.
    let input = BufReader::new(rt.alloc(), rt.stdin())?;
    show_sheets(&rt, rt.alloc(), input)
}
