//! What operations on states cost: each line of the input is a row `OPERATION CELLS LAY CASE ROUNDS`, and how many
//! rounds went well is written behind it. Where the row ends in `time`, the nanoseconds of processor time of a round
//! too.
#![tactic(auto)]

mod making;
mod rounds;
mod rows;

use rows::Row;
use std::io::{self, BufRead, BufReader};
use std::time::CpuClock;

fn main(rt: HostRuntime) -> io::Result<()> {
    let alloc = rt.alloc();
    for line in BufReader::new(alloc, rt.reader())?.lines(alloc) {
        let line = line?;
        let Some(row) = Row::of_line(line.as_str()) else {
            println!(rt; "no row: {line}")?;
            continue;
        };
        let Ok(mut work) = rounds::begin(alloc, &row) else {
            println!(rt; "no memory: {line}")?;
            continue;
        };
        let before = rt.process_cpu_time()?;
        let done = rounds::run(&mut work, &row);
        let after = rt.process_cpu_time()?;
        if row.timed && row.rounds > 0 {
            let nanos = after.saturating_sub(before).as_nanos() / u128::from(row.rounds);
            println!(rt; "{line}: {done}, {nanos} ns")?;
        } else {
            println!(rt; "{line}: {done}")?;
        }
    }
    Ok(())
}
