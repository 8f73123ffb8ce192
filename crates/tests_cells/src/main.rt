//! Operations on what is known of two memories: each line of the table is an operation with its states, and what it
//! leaves or answers is written.
#![tactic(auto)]

mod rows;
mod synthesis;

use std::io::{self, BufRead, BufReader};

// A line of the table is OP LEFT RIGHT MODEL | ARGUMENTS | CELLS | CELLS, where cells stand between commas. A cell is
// SIDE BLOCK OFFSET TYPE MAYBE VALUE FORM. A value is `none`, a number LEAST..GREATEST/REMAINDER%MODULUS, or @ and
// between semicolons `null` and targets BLOCK:NUMBER. A form is `-`, or + before each of its segments
// SIDE.BLOCK.OFFSET.TYPE.FROM.TO and F.BITS.WIDTH. What is read is VALUE MAYBE MIXED FORM. A bar parts two lists of
// cells that are left.
fn main(rt: HostRuntime) -> io::Result<()> {
    let alloc = rt.alloc();
    for line in BufReader::new(alloc, rt.reader())?.lines(alloc) {
        let line = line?;
        match rows::answer(alloc, line.as_str()) {
            Some(text) => println!(rt; "{text}")?,
            None => println!(rt; "no row: {line}")?,
        }
    }
    Ok(())
}
