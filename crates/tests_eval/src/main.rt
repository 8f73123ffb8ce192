//! Expressions and tests over what is known of two memories: each line of the table is an expression with a state, and
//! what it gives or leaves is written.
#![tactic(auto)]

mod answers;
mod fits;
mod long;
mod trees;

use std::io::{self, BufRead, BufReader};

// A line of the table is `eval`, `value` or `test`, LEFT RIGHT MODEL MODE | SIZES | CELLS | WORDS, where cells are as
// in tests_cells, and words make an expression from what stands before them: c.TYPE.NUMBER, null, b.BLOCK, m.OFFSET,
// el.BOUND.UNIT, * (a place by its address), ld.TYPE, addr, an operator's name and a type (add.i32), cv.TYPE, a
// comparison's (lt.i32) or of pointers (peq), and, or, not, if, padd.UNIT, psub.UNIT, cast. What an expression gives
// is VALUE FORM of the left and of the right, whether they are equal, and its faults; `value` leaves forms out. What a
// test gives is what it tells and its faults, and then the cells that are left for both true, the left alone, the
// right alone, neither; of one side for true and false. A line `long CELLS TIMES all` (or `one`) tells of loads from a
// long array, and `nest WORDS DEPTH` of deep tests.
fn main(rt: HostRuntime) -> io::Result<()> {
    let alloc = rt.alloc();
    for line in BufReader::new(alloc, rt.reader())?.lines(alloc) {
        let line = line?;
        match answers::answer(alloc, line.as_str()) {
            Some(text) => println!(rt; "{text}")?,
            None => println!(rt; "no row: {line}")?,
        }
    }
    Ok(())
}
