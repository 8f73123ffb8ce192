//! Certificates: each line of the table is bytes, or a call of the program, and what comes of it is written.
#![tactic(auto)]

mod changes;
mod commands;
mod rows;

use std::io::{self, BufRead, BufReader};

// A line of the table is a remark behind #, or a word and what it is about. Bytes are in hexadecimal, in groups; of a
// source each line has `\n` behind it.
//
// read BYTES: `none`, or the orders, the model, the unroll number, the cells of each head and the source that they
// spell, and whether encoding gives the same bytes.
// changed BYTES: of each byte in turn each bit is turned, it is made one more and one less, left out and doubled, and
// each beginning is tried. Written is how many of these spell a certificate, how many of those encoding gives again,
// and how many there are.
// prove WORDS | SOURCE, verify WORDS | BYTES: the exit code of the program, and what it writes.
// both WORDS | SOURCE: how many heads `prove` writes, and what comes of `verify` on what it writes, on the same without
// heads, with all heads twice and without its last byte.
// long COUNT: what comes of `verify` on so many blanks.
fn main(rt: HostRuntime) -> io::Result<()> {
    let alloc = rt.alloc();
    for line in BufReader::new(alloc, rt.reader())?.lines(alloc) {
        let line = line?;
        match rows::answer(alloc, line.as_str()) {
            Some(text) => println!(rt; "{text}")?,
            None => println!(rt; "no row: {line}")?,
        }
    }
    Ok(())
}
