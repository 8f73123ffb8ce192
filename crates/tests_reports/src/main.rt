//! Calls of the program, as a table: for each one its words, and then the exit code and the text that comes.
#![tactic(auto)]

mod rows;

use std::io::{self, BufRead, BufReader};

// A row of the table is `> ` and the words of a call, and behind it the lines of the source under `file.c`.
fn main(rt: HostRuntime) -> io::Result<()> {
    let alloc = rt.alloc();
    let mut words = String::new(alloc);
    let mut source = String::new(alloc);
    for line in BufReader::new(alloc, rt.reader())?.lines(alloc) {
        let line = line?;
        match line.as_str().strip_prefix("> ") {
            Some(next) => {
                if let Some(text) = rows::answer(alloc, words.as_str(), source.as_str()) {
                    print!(rt; "{text}")?;
                }
                words = String::from_str(alloc, next)?;
                source = String::new(alloc);
            }
            None => {
                source.push_str(line.as_str())?;
                source.push_str("\n")?;
            }
        }
    }
    if let Some(text) = rows::answer(alloc, words.as_str(), source.as_str()) {
        print!(rt; "{text}")?;
    }
    Ok(())
}
