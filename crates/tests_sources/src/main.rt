//! For each source of a file what comes of it: the layouts of its types, or the text of a run, or its refusal. Before
//! each source stands a line that says what is asked, as `== layout lp64` or `== run ilp32 big 100 1 2`: the data
//! model, the byte order, the most steps, and the inputs. `== kinds ilp32` asks whether it is tame, whether it is
//! closed, and whether it is a byte mover on little- and big-endian machines.
#![tactic(auto)]

use bstr::ByteSlice;
use ep_ast::{Halt, refusal_text};
use ep_concrete::{run, run_text};
use ep_core::program::CoreProgram;
use ep_double::{is_closed, is_mover, is_tame};
use ep_int::{Model, Order};
use ep_io::{FileSource, Source, StdSink, read_all, write_all};
use ep_source::read;
use std::alloc::Global;
use std::process::ExitCode;

/// What begins the line before a source.
const HEAD: &[u8] = b"\n== ";

const NEWLINE: &[u8] = b"\n";

/// The most bytes that the file has.
const LIMIT: u32 = 1_048_576;

fn main(rt: HostRuntime) -> ExitCode {
    match answer_all(&rt) {
        Some(()) => ExitCode::from(0),
        None => ExitCode::from(1),
    }
}

fn answer_all(rt: &HostRuntime) -> Option<()> {
    let alloc = rt.alloc();
    let mut file = FileSource::new(rt);
    file.begin("sources.txt").ok()?;
    let all = read_all(alloc, &mut file, LIMIT).ok()?;
    let mut text = Vec::new(alloc);
    for part in all.as_slice().split_str(HEAD).skip(1) {
        let (head, source) = part.split_once_str(NEWLINE)?;
        let one = answer(alloc, head.to_str().ok()?, source)?;
        text.extend_from_slice(&one).ok()?;
        text.extend_from_slice(b"==\n").ok()?;
    }
    write_all(&mut StdSink::new(rt), &text).ok()
}

/// What comes of a source, by the line before it.
fn answer(alloc: Global, head: &str, source: &[u8]) -> Option<Vec<u8>> {
    let (command, words) = head.split_once(' ')?;
    let (model, words) = match words.split_once(' ') {
        Some((model, words)) => (model, words),
        None => (words, ""),
    };
    if source.len() >= LIMIT as usize {
        return None;
    }
    match &read(alloc, source, model_named(model)?) {
        Ok(program) => match command {
            "layout" => program.types.layout_text().ok(),
            "run" => run_as(alloc, program, words),
            "kinds" => kinds_of(alloc, program),
            _ => None,
        },
        Err(Halt::Refused(refusal)) => refusal_text(alloc, refusal).ok(),
        Err(Halt::Memory) => None,
    }
}

fn model_named(name: &str) -> Option<Model> {
    match name {
        "ilp32" => Some(Model::Ilp32),
        "lp64" => Some(Model::Lp64),
        _ => None,
    }
}

fn order_named(name: &str) -> Option<Order> {
    match name {
        "little" => Some(Order::Little),
        "big" => Some(Order::Big),
        "swapped-words" => Some(Order::SwappedWords),
        _ => None,
    }
}

/// The text of a run: the words are its byte order, the most steps, and its inputs.
fn run_as(alloc: Global, program: &CoreProgram, words: &str) -> Option<Vec<u8>> {
    let mut all = words.split_ascii_whitespace();
    let order = order_named(all.next()?)?;
    let steps = all.next()?.parse::<u64>().ok()?;
    let mut inputs = Vec::new(alloc);
    for word in all {
        inputs.push(word.parse::<u64>().ok()?).ok()?;
    }
    let result = run(alloc, order, program, &inputs, steps).ok()?;
    run_text(alloc, &result).ok()
}

/// Whether a program is tame, whether it is closed, and whether it is a byte mover.
fn kinds_of(alloc: Global, program: &CoreProgram) -> Option<Vec<u8>> {
    let moves = is_mover(alloc, program, Order::Little, Order::Big).ok()?;
    let mut text = Vec::new(alloc);
    add_word(&mut text, is_tame(program), "tame ", "wild ")?;
    add_word(&mut text, is_closed(program), "closed ", "open ")?;
    add_word(&mut text, moves, "mover\n", "none\n")?;
    Some(text)
}

fn add_word(text: &mut Vec<u8>, is_so: bool, yes: &str, no: &str) -> Option<()> {
    let word = if is_so { yes } else { no };
    text.extend_from_slice(word.as_bytes()).ok()
}
