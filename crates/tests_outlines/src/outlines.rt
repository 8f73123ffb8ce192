//! Programs, read and shown by their outlines.

use ep_ast::{Halt, ItemTree, ProgramTree};
use ep_decls::program;
use ep_lexer::lex;
use std::alloc::{AllocError, Global};
use std::fmt::Write;

/// What comes of a source, where it can be cut into tokens.
fn read(alloc: Global, source: &[u8]) -> Option<Result<ProgramTree, Halt>> {
    if source.len() >= 16777216 {
        return None;
    }
    let Ok(tokens) = lex(alloc, source) else {
        return None;
    };
    if tokens.list.len() >= 16777216 {
        return None;
    }
    Some(program(alloc, &tokens))
}

/// The kind of an item and its line, and of arms how many functions stand in each.
fn outline(out: &mut String, item: &ItemTree) -> Result<(), AllocError> {
    match item {
        ItemTree::Typedef(t) => {
            let line = t.line;
            write!(out, "typedef {line};")
        }
        ItemTree::Function(f) => {
            let line = f.line;
            write!(out, "function {line};")
        }
        ItemTree::Prototype(h) => {
            let line = h.line;
            write!(out, "prototype {line};")
        }
        ItemTree::Declaration(d) => {
            let line = d.line;
            write!(out, "declaration {line};")
        }
        ItemTree::Aggregate(a) => {
            let line = a.line;
            write!(out, "aggregate {line};")
        }
        ItemTree::Arms(line, order, then, otherwise) => {
            let first = then.len();
            match otherwise {
                Some(list) => {
                    let second = list.len();
                    write!(out, "arms {line} {order:?} {first} {second};")
                }
                None => write!(out, "arms {line} {order:?} {first};"),
            }
        }
    }
}

fn refused(out: &mut String, halt: Halt) -> Result<(), AllocError> {
    match halt {
        Halt::Refused(r) => {
            let kind = r.kind.number();
            let line = r.line;
            let word = r.word;
            write!(out, "refused {kind} line {line} word {word:?}")
        }
        Halt::Memory => out.push_str("memory"),
    }
}

/// The kinds and lines of the items of a source, or the refusal.
pub fn items(alloc: Global, source: &[u8]) -> Result<String, AllocError> {
    let mut out = String::new(alloc);
    match read(alloc, source) {
        Some(Ok(tree)) => {
            for item in &tree.items {
                outline(&mut out, item)?;
            }
        }
        Some(Err(halt)) => refused(&mut out, halt)?,
        None => out.push_str("no tokens")?,
    }
    Ok(out)
}

/// The whole tree of a source, or the refusal.
pub fn tree(alloc: Global, source: &[u8]) -> Result<String, AllocError> {
    let mut out = String::new(alloc);
    match read(alloc, source) {
        Some(Ok(tree)) => write!(out, "{tree:?}")?,
        Some(Err(halt)) => refused(&mut out, halt)?,
        None => out.push_str("no tokens")?,
    }
    Ok(out)
}
