//! Lines of the table, and what they are answered.

use crate::changes::{are_again, tried};
use crate::commands::{both, long, prove, verify};
use ep_cert::{Cert, decode};
use ep_int::{Model, Order};
use ep_states::State;
use std::alloc::{AllocError, Global};
use tests_cell_words::reading::Numbers;
use tests_cell_words::writing;

fn order(order: Order) -> &'static str {
    match order {
        Order::Little => "little",
        Order::Big => "big",
        Order::SwappedWords => "swapped-words",
    }
}

fn model(model: Model) -> &'static str {
    match model {
        Model::Ilp32 => "ilp32",
        Model::Lp64 => "lp64",
    }
}

// The bytes of groups of hexadecimal digits.
fn bytes(alloc: Global, words: &str) -> Option<Vec<u8>> {
    let mut out = Vec::new(alloc);
    for word in words.split_whitespace() {
        let group = hex::decode(alloc, word).ok()?;
        out.extend_from_slice(&group).ok()?;
    }
    Some(out)
}

fn push_head(alloc: Global, out: &mut String, head: &State<Numbers>) -> Option<()> {
    let cells = head.cells().ok()?;
    let text = writing::cells(alloc, &cells).ok()?;
    out.push_str(" | ").ok()?;
    out.push_str(text.as_str().trim_end()).ok()
}

fn push_source(alloc: Global, out: &mut String, source: &[u8]) -> Result<(), AllocError> {
    let text = hex::encode(alloc, source)?;
    out.push_str(" | ")?;
    out.push_str(text.as_str())
}

fn text(alloc: Global, cert: &Cert) -> Option<String> {
    let (left, right) = (order(cert.orders.0), order(cert.orders.1));
    let (model, unroll) = (model(cert.model), cert.unroll);
    let mut out = format!(in alloc; "{left} {right} {model} {unroll}").ok()?;
    for head in &cert.heads {
        push_head(alloc, &mut out, head)?;
    }
    push_source(alloc, &mut out, &cert.source).ok()?;
    Some(out)
}

fn read(alloc: Global, bytes: &[u8]) -> Option<String> {
    let Some(cert) = decode(alloc, bytes).ok()? else {
        return String::from_str(alloc, "none").ok();
    };
    let text = text(alloc, &cert)?;
    let again = writing::word(are_again(alloc, bytes).ok()??);
    format!(in alloc; "{text} | {again}").ok()
}

fn changed(alloc: Global, bytes: &[u8]) -> Option<String> {
    let found = tried(alloc, bytes)?;
    let (spelled, again, all) = (found.spelled, found.again, found.all);
    format!(in alloc; "{spelled} {again} {all}").ok()
}

/// What is written for a line.
pub(crate) fn answer(alloc: Global, line: &str) -> Option<String> {
    if line.starts_with('#') {
        return String::from_str(alloc, line).ok();
    }
    let (word, rest) = line.split_once(' ')?;
    match word {
        "read" => read(alloc, &bytes(alloc, rest)?),
        "changed" => changed(alloc, &bytes(alloc, rest)?),
        "long" => long(alloc, rest),
        _ => answer_call(alloc, word, rest),
    }
}

fn answer_call(alloc: Global, word: &str, rest: &str) -> Option<String> {
    let (words, file) = rest.split_once(" | ")?;
    match word {
        "prove" => prove(alloc, words, file),
        "both" => both(alloc, words, file),
        "verify" => verify(alloc, words, &bytes(alloc, file)?),
        _ => None,
    }
}
