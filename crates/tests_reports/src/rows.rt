//! One row: the words of a call and its source.

use std::alloc::Global;
use tests_calls::{Case, call};

/// The words, and what comes of the call: its exit code and its text. `None` where there are no words, or memory runs
/// out.
pub(crate) fn answer(alloc: Global, words: &str, source: &str) -> Option<String> {
    if words.is_empty() {
        return None;
    }
    let mut list = Vec::new(alloc);
    list.push("endport").ok()?;
    for word in words.split(' ') {
        list.push(word).ok()?;
    }
    let case = Case {
        words: &list,
        ..Case::check(source.as_bytes())
    };
    let (status, text) = call(alloc, &case).ok()?;
    let code = status.code();
    let text = String::from_utf8(text).ok()?;
    format!(in alloc; "> {words}\n{code}\n{text}").ok()
}
