//! The statements of functions, and what they call.

ghost use Rattle.std.specs.Prelude.{◌≡◌, ℕ, ◌<◌, ◌++◌, [], ◌∷◌, ◌==◌, if◌then◌else◌, OnOk, IfOk, vec_len};
ghost use Rattle.ep_elaboration.specs.Calls as rule;
ghost use Rattle.ep_call_graph.specs.View as view;

use std::alloc::{AllocError, Global};

/// A statement: its function, how many stand round it there, with itself, its line, and the function that it calls.
/// Functions go by their numbers.
#[derive(Clone, Copy, Debug)]
pub struct CallSite {
    pub caller: u32,
    pub depth: u32,
    pub line: u32,
    pub callee: Option<u32>,
}

/// So many empty lists.
pub(crate) fn empty_lists(alloc: Global, count: usize) -> Result<Vec<Vec<u32>>, AllocError>
    ensures count { IfOk result (λ v. vec_len v ≡ count) }
    ensures empty { IfOk result (λ v. (f : ℕ) → view.listed v.items f ≡ []) }
{
    let mut lists = Vec::new(alloc);
    for i in 0..count {
        lists.push(Vec::new(alloc))?;
    }
    Ok(lists)
}

fn add(lists: &mut Vec<Vec<u32>>, at: u32, item: u32) -> Result<(), AllocError>
    requires { at < vec_len lists.old }
    ensures count { OnOk result (vec_len lists.new ≡ vec_len lists.old) }
    ensures added { OnOk result ((f : ℕ) → view.listed lists.new.items f
        ≡ view.listed lists.old.items f ++ (if at == f then item ∷ [] else [])) }
{
    let list = &mut lists[at as usize];
    list.push(item)?;
    Ok(())
}

fn add_call(lists: &mut Vec<Vec<u32>>, place: CallSite) -> Result<(), AllocError>
    requires { place.caller < vec_len lists.old }
    ensures count { OnOk result (vec_len lists.new ≡ vec_len lists.old) }
    ensures added { OnOk result ((f : ℕ) → view.listed lists.new.items f
        ≡ view.listed lists.old.items f ++ rule.callees (rule.call_at (view.call_site place) place.callee) f) }
{
    match place.callee {
        None => Ok(()),
        Some(callee) => add(lists, place.caller, callee),
    }
}

/// What each function calls, in the order of its calls.
pub fn callees(
    alloc: Global,
    count: usize,
    places: &[CallSite],
) -> Result<Vec<Vec<u32>>, AllocError>
    requires { view.AreWithin count (view.call_sites places.now) }
    ensures count { IfOk result (λ v. vec_len v ≡ count) }
    ensures lists { IfOk result (λ v. (f : ℕ) → view.listed v.items f
        ≡ rule.callees (rule.calls_of (view.call_sites places.now)) f) }
{
    let mut lists = empty_lists(alloc, count)?;
    for place in places {
        add_call(&mut lists, *place)?;
    }
    Ok(lists)
}
