//! How deep statements stand along calls.

ghost use Rattle.std.specs.Prelude.{◌≡◌, ℕ, ◌+◌, ◌<◌, ◌++◌, [], ◌∷◌, ◌==◌, if◌then◌else◌, Some, true, OnOk, IfOk};
ghost use Rattle.std.specs.Prelude.{IfSome, vec_len, slice_index, length, max};
ghost use Rattle.ep_int.specs.Memory.{contains};
ghost use Rattle.ep_elaboration.specs.Calls as rule;
ghost use Rattle.ep_elaboration.specs.Leads as laws;
ghost use Rattle.ep_call_graph.specs.ByCaller as kept;
ghost use Rattle.ep_call_graph.specs.View as view;

use crate::places::CallSite;
use std::alloc::{AllocError, Global};

/// What is kept of the statements of each function: how deep the deepest of those stands that call none, and those that
/// call, in their order. Most call none, so little is kept.
#[derive(Drop)]
pub(crate) struct ByCaller {
    pub deepest: Vec<u64>,
    pub calling: Vec<Vec<CallSite>>,
}

fn zeros(alloc: Global, count: usize) -> Result<Vec<u64>, AllocError>
    ensures count { IfOk result (λ v. vec_len v ≡ count) }
    ensures zero { IfOk result (λ v. (f : ℕ) → slice_index v.items f ≡ 0) }
{
    let mut all = Vec::new(alloc);
    for i in 0..count {
        all.push(0)?;
    }
    Ok(all)
}

fn empty_lists(alloc: Global, count: usize) -> Result<Vec<Vec<CallSite>>, AllocError>
    ensures count { IfOk result (λ v. vec_len v ≡ count) }
    ensures empty { IfOk result (λ v. (f : ℕ) → view.listed v.items f ≡ []) }
{
    let mut lists = Vec::new(alloc);
    for i in 0..count {
        lists.push(Vec::new(alloc))?;
    }
    Ok(lists)
}

// A statement that calls none.
fn deepen(deepest: &mut Vec<u64>, place: CallSite)
    requires { place.caller < vec_len deepest.old }
    ensures count { vec_len deepest.new ≡ vec_len deepest.old }
    ensures deeper { (f : ℕ) → slice_index deepest.new.items f
        ≡ max (slice_index deepest.old.items f) (if place.caller == f then place.depth else 0) }
{
    let caller = place.caller as usize;
    let deep = deepest[caller].max(u64::from(place.depth));
    deepest[caller] = deep;
}

// A statement that calls.
fn list(calling: &mut Vec<Vec<CallSite>>, place: CallSite) -> Result<(), AllocError>
    requires { place.caller < vec_len calling.old }
    ensures count { OnOk result (vec_len calling.new ≡ vec_len calling.old) }
    ensures added { OnOk result ((f : ℕ) → view.listed calling.new.items f
        ≡ view.listed calling.old.items f ++ (if place.caller == f then place ∷ [] else [])) }
{
    let list = &mut calling[place.caller as usize];
    list.push(place)?;
    Ok(())
}

fn add(groups: &mut ByCaller, place: CallSite) -> Result<(), AllocError>
    requires deepest { place.caller < vec_len groups.old.deepest }
    requires calling { place.caller < vec_len groups.old.calling }
    ensures deepest { OnOk result (vec_len groups.new.deepest ≡ vec_len groups.old.deepest) }
    ensures calling { OnOk result (vec_len groups.new.calling ≡ vec_len groups.old.calling) }
    ensures deeper { OnOk result ((below : ℕ → ℕ) → (f : ℕ) → kept.deepest_kept below groups.new f
        ≡ max (kept.deepest_kept below groups.old f) (kept.depth_in below f (view.call_site place))) }
{
    match place.callee {
        None => {
            deepen(&mut groups.deepest, place);
            Ok(())
        }
        Some(_) => list(&mut groups.calling, place),
    }
}

// The statements of each function.
fn grouped(alloc: Global, count: usize, places: &[CallSite]) -> Result<ByCaller, AllocError>
    requires { view.AreWithin count (view.call_sites places.now) }
    ensures { IfOk result (λ g. (below : ℕ → ℕ) → (f : ℕ) → kept.deepest_kept below g f
        ≡ rule.deepest below (rule.call_sites_in (view.call_sites places.now) f)) }
{
    let mut groups = ByCaller {
        deepest: zeros(alloc, count)?,
        calling: empty_lists(alloc, count)?,
    };
    for place in places {
        add(&mut groups, *place)?;
    }
    Ok(groups)
}

fn depth_of(place: CallSite, depths: &[u64]) -> Option<u64>
    ensures { IfSome result (λ d. d ≡ place.depth + rule.callee_depth (λ g. slice_index depths.now g) place.callee) }
{
    let below = match place.callee {
        None => 0,
        Some(callee) => depth_in(depths, callee),
    };
    u64::from(place.depth).checked_add(below)
}

fn deepest(places: &[CallSite], depths: &[u64]) -> Result<u64, AllocError>
    ensures { IfOk result (λ d. d ≡ rule.deepest (λ g. slice_index depths.now g) (view.call_sites places.now)) }
{
    let mut deep = 0;
    for place in places {
        let Some(depth) = depth_of(*place, depths) else {
            return Err(AllocError);
        };
        deep = deep.max(depth);
    }
    Ok(deep)
}

fn deepest_call(calling: &[Vec<CallSite>], depths: &[u64], f: u32) -> Result<u64, AllocError>
    ensures { IfOk result (λ d. d ≡ rule.deepest (λ g. slice_index depths.now g) (view.call_sites
        (view.listed calling.now f))) }
{
    match calling.get(f as usize) {
        None => Ok(0),
        Some(places) => deepest(places, depths),
    }
}

fn depth_in(depths: &[u64], f: u32) -> u64
    ensures { result ≡ slice_index depths.now f }
{
    match depths.get(f as usize) {
        Some(depth) => *depth,
        None => 0,
    }
}

fn depth_at(groups: &ByCaller, depths: &[u64], f: u32) -> Result<u64, AllocError>
    ensures { IfOk result (λ d. d ≡ kept.deepest_kept (λ g. slice_index depths.now g) groups.now f) }
{
    let deep = deepest_call(&groups.calling, depths, f)?;
    Ok(deep.max(depth_in(&groups.deepest, f)))
}

/// How deep the deepest statement of each of these functions stands, which come behind those that they call.
pub fn depths(
    alloc: Global,
    count: usize,
    places: &[CallSite],
    order: &[u32],
) -> Result<Vec<u64>, AllocError>
    requires within { view.AreWithin count (view.call_sites places.now) }
    requires ranked { (rank : ℕ → ℕ) × laws.Descends (rule.calls_of (view.call_sites places.now)) count rank }
    requires in_order { laws.AreInOrder (rule.calls_of (view.call_sites places.now)) [] order.now }
    requires below { view.AreBelow count order.now }
    ensures { IfOk result (λ v. (f : ℕ) → contains f order.now ≡ true → slice_index v.items f
        ≡ rule.function_depth (view.call_sites places.now) count f) }
{
    let groups = grouped(alloc, count, places)?;
    let mut depths = zeros(alloc, count)?;
    for f in order {
        let depth = depth_at(&groups, &depths, *f)?;
        depths[*f as usize] = depth;
    }
    Ok(depths)
}
