//! Lists in shared parts.

ghost use Rattle.std.specs.Prelude.{◌≡◌, ℕ, ◌+◌, ◌<◌, ◌≤◌, ◌++◌, ◌∷◌, [], suc, length, map, take, drop, nat_lt};
ghost use Rattle.std.specs.Prelude.{nat_le, IfOk, OnOk, OnErr, IfSome, IsTrue};
ghost use Rattle.std.specs.List.{list_all, insert};
ghost use Rattle.ep_shared_parts.specs.Spread.{outline, outlines, all_items, AreFrom, AreBelow, AreSpread, parts_to};
ghost use Rattle.ep_shared_parts.specs.Spread.{IsWindow, IsHalved, installed, AreWithin};

use ep_int::Memory;
use std::alloc::Global;
use std::rc::Rc;

/// What has a number by which it is found.
pub trait Numbered: Drop {
    ghost number: { Self → ℕ };

    fn number(&self) -> u128
        ensures { result ≡ number self.now };

    /// The same.
    fn copied(&self) -> Result<Self, Memory>
        ensures { IfOk result (λ x. x ≡ self.now) };
}

/// Items next to one another, of numbers from `start` on and below the start of the next part.
#[derive(Drop)]
pub struct Part<T> {
    pub start: u128,
    pub items: Rc<Vec<T>>,
}

/// A part that takes the place of the one at this index.
#[derive(Drop)]
pub struct Edit<T> {
    pub at: usize,
    pub part: Part<T>,
}

// A part as two.
#[derive(Drop)]
struct Halves<T> {
    left: Part<T>,
    right: Part<T>,
}

// A part of so many items is halved before it grows.
const FULL: usize = 96;

/// How many parts start at this number or before.
pub fn parts_to<T: Numbered>(parts: &[Part<T>], k: u64) -> usize
    requires { AreSpread (outlines T.number parts.now) }
    ensures { result ≡ parts_to k (outlines T.number parts.now) }
{
    wide_parts_to(parts, u128::from(k))
}

/// How many parts start at this wide number or before.
pub fn wide_parts_to<T: Numbered>(parts: &[Part<T>], k: u128) -> usize
    requires { AreSpread (outlines T.number parts.now) }
    ensures { result ≡ parts_to k (outlines T.number parts.now) }
{
    parts.partition_point(|p| p.start <= k)
}

/// The parts that may have items with numbers from `from` to `last`, as the first of them and the one behind them.
pub fn span<T: Numbered>(parts: &[Part<T>], from: u64, last: u64) -> (usize, usize)
    requires spread { AreSpread (outlines T.number parts.now) }
    requires rising { from ≤ last }
    ensures order { result.0 ≤ result.1 }
    ensures within { result.1 ≤ length parts.now }
    ensures below { AreBelow from (map T.number (all_items (take result.0 parts.now))) }
    ensures above { AreFrom (suc last) (map T.number (all_items (drop result.1 parts.now))) }
{
    wide_span(parts, u128::from(from), u128::from(last))
}

fn wide_span<T: Numbered>(parts: &[Part<T>], from: u128, last: u128) -> (usize, usize)
    requires spread { AreSpread (outlines T.number parts.now) }
    requires rising { from ≤ last }
    ensures order { result.0 ≤ result.1 }
    ensures within { result.1 ≤ length parts.now }
    ensures below { AreBelow from (map T.number (all_items (take result.0 parts.now))) }
    ensures above { AreFrom (suc last) (map T.number (all_items (drop result.1 parts.now))) }
{
    (
        wide_parts_to(parts, from).saturating_sub(1),
        wide_parts_to(parts, last),
    )
}

/// These parts.
pub fn window<T: Numbered>(parts: &[Part<T>], from: u64, last: u64) -> &[Part<T>]
    requires spread { AreSpread (outlines T.number parts.now) }
    requires rising { from ≤ last }
    ensures { IsWindow T.number from last parts.now result.now }
{
    wide_window(parts, u128::from(from), u128::from(last))
}

/// The parts that may have items with these wide numbers.
pub fn wide_window<T: Numbered>(parts: &[Part<T>], from: u128, last: u128) -> &[Part<T>]
    requires spread { AreSpread (outlines T.number parts.now) }
    requires rising { from ≤ last }
    ensures { IsWindow T.number from last parts.now result.now }
{
    let (first, end) = wide_span(parts, from, last);
    &parts[first..end]
}

fn shared_part<T: Numbered>(part: &Part<T>) -> Result<Part<T>, Memory>
    ensures start { IfOk result (λ p. p.start ≡ part.now.start) }
    ensures items { IfOk result (λ p. p.items.value.items ≡ part.now.items.value.items) }
{
    Ok(Part {
        start: part.start,
        items: part.items.clone().map_err(|_| Memory)?,
    })
}

/// One item more.
pub fn push<T: Drop>(out: &mut Vec<T>, item: T) -> Result<(), Memory>
    ensures { OnOk result (out.new.items ≡ out.old.items ++ item ∷ []) }
{
    out.push(item).map_err(|_| Memory)
}

/// The same parts. Takes a count for each.
pub fn shared<T: Numbered>(alloc: Global, parts: &[Part<T>]) -> Result<Vec<Part<T>>, Memory>
    ensures outlines { IfOk result (λ v. outlines T.number v.items ≡ outlines T.number parts.now) }
    ensures items { IfOk result (λ v. all_items v.items ≡ all_items parts.now) }
{
    let mut out = Vec::with_capacity(alloc, parts.len()).map_err(|_| Memory)?;
    for part in parts {
        push(&mut out, shared_part(part)?)?;
    }
    Ok(out)
}

fn are_below<T: Numbered>(items: &[T], k: u128) -> bool
    ensures { result ≡ list_all (λ x. nat_lt (T.number x) k) items.now }
{
    items.iter().all(|x| x.number() < k)
}

fn are_from<T: Numbered>(items: &[T], k: u128) -> bool
    ensures { result ≡ list_all (λ x. nat_le k (T.number x)) items.now }
{
    items.iter().all(|x| k <= x.number())
}

// Whether a part may be halved so, where the second half starts at this number.
fn may_part<T: Numbered>(start: u128, left: &[T], right: &[T], k: u128) -> bool
    ensures { IsTrue result
        → (start ≤ k) × (0 < length right.now) × AreBelow k (map T.number left.now)
        × AreFrom k (map T.number right.now) }
{
    if start > k {
        return false;
    }
    if left.is_empty() {
        return false;
    }
    if right.is_empty() {
        return false;
    }
    if !are_below(left, k) {
        return false;
    }
    are_from(right, k)
}

fn copied<T: Numbered>(alloc: Global, items: &[T]) -> Result<Rc<Vec<T>>, Memory>
    ensures { IfOk result (λ r. r.value.items ≡ items.now) }
{
    let mut out = Vec::with_capacity(alloc, items.len()).map_err(|_| Memory)?;
    for x in items {
        out.push(x.copied()?).map_err(|_| Memory)?;
    }
    Rc::new(alloc, out).map_err(|_| Memory)
}

// Where a part is halved: before the items of the number in its middle, or behind them where there are none.
fn middle<T: Numbered>(items: &[T]) -> (usize, u128)
    ensures { result.0 ≤ length items.now }
{
    match items.get(items.len() / 2) {
        None => (0, 0),
        Some(x) => {
            let k = x.number();
            let at = items.partition_point(|y| y.number() < k);
            if at == 0 {
                return behind(items, k);
            }
            (at, k)
        }
    }
}

// Before the items of the number that follows.
fn behind<T: Numbered>(items: &[T], k: u128) -> (usize, u128)
    ensures { result.0 ≤ length items.now }
{
    let at = items.partition_point(|y| y.number() <= k);
    match items.get(at) {
        None => (0, k),
        Some(y) => (at, y.number()),
    }
}

fn in_halves<T: Numbered>(alloc: Global, part: &Part<T>) -> Result<Option<Halves<T>>, Memory>
    ensures { IfOk result (λ h. IfSome h (λ h. IsHalved T.number part.now h.left h.right)) }
{
    let (at, k) = middle(&part.items);
    let (left, right) = part.items.split_at(at);
    if !may_part(part.start, left, right, k) {
        return Ok(None);
    }
    Ok(Some(Halves {
        left: Part {
            start: part.start,
            items: copied(alloc, left)?,
        },
        right: Part {
            start: k,
            items: copied(alloc, right)?,
        },
    }))
}

fn insert_part<T: Drop>(parts: &mut Vec<Part<T>>, at: usize, part: Part<T>) -> Result<(), Memory>
    requires { at ≤ length parts.old.items }
    ensures ok { OnOk result (parts.new.items ≡ insert parts.old.items at part) }
    ensures err { OnErr result (parts.new.items ≡ parts.old.items) }
{
    parts.insert(at, part).map_err(|_| Memory)
}

// Halves a part that is full.
fn halve<T: Numbered>(alloc: Global, parts: &mut Vec<Part<T>>, i: usize) -> Result<(), Memory>
    requires spread { AreSpread (outlines T.number parts.old.items) }
    requires within { i < length parts.old.items }
    ensures spread { AreSpread (outlines T.number parts.new.items) }
    ensures items { all_items parts.new.items ≡ all_items parts.old.items }
    ensures starts { (k : ℕ) → 0 < parts_to k (outlines T.number parts.old.items)
        → 0 < parts_to k (outlines T.number parts.new.items) }
{
    if parts[i].items.len() < FULL {
        return Ok(());
    }
    match in_halves(alloc, &parts[i])? {
        None => Ok(()),
        Some(halved) => {
            insert_part(parts, i + 1, halved.right)?;
            parts[i] = halved.left;
            Ok(())
        }
    }
}

/// Sees to it that a part starts at this number or before, and that it has room.
pub fn make_room<T: Numbered>(alloc: Global, parts: &mut Vec<Part<T>>, k: u64) -> Result<(), Memory>
    requires { AreSpread (outlines T.number parts.old.items) }
    ensures spread { AreSpread (outlines T.number parts.new.items) }
    ensures items { all_items parts.new.items ≡ all_items parts.old.items }
    ensures starts { OnOk result (0 < parts_to k (outlines T.number parts.new.items)) }
{
    make_wide_room(alloc, parts, u128::from(k))
}

/// The same for a wide number.
pub fn make_wide_room<T: Numbered>(
    alloc: Global,
    parts: &mut Vec<Part<T>>,
    k: u128,
) -> Result<(), Memory>
    requires { AreSpread (outlines T.number parts.old.items) }
    ensures spread { AreSpread (outlines T.number parts.new.items) }
    ensures items { all_items parts.new.items ≡ all_items parts.old.items }
    ensures starts { OnOk result (0 < parts_to k (outlines T.number parts.new.items)) }
{
    let i = wide_parts_to(parts, k);
    if i == 0 {
        let items = Rc::new(alloc, Vec::new(alloc)).map_err(|_| Memory)?;
        return insert_part(parts, 0, Part { start: 0, items });
    }
    halve(alloc, parts, i - 1)
}

/// Puts each part into its place.
pub fn install<T: Drop>(parts: &mut Vec<Part<T>>, edits: Vec<Edit<T>>)
    requires { AreWithin (length parts.old.items) edits.items }
    ensures { parts.new.items ≡ installed edits.items parts.old.items }
{
    for edit in edits {
        parts[edit.at] = edit.part;
    }
}
