//! Which cells' forms mention which cells.

ghost use Rattle.std.specs.Prelude.{◌≡◌, ◌++◌, ◌∷◌, [], ◌+◌, ◌*◌, ◌≤◌, ◌<◌, suc, length, true, IfOk, OnOk};
ghost use Rattle.std.specs.List.{list_any};
ghost use Rattle.ep_shared_parts.specs.Spread.{outlines, all_items, AreSpread, parts_to};
ghost use Rattle.ep_shared_parts.specs.Mentions.{number_of_use, is_use, IsNoted, AllNoted, users_in, number_of_name};
ghost use Rattle.ep_shared_parts.specs.Mentions.{IsWith};

use crate::parts::{Numbered, Part, make_wide_room, wide_parts_to, wide_window};
use ep_bitslice::{CellName, Segment};
use ep_int::Memory;
use std::alloc::Global;
use std::rc::Rc;

/// The form of a cell mentions a cell: both are told by the numbers of their places.
#[derive(Clone, Copy, Drop)]
pub struct Use {
    pub of: u64,
    pub by: u64,
}

impl Numbered for Use {
    ghost use Rattle.ep_shared_parts.specs.Mentions.{number_of_use};

    ghost number = { number_of_use };

    fn number(&self) -> u128 {
        let _use = *self;
        wide_number(self.of, self.by)
    }

    fn copied(&self) -> Result<Self, Memory> {
        Ok(*self)
    }
}

// The wide number of a use.
fn wide_number(of: u64, by: u64) -> u128
    ensures is { result ≡ 18446744073709551616 * of + by }
    ensures small { by < 18446744073709551616 }
{
    18_446_744_073_709_551_616 * u128::from(of) + u128::from(by)
}

/// The number of the place where the cell of a name begins.
pub fn number_of_name(n: &CellName) -> u64
    ensures { result ≡ number_of_name n.now }
{
    4_294_967_296 * u64::from(n.block) + u64::from(n.offset)
}

fn is_noted(uses: &[Use], u: &Use) -> bool
    ensures { result ≡ list_any (is_use u.now) uses.now }
{
    uses.iter().any(|v| v.of == u.of && v.by == u.by)
}

// The part with one use more, if it isn't there. It comes before those of greater numbers.
fn with_use(alloc: Global, part: &Part<Use>, u: &Use) -> Result<Option<Part<Use>>, Memory>
    ensures { IfOk result (λ p. IsWith u.now part.now p) }
{
    if is_noted(&part.items, u) {
        return Ok(None);
    }
    let k = u.number();
    let at = part.items.partition_point(|v| v.number() < k);
    let mut items = Vec::from_slice(alloc, &part.items).map_err(|_| Memory)?;
    items.insert(at, *u).map_err(|_| Memory)?;
    let items = Rc::new(alloc, items).map_err(|_| Memory)?;
    Ok(Some(Part {
        start: part.start,
        items,
    }))
}

fn add(alloc: Global, parts: &mut Vec<Part<Use>>, i: usize, u: &Use) -> Result<(), Memory>
    requires spread { AreSpread (outlines number_of_use parts.old.items) }
    requires there { suc i ≡ parts_to (number_of_use u.now) (outlines number_of_use parts.old.items) }
    requires within { i < length parts.old.items }
    ensures spread { AreSpread (outlines number_of_use parts.new.items) }
    ensures keeps { (v : Use) → IsNoted (all_items parts.old.items) v → IsNoted (all_items parts.new.items) v }
    ensures noted { OnOk result (IsNoted (all_items parts.new.items) u.now) }
{
    match with_use(alloc, &parts[i], u)? {
        None => Ok(()),
        Some(part) => {
            parts[i] = part;
            Ok(())
        }
    }
}

/// Notes a mention. Nothing is forgotten, whatever the answer.
pub fn note(alloc: Global, parts: &mut Vec<Part<Use>>, u: &Use) -> Result<(), Memory>
    requires { AreSpread (outlines number_of_use parts.old.items) }
    ensures spread { AreSpread (outlines number_of_use parts.new.items) }
    ensures keeps { (v : Use) → IsNoted (all_items parts.old.items) v → IsNoted (all_items parts.new.items) v }
    ensures noted { OnOk result (IsNoted (all_items parts.new.items) u.now) }
{
    let k = u.number();
    make_wide_room(alloc, parts, k)?;
    let i = wide_parts_to(parts, k);
    add(alloc, parts, i - 1, u)
}

/// Notes what a form mentions, where `by` is the number of its cell's place.
pub fn note_form(
    alloc: Global,
    parts: &mut Vec<Part<Use>>,
    form: &[Segment],
    by: u64,
) -> Result<(), Memory>
    requires { AreSpread (outlines number_of_use parts.old.items) }
    ensures spread { AreSpread (outlines number_of_use parts.new.items) }
    ensures keeps { (v : Use) → IsNoted (all_items parts.old.items) v → IsNoted (all_items parts.new.items) v }
    ensures noted { OnOk result (AllNoted (all_items parts.new.items) by form.now) }
{
    for s in form {
        note_segment(alloc, parts, s, by)?;
    }
    Ok(())
}

fn note_segment(
    alloc: Global,
    parts: &mut Vec<Part<Use>>,
    s: &Segment,
    by: u64,
) -> Result<(), Memory>
    requires { AreSpread (outlines number_of_use parts.old.items) }
    ensures spread { AreSpread (outlines number_of_use parts.new.items) }
    ensures keeps { (v : Use) → IsNoted (all_items parts.old.items) v → IsNoted (all_items parts.new.items) v }
    ensures noted { OnOk result (AllNoted (all_items parts.new.items) by (s.now ∷ [])) }
{
    match s {
        Segment::Bits(n, _, _) => note(
            alloc,
            parts,
            &Use {
                of: number_of_name(n),
                by,
            },
        ),
        Segment::Fixed(_, _) => Ok(()),
    }
}

fn push_users(out: &mut Vec<u64>, uses: &[Use], from: u64, last: u64) -> Result<(), Memory>
    ensures { OnOk result (out.new.items ≡ out.old.items ++ users_in from last uses.now) }
{
    for u in uses {
        if from <= u.of && u.of <= last {
            out.push(u.by).map_err(|_| Memory)?;
        }
    }
    Ok(())
}

/// The places whose forms may mention what begins at places with numbers from `from` to `last`.
pub fn users(alloc: Global, parts: &[Part<Use>], from: u64, last: u64) -> Result<Vec<u64>, Memory>
    requires spread { AreSpread (outlines number_of_use parts.now) }
    requires rising { from ≤ last }
    ensures { IfOk result (λ v. v.items ≡ users_in from last (all_items parts.now)) }
{
    let mut out = Vec::new(alloc);
    let first = wide_number(from, 0);
    let end = wide_number(last, u64::MAX);
    for part in wide_window(parts, first, end) {
        push_users(&mut out, &part.items, from, last)?;
    }
    Ok(out)
}
