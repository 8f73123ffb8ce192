//! Reading what pointers may be.

ghost use Rattle.std.specs.Prelude.{◌≡◌, ◌<◌, ◌≤◌, length, drop, IfOk};
ghost use Rattle.std.specs.Option.{option_map};
ghost use Rattle.ep_pointers.specs.Value.{IsRising};
ghost use Rattle.ep_cert_cells.specs.Reading.{target_at, list_at, is_below, rises, some_pointer, pointer_of};
ghost use Rattle.ep_cert_cells.specs.Reading.{pointer_at, before, Answers};

use crate::Unread;
use crate::bytes::{flag_at, four};
use crate::numbers::{Numbers, number_at};
use ep_int::Memory;
use ep_pointers::PtrValue;
use std::alloc::Global;

type Target = (u32, Numbers);

#[tactic(auto, unfolding(crate::specs::Reading::target_at))]
fn target_at(bytes: &[u8]) -> Option<(Target, &[u8])>
    ensures { option_map (λ p. (p.0, p.1.now)) result ≡ target_at bytes.now }
{
    let (block, rest) = four(bytes)?;
    match number_at(rest) {
        None => None,
        Some((offsets, rest)) => Some(((block, offsets), rest)),
    }
}

fn targets(alloc: Global, count: u32, bytes: &[u8]) -> Result<(Vec<Target>, &[u8]), Unread>
    ensures { Answers (λ p. (p.0.items, p.1.now)) result (list_at target_at count bytes.now) }
{
    let mut targets = Vec::new(alloc);
    let mut rest = bytes;
    for _ in 0..count {
        match target_at(rest) {
            None => return Err(Unread::Misspelled),
            Some((one, behind)) => {
                targets.push(one)?;
                rest = behind;
            }
        }
    }
    Ok((targets, rest))
}

fn is_below(block: u32, targets: &[Target]) -> bool
    ensures { result ≡ is_below block targets.now }
{
    match targets {
        [] => true,
        [first, ..] => block < first.0,
    }
}

fn after(targets: &[Target], count: usize) -> &[Target]
    requires { count ≤ length targets.now }
    ensures { result.now ≡ drop count targets.now }
{
    targets.split_at(count).1
}

fn rises(targets: &[Target]) -> bool
    ensures { result ≡ rises targets.now }
{
    for i in 0..targets.len() {
        if !is_below(targets[i].0, after(targets, i + 1)) {
            return false;
        }
    }
    true
}

// Null and these targets, or the targets alone.
fn some_pointer(
    alloc: Global,
    null: bool,
    targets: Vec<Target>,
) -> Result<Option<PtrValue<Numbers>>, Memory>
    requires { IsRising targets.items }
    ensures { IfOk result (λ o. o ≡ some_pointer null targets.items) }
{
    let other = PtrValue::of_targets(targets);
    if !null {
        return Ok(other);
    }
    let null = PtrValue::null(alloc);
    match other {
        None => Ok(Some(null)),
        Some(other) => Ok(Some(null.join(&other)?)),
    }
}

#[tactic(auto, unfolding(crate::specs::Reading::pointer_of), using(crate::proofs::Rising::rising_from))]
fn pointer_of<'a>(
    alloc: Global,
    null: bool,
    targets: Vec<Target>,
    rest: &'a [u8],
) -> Result<(PtrValue<Numbers>, &'a [u8]), Unread>
    ensures { Answers (λ p. (p.0, p.1.now)) result (before (pointer_of null targets.items) rest.now) }
{
    if !rises(&targets) {
        return Err(Unread::Misspelled);
    }
    match some_pointer(alloc, null, targets)? {
        None => Err(Unread::Misspelled),
        Some(pointer) => Ok((pointer, rest)),
    }
}

/// Whether it may be null, and its targets.
#[tactic(auto, unfolding(crate::specs::Reading::pointer_at))]
pub(crate) fn pointer_at(alloc: Global, bytes: &[u8]) -> Result<(PtrValue<Numbers>, &[u8]), Unread>
    ensures { Answers (λ p. (p.0, p.1.now)) result (pointer_at bytes.now) }
{
    let Some((null, rest)) = flag_at(bytes) else {
        return Err(Unread::Misspelled);
    };
    let Some((count, rest)) = four(rest) else {
        return Err(Unread::Misspelled);
    };
    match targets(alloc, count, rest) {
        Err(why) => Err(why),
        Ok((targets, rest)) => pointer_of(alloc, null, targets, rest),
    }
}
