//! Which pages of bytes may have one that isn't undefined.

ghost use Rattle.std.specs.Prelude.{◌≡◌, ℕ, ◌+◌, ◌*◌, ◌<◌, ◌≤◌, ◌⊎◌, true, false};
ghost use Rattle.std.specs.Prelude.{slice_index_or};
ghost use Rattle.ep_bytes.specs.declared.types.Byte.TheVariants.{Undefined};
ghost use Rattle.ep_bytes.specs.Cells.{is_used};

use crate::types::Byte;
use std::alloc::AllocError;

/// A page has so many bytes.
pub(crate) const PAGE: usize = 1024;

/// Notes the page that begins behind so many bytes, if one does: none of its bytes is written.
pub(crate) fn begin(used: &mut Vec<bool>, count: usize) -> Result<(), AllocError>
    ensures { (i : ℕ) → is_used used.new.items i ≡ false → (is_used used.old.items i ≡ false) ⊎ (count ≤ i) }
{
    if count % PAGE != 0 || count / PAGE != used.len() {
        return Ok(());
    }
    used.push(false)?;
    Ok(())
}

/// Notes that a byte comes to a place.
pub(crate) fn note(used: &mut Vec<bool>, at: usize, byte: Byte)
    ensures own { is_used used.new.items at ≡ false → byte ≡ Undefined }
    ensures others { (i : ℕ) → is_used used.new.items i ≡ false → is_used used.old.items i ≡ false }
{
    match byte {
        Byte::Undefined => {}
        Byte::Number(_) => mark(used, at / PAGE),
        Byte::Fragment(_, _, _) => mark(used, at / PAGE),
    }
}

fn mark(used: &mut Vec<bool>, page: usize)
    ensures own { slice_index_or used.new.items page true ≡ true }
    ensures others { (q : ℕ) →
        slice_index_or used.new.items q true ≡ false → slice_index_or used.old.items q true ≡ false }
{
    if page >= used.len() {
        return;
    }
    used[page] = true;
}

/// Whether a byte of a page may be other than undefined.
pub(crate) fn may_hold(used: &[bool], page: usize) -> bool
    ensures { result ≡ slice_index_or used.now page true }
{
    match used.get(page) {
        Some(is_used) => *is_used,
        None => true,
    }
}

/// Notes that each byte of a page is undefined.
pub(crate) fn forget_page(used: &mut Vec<bool>, page: usize)
    ensures { (i : ℕ) → is_used used.new.items i ≡ false → (is_used used.old.items i ≡ false)
        ⊎ ((page * 1024 ≤ i) × (i < page * 1024 + 1024)) }
{
    if page >= used.len() {
        return;
    }
    used[page] = false;
}
