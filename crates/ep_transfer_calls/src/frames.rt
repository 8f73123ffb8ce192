//! The frames of functions, and what is left of forms where one comes.

ghost use Rattle.std.specs.Prelude.{◌≡◌, ℕ, IfOk, Some};
ghost use Rattle.std.specs.List.{list_all};
ghost use Rattle.ep_cell_rows.specs.Parts.{goes_on};
ghost use Rattle.ep_cells.specs.Forms.{form_after};
ghost use Rattle.ep_core.specs.Exec.{first_of, frame_of};
ghost use Rattle.ep_core.specs.View.{function_view};
ghost use Rattle.ep_int.specs.Memory.{contains};
ghost use Rattle.ep_transfers.specs.Transfers.{fate_off_blocks};
ghost use Rattle.ep_transfers.specs.Writes.{formed_side, formed_pair};

use ep_bitslice::{Form, Segment};
use ep_core::program::Function;
use ep_domain::Num;
use ep_equalities::{PairValue, SideValue};
use ep_int::{Memory, Scalar};
use indexmap::IndexSet;
use std::alloc::Global;

// ---- blocks

fn firsts(alloc: Global, params: &[(u32, Scalar)]) -> Result<Vec<u32>, Memory>
    ensures { IfOk result (λ bs. bs.items ≡ first_of params.now) }
{
    let mut blocks = Vec::new(alloc);
    for p in params {
        blocks.push(p.0).map_err(|_| Memory)?;
    }
    Ok(blocks)
}

/// The parameters and locals of a function.
pub(crate) fn frame(alloc: Global, f: &Function) -> Result<Vec<u32>, Memory>
    ensures { IfOk result (λ bs. bs.items ≡ frame_of (function_view f.now)) }
{
    let mut blocks = firsts(alloc, &f.params)?;
    blocks.extend_from_slice(&f.locals).map_err(|_| Memory)?;
    Ok(blocks)
}

/// The same blocks, to be looked up.
pub(crate) fn members(alloc: Global, blocks: &[u32]) -> Result<IndexSet<u32>, Memory>
    ensures { IfOk result (λ s. (b : ℕ) → contains b s.keys ≡ contains b blocks.now) }
{
    let mut all = IndexSet::new(alloc);
    for b in blocks {
        all.insert(*b).map_err(|_| Memory)?;
    }
    Ok(all)
}

// ---- forms

fn is_off(frame: &IndexSet<u32>, s: &Segment) -> bool
    ensures { result ≡ goes_on (fate_off_blocks frame.now.keys) s.now }
{
    match s {
        Segment::Bits(c, _, _) => !frame.contains(&c.block),
        Segment::Fixed(_, _) => true,
    }
}

fn are_off(frame: &IndexSet<u32>, segments: &[Segment]) -> bool
    ensures { result ≡ list_all (goes_on (fate_off_blocks frame.now.keys)) segments.now }
{
    segments.iter().all(|s| is_off(frame, s))
}

fn some_form_off(frame: &IndexSet<u32>, form: Form) -> Option<Form>
    ensures { result ≡ form_after (fate_off_blocks frame.now.keys) (Some form) }
{
    if are_off(frame, form.segments()) {
        Some(form)
    } else {
        None
    }
}

fn form_off(frame: &IndexSet<u32>, form: Option<Form>) -> Option<Form>
    ensures { result ≡ form_after (fate_off_blocks frame.now.keys) form }
{
    match form {
        None => None,
        Some(form) => some_form_off(frame, form),
    }
}

fn side_off<N: Num>(frame: &IndexSet<u32>, x: SideValue<N>) -> SideValue<N>
    ensures { result ≡ formed_side (form_after (fate_off_blocks frame.now.keys)) x }
{
    SideValue {
        value: x.value,
        form: form_off(frame, x.form),
    }
}

/// A value without the forms that mention blocks of this frame.
pub(crate) fn off_frame<N: Num>(frame: &IndexSet<u32>, v: PairValue<N>) -> PairValue<N>
    ensures { result ≡ formed_pair (form_after (fate_off_blocks frame.now.keys)) v }
{
    PairValue {
        left: side_off(frame, v.left),
        right: side_off(frame, v.right),
        equal: v.equal,
    }
}
