//! What is read on a side, and on both, joined.

ghost use Rattle.std.specs.Prelude.{◌≡◌, IfOk};
ghost use Rattle.ep_evaluation.specs.Accesses.{joined_reads, form_of_reads};
ghost use Rattle.ep_transfers.specs.Copies as spec;
ghost use Rattle.ep_transfer_writes.specs.Waiting.{item_view};

use ep_bitslice::Form;
use ep_cell_rows::values::{Union, copy_form};
use ep_cells::Value;
use ep_domain::Num;
use ep_equalities::{PairValue, SideValue, same};
use ep_int::Memory;
use ep_reads::ReadValue;
use ep_transfer_writes::Item;

fn joined_reads<N: Num>(reads: &[ReadValue<N>]) -> Result<Option<Value<N>>, Memory>
    ensures { IfOk result (λ v. v ≡ joined_reads N.ops reads.now) }
{
    let mut sofar: Option<Value<N>> = None;
    for r in reads {
        let next = Union::Join.values(&sofar, &r.value)?;
        sofar = next;
    }
    Ok(sofar)
}

fn form_of_reads<N: Num>(reads: &[ReadValue<N>]) -> Option<Form>
    ensures { result ≡ form_of_reads reads.now }
{
    match reads {
        [] => None,
        [r] => copy_form(&r.form),
        [_, _, ..] => None,
    }
}

fn some_maybe<N: Num>(reads: &[ReadValue<N>]) -> bool
    ensures { result ≡ spec.some_maybe N.ops reads.now }
{
    reads.iter().any(|r| r.maybe)
}

fn joined_sources<N: Num>(reads: &[ReadValue<N>]) -> Result<SideValue<N>, Memory>
    ensures { IfOk result (λ x. x ≡ spec.joined_sources N.ops reads.now) }
{
    Ok(SideValue {
        value: joined_reads(reads)?,
        form: form_of_reads(reads),
    })
}

fn without_forms<N: Num>(pair: PairValue<N>) -> PairValue<N>
    ensures { result ≡ spec.without_forms N.ops pair }
{
    PairValue {
        left: SideValue {
            value: pair.left.value,
            form: None,
        },
        right: SideValue {
            value: pair.right.value,
            form: None,
        },
        equal: false,
    }
}

/// What a piece writes, of what is read for it on both sides.
pub(crate) fn piece_item<N: Num>(
    joint: bool,
    left: &[ReadValue<N>],
    right: &[ReadValue<N>],
    shared: bool,
) -> Result<Item<N>, Memory>
    ensures { IfOk result (λ i. item_view i ≡ spec.piece_item N.ops joint left.now right.now shared) }
{
    let pair = PairValue {
        left: joined_sources(left)?,
        right: joined_sources(right)?,
        equal: shared,
    };
    let same = joint && same(&pair);
    Ok(Item {
        pair: without_forms(pair),
        left_maybe: some_maybe(left),
        right_maybe: some_maybe(right),
        same,
    })
}
