//! Bytes that a program that only moves bytes puts out, one after another: laws alone.
#![tactic(auto)]

ghost use Rattle.ep_mover_put_bytes.specs.Laws.{PutBytesStand};

use ep_domain::Num;

/// Does nothing: its contract is that a statement of a mover that puts out bytes has no fault where both machines have
/// put out the same bytes, and all is known again after it, over every domain.
pub fn mover_put_bytes<N: Num>()
    ensures { PutBytesStand N.ops }
{}
