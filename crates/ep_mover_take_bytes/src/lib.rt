//! Bytes that a program that only moves bytes takes into a block: laws alone.
#![tactic(auto)]

ghost use Rattle.ep_mover_take_bytes.specs.Laws.{TakeBytesStand};

use ep_domain::Num;
use ep_mover_input_bytes::mover_input_bytes;

/// Does nothing: its contract is that taking the bytes of a block has no fault on the two machines of a mover, and all
/// is known again after it, over every domain.
pub fn mover_take_bytes<N: Num>()
    ensures { TakeBytesStand N.ops }
{
    mover_input_bytes::<N>();
}
