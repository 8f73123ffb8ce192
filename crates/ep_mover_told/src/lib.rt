//! Bytes are told apart by the inputs. Laws alone.
#![tactic(auto)]

ghost use Rattle.ep_mover_told.specs.Laws.{NumbersTellBytes};

/// Does nothing: its contract is that bytes which are one number whatever the inputs are, are the same.
pub fn numbers_tell()
    ensures { NumbersTellBytes }
{}
