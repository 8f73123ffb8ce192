//! Bit-fields: which bits of which unit each one is, and the statements that read and write one.
#![tactic(auto)]

mod access;
mod field;
mod laws;
mod units;

pub use access::{get, set};
pub use field::{Field, is_field, is_unit_type};
pub use laws::access_laws;
pub use units::pack;
