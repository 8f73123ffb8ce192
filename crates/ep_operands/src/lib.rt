//! Operands and values of expressions: their types, conversions, constants and copies.
#![tactic(auto)]

mod constants;
mod conversions;
mod copies;
mod names;
mod operand;
pub mod pairs;
mod refusals;
mod room;
mod types;
mod value;

pub use constants::{constant_of, count_of};
pub use conversions::{
    are_compatible, are_scalars, as_pointer, as_type, bare, converted, fitted, is_mixed,
    promoted_type, promoted_value, tested, value_of,
};
pub use copies::{copy_expr, copy_operand, copy_place};
pub use names::{built_in, numbered};
pub use operand::{Callee, Operand};
pub use refusals::{at_statement, refused};
pub use room::{as_number, has_room, one_behind};
pub use types::{
    bound_of, element_of, int_of, int_type, is_aggregate, is_array, is_integer, is_pointer,
    is_scalar, is_void, is_void_pointer, known_number, number_of, pointer_to, scalar_of,
    size_of_type, size_type, target, type_of, void_pointer, void_type, whole, with_stars,
};
pub use value::Value;
