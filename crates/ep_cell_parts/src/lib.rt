//! What else is done to the cells of a state in parts that copies share: they are looked up, put together with those of
//! another state, killed, and take other values.
#![tactic(auto)]

pub mod about;
pub mod conditions;
pub mod equals;
pub mod kills;
pub mod places;
pub mod unions;
pub mod values;
