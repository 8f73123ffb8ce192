//! The cells of two states put together, part by part. Parts all of whose cells stay are shared.
#![tactic(auto)]

pub mod staying;
pub mod unions;
