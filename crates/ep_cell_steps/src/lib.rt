//! Steps of the cells of a state in parts that copies share, and of the index of what their forms mention.
#![tactic(auto)]

pub mod blurs;
pub mod building;
pub mod changes;
pub mod pointers;
pub mod putting;
pub mod weak_writes;
pub mod writes;
