//! Steps of cells in parts that copies share: one cell split, killed or blurred, and the forms that mention it.
#![tactic(auto)]

mod alone;
mod blur;
pub mod cells;
pub mod changes;
pub mod owned;
mod unsharing;
