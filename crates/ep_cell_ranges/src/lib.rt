//! Operations on the cells of ranges of places: definitions and laws.
#![tactic(auto)]

mod laws;

pub use laws::{
    blur_each_laws, blur_laws, drop_laws, first_laws, more_kill_laws, more_split_laws,
    more_weak_write_laws, more_write_laws, move_laws, narrow_laws, overwrite_laws, replace_laws,
    shared_laws, taken_laws, test_laws, weak_each_laws,
};
