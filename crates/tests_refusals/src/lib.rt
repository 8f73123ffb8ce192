//! Tests of what is refused: common C, with what to write instead, sources past the limits, and bit-fields.
#![tactic(auto)]

#[cfg(test)]
mod fields;
#[cfg(test)]
mod idioms;
#[cfg(test)]
mod leanings;
#[cfg(test)]
mod limits;
#[cfg(test)]
mod tells;
