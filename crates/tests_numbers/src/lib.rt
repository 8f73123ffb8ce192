//! Tests of integers and of intervals, as tables.
#![tactic(auto)]

#[cfg(test)]
mod arithmetic;
#[cfg(test)]
mod faults;
#[cfg(test)]
mod intervals;
