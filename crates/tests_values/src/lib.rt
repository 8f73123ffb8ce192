//! Tests of forms and reports, as tables.
#![tactic(auto)]

#[cfg(test)]
mod alarms;
#[cfg(test)]
mod forms;
