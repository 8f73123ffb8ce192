//! The analyser itself: from the words of a call to the text that it writes.
#![tactic(auto)]

mod commands;
mod jobs;
mod prove;
mod report;
mod sample;
mod status;
mod top;
mod verify;

pub use jobs::{Job, RunAsked, layout_job, refusal_job, run_job};
pub use prove::{ProveAsked, prove_job};
pub use report::{CheckAsked, check_job};
pub use sample::sample_job;
pub use status::Status;
pub use top::endport;
pub use verify::verify_job;
