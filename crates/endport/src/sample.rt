//! The report on a source that is generated.

ghost use Rattle.std.specs.Prelude.{◌≡◌, ◌≤◌, IfOk};
ghost use Rattle.endport.specs.Sample.{IsSample};

use crate::jobs::Job;
use crate::report::{CheckAsked, check_job};
use ep_int::{Memory, Model, Order};
use ep_sample::{Sample, sample_source, sample_text};
use std::alloc::Global;

/// A source of so many fields is generated and looked at as `check` looks at a file. The text tells of both.
pub fn sample_job(alloc: Global, sample: Sample) -> Result<Job, Memory>
    requires { sample.fields ≤ 5000 }
    ensures { IfOk result (λ j. IsSample sample.start sample.fields j.status j.text.items) }
{
    let source = sample_source(alloc, sample.start, sample.fields)?;
    let asked = CheckAsked {
        model: Model::Ilp32,
        orders: (Order::Little, Order::Big),
        unroll: 32,
        known_bits: false,
    };
    let report = check_job(alloc, &source, asked)?;
    let text = sample_text(alloc, sample, &source, &report.text)?;
    Ok(Job {
        status: report.status,
        text,
    })
}
