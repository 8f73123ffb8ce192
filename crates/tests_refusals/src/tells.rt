//! What a call tells.

use std::alloc::Global;
use std::process::Abort;
use std::test::Fail;
use tests_calls::{Case, Status, call};

pub(crate) fn expect(
    rt: &impl Abort,
    alloc: Global,
    case: &Case,
    status: Status,
    text: &str,
) -> Result<(), Fail> {
    let (ended, written) = call(alloc, case)?;
    assert_eq!(rt; ended, status);
    assert_eq!(rt; written.as_slice(), text.as_bytes());
    Ok(())
}
