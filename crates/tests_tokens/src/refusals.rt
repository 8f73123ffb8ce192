//! Sources that aren't cut into tokens.

use ep_ast::{Halt, Refusal, RefusalKind, ReservedWord, refusal_text};
use ep_int::Memory;
use std::alloc::AllocError;
use std::test::Fail;

#[test]
fn writes_a_refusal(rt: HostRuntime) -> Result<(), Fail> {
    for (kind, line, word, want) in [
        (
            RefusalKind::ReservedWord,
            3,
            Some(ReservedWord::Goto),
            "3: refused 8 reserved-word goto\n",
        ),
        (
            RefusalKind::ReservedWord,
            1,
            Some(ReservedWord::ThreadLocal),
            "1: refused 8 reserved-word _Thread_local\n",
        ),
        (RefusalKind::Recursion, 2, None, "2: refused 35 recursion\n"),
        (
            RefusalKind::PointerToInteger,
            1,
            None,
            "1: refused 34 pointer-to-integer\n",
        ),
        (
            RefusalKind::Nesting,
            1048577,
            None,
            "1048577: refused 22 nesting\n",
        ),
    ] {
        let text = refusal_text(rt.alloc(), &Refusal { kind, line, word })?;
        assert_eq!(rt; text.as_slice(), want.as_bytes());
    }
    Ok(())
}

#[test]
fn ends_in_want_of_memory(rt: HostRuntime) -> Result<(), Fail> {
    let from_box: Halt = AllocError.into();
    assert!(rt; matches!(from_box, Halt::Memory));
    let from_call: Halt = Memory.into();
    assert!(rt; matches!(from_call, Halt::Memory));
    Ok(())
}
