//! The refusal of an expression.

ghost use Rattle.std.specs.Prelude.{◌≡◌};
ghost use Rattle.ep_ast.specs.Kind.{number_of};
ghost use Rattle.ep_ast.specs.declared.refusals.Halt.TheVariants as halts;
ghost use Rattle.ep_operands.specs.Refinement.{halt_at};

use ep_ast::{Halt, Refusal, RefusalKind};

/// The refusal of a kind at a line.
pub fn refused(kind: RefusalKind, line: u32) -> Halt
    ensures { result ≡ halts.Refused (record { kind = number_of kind; line = line; word = 0 }) }
{
    Halt::Refused(Refusal::new(kind, line))
}

/// The same, but a bit-field where none may stand is named on this line, that of its statement or of a declared name.
pub fn at_statement(line: u32, halt: Halt) -> Halt
    ensures { result ≡ halt_at line halt }
{
    match halt {
        Halt::Memory => Halt::Memory,
        Halt::Refused(refusal) => match refusal.kind {
            RefusalKind::BitFieldPlace => Halt::Refused(Refusal { line, ..refusal }),
            _ => Halt::Refused(refusal),
        },
    }
}
