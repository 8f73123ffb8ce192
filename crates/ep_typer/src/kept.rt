//! What items add to what was kept of those before.

ghost use Rattle.std.specs.Prelude.{◌≡◌, ℕ, List, [], ◌∷◌, ◌++◌, map, OnOk};
ghost use Rattle.std.specs.Option.{option_map};
ghost use Rattle.ep_ast.specs.Statement.{function_of, functions_of};
ghost use Rattle.ep_defined.specs.View as view;
ghost use Rattle.ep_elaboration.specs.Functions.{numbers_of};
ghost use Rattle.ep_elaboration.specs.Programs as rule;
ghost use Rattle.ep_typer_functions.specs.View.{AreDone};

use ep_ast::FunctionTree;
use ep_core::program::InitByte;
use ep_defined::Defined;
use ep_int::Memory;
use ep_typer_functions::Done;
use std::alloc::AllocError;

/// First values behind the others.
pub(crate) fn add_values(values: &mut Vec<InitByte>, more: Vec<InitByte>) -> Result<(), AllocError>
    ensures { OnOk result (values.new.items ≡ values.old.items ++ more.items) }
{
    for value in more {
        values.push(value)?;
    }
    Ok(())
}

/// A function that has a body, behind the others.
pub(crate) fn add_function(
    defined: &mut Vec<Defined>,
    done: &mut Done,
    one: Defined,
) -> Result<(), Memory>
    requires { AreDone done.old (numbers_of (map view.defined defined.old.items)) }
    ensures added { OnOk result (defined.new.items ≡ defined.old.items ++ one ∷ []) }
    ensures done { OnOk result (AreDone done.new (numbers_of (map view.defined defined.new.items))) }
{
    done.add(one.number)?;
    match defined.push(one) {
        Ok(()) => Ok(()),
        Err(_) => Err(Memory),
    }
}

/// Functions that have a body, behind the others.
pub(crate) fn add_functions(
    defined: &mut Vec<Defined>,
    done: &mut Done,
    more: Vec<Defined>,
) -> Result<(), Memory>
    requires { AreDone done.old (numbers_of (map view.defined defined.old.items)) }
    ensures added { OnOk result (defined.new.items ≡ defined.old.items ++ more.items) }
    ensures done { OnOk result (AreDone done.new (numbers_of (map view.defined defined.new.items))) }
{
    for one in more {
        add_function(defined, done, one)?;
    }
    Ok(())
}

/// The functions of an arm; there are none where there is no `#else`.
pub(crate) fn functions_in(arm: &Option<Vec<FunctionTree>>) -> &[FunctionTree]
    ensures { map function_of result.now ≡ rule.functions_in (option_map functions_of arm.now) }
{
    match arm {
        Some(functions) => functions,
        None => &[],
    }
}
