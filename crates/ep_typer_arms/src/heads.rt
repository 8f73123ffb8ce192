//! Whether two heads have the same names.

ghost use Rattle.std.specs.Prelude.{◌≡◌, map};
ghost use Rattle.std.specs.Option.{option_map};
ghost use Rattle.ep_ast.specs.Declaration as shape;
ghost use Rattle.ep_elaboration.specs.Functions as rule;

use ep_ast::{HeadTree, ParamTree};
use ep_typer_functions::params_of;

fn is_same_text(a: &Option<Vec<u8>>, b: &Option<Vec<u8>>) -> bool
    ensures { result ≡ rule.is_same_text (option_map shape.text_of a.now) (option_map shape.text_of b.now) }
{
    match a {
        None => match b {
            None => true,
            Some(_) => false,
        },
        Some(text) => match b {
            None => false,
            Some(other) => text.as_slice() == other.as_slice(),
        },
    }
}

fn is_same_name(a: &ParamTree, b: &ParamTree) -> bool
    ensures { result ≡ rule.is_same_text (shape.param_of a.now).name (shape.param_of b.now).name }
{
    is_same_text(&a.name, &b.name)
}

// Parameters of the same names in the same order.
fn have_same_names(a: &[ParamTree], b: &[ParamTree]) -> bool
    ensures { result ≡ rule.have_same_names (map shape.param_of a.now) (map shape.param_of b.now) }
{
    if a.len() != b.len() {
        return false;
    }
    for (place, param) in a.iter().enumerate() {
        if !is_same_name(param, &b[place]) {
            return false;
        }
    }
    true
}

/// Whether two heads have the same name, and their parameters too.
pub(crate) fn are_named_alike(first: &HeadTree, second: &HeadTree) -> bool
    ensures { result ≡ rule.are_named_alike (shape.head_of first.now) (shape.head_of second.now) }
{
    let names = first.name.as_slice() == second.name.as_slice();
    names & have_same_names(params_of(&first.params), params_of(&second.params))
}
