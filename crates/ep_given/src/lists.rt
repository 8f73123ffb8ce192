//! What first values come to, and lists of them.

ghost use Rattle.std.specs.Prelude.{◌≡◌, ℕ, ◌∷◌, [], OnOk, IfOk, Some};
ghost use Rattle.std.specs.Option.{option_map, option_to_list};
ghost use Rattle.ep_ast.specs.Declaration as tree;
ghost use Rattle.ep_core.specs.View.{init_view, what_view};
ghost use Rattle.ep_declared.specs.View as objects;
ghost use Rattle.ep_elaboration.specs.Given as rule;
ghost use Rattle.ep_given.specs.View as view;

use ep_ast::ValueTree;
use ep_core::program::InitByte;
use ep_core::tree::What;
use ep_declared::Object;
use ep_layout::Types;
use ep_operands::copy_place;
use ep_scopes::type_number;
use std::alloc::{AllocError, Global};

/// Statements that store first values, and of a global the numbers that its bytes begin with.
#[derive(Drop)]
pub struct Given {
    pub statements: Vec<What>,
    pub values: Vec<InitByte>,
}

impl Given {
    /// No first values.
    pub fn new(alloc: Global) -> Given
        ensures { view.given result ≡ rule.nothing_given }
    {
        Given {
            statements: Vec::new(alloc),
            values: Vec::new(alloc),
        }
    }

    /// One value more.
    pub(crate) fn add(&mut self, statement: What, value: Option<InitByte>) -> Result<(), AllocError>
        ensures { OnOk result (view.given self.new ≡ rule.both_given (view.given self.old) (record {
          statements = what_view statement ∷ [];
          values = option_to_list (option_map init_view value);
        })) }
    {
        self.statements.push(statement)?;
        match value {
            None => Ok(()),
            Some(init) => match self.values.push(init) {
                Ok(()) => Ok(()),
                Err(_) => Err(AllocError),
            },
        }
    }
}

fn count_of_list(value: &ValueTree) -> Option<usize>
    ensures { result ≡ rule.count_listed (Some (tree.value_of value.now)) }
{
    match value {
        ValueTree::Expr(_) => None,
        ValueTree::List(_, values) => Some(values.len()),
    }
}

/// How many values a list in braces has, if it is one.
pub fn count_listed(value: &Option<ValueTree>) -> Option<usize>
    ensures { result ≡ rule.count_listed (option_map tree.value_of value.now) }
{
    match value {
        None => None,
        Some(value) => count_of_list(value),
    }
}

fn with_clear(alloc: Global, types: &Types, x: &Object, given: Given) -> Result<Given, AllocError>
    ensures { IfOk result (λ g. (l : ℕ) (vs : tree.Values) → view.given g
        ≡ rule.cleared types.now (objects.object x.now) (tree.listed l vs) (view.given given)) }
{
    let place = copy_place(alloc, &x.place)?;
    let clear = What::Clear(place, type_number(types, x.ty));
    let mut statements = given.statements;
    statements.insert(0, clear)?;
    Ok(Given {
        statements,
        values: given.values,
    })
}

/// The same behind a statement that clears the object, where a list gives the first values.
pub fn cleared(
    alloc: Global,
    types: &Types,
    x: &Object,
    value: &ValueTree,
    given: Given,
) -> Result<Given, AllocError>
    ensures { IfOk result (λ g. view.given g
        ≡ rule.cleared types.now (objects.object x.now) (tree.value_of value.now) (view.given given)) }
{
    match value {
        ValueTree::Expr(_) => Ok(given),
        ValueTree::List(_, _) => with_clear(alloc, types, x, given),
    }
}
