//! The items of a text.

ghost use Rattle.std.specs.Prelude.{◌≡◌, List, Option, map, OnOk};
ghost use Rattle.ep_ast.specs.Declaration.{aggregate_of, declaration_of, head_of, typedef_of};
ghost use Rattle.ep_ast.specs.Statement as tree_of;
ghost use Rattle.ep_declared.specs.Refinement.{Adds};
ghost use Rattle.ep_defined.specs.View as view;
ghost use Rattle.ep_elaboration.specs.Functions.{numbers_of};
ghost use Rattle.ep_elaboration.specs.Programs as rule;
ghost use Rattle.ep_elaboration.specs.ProgramSteps as steps;
ghost use Rattle.ep_scopes.specs.Known.{IsKnownEnv};
ghost use Rattle.ep_typer_arms.specs.FileEnvironments.{IsBehind};
ghost use Rattle.ep_typer_functions.specs.View.{AreDone};

use crate::kept::{add_function, add_functions, add_values, functions_in};
use ep_ast::{
    AggregateTree, DeclarationTree, FunctionTree, Halt, HeadTree, ItemTree, NamedOrder, TypedefTree,
};
use ep_declared::{body_declared, specs_declared, types_declared};
use ep_defined::Sofar;
use ep_typer_arms::arms_defined;
use ep_typer_declarations::declaration;
use ep_typer_functions::{Done, function_defined, prototype};

#[tactic(auto, unfolding(ep_elaboration::specs::ProgramSteps::item))]
fn typedefs(sofar: &mut Sofar, tree: &TypedefTree) -> Result<(), Halt>
    requires { IsKnownEnv (view.sofar sofar.old).env }
    ensures means { Adds (steps.item (view.sofar sofar.old) (tree_of.typedefs (typedef_of tree.now)))
        (view.sofar sofar.new) result }
    ensures known { OnOk result (IsKnownEnv (view.sofar sofar.new).env) }
    ensures same { OnOk result (sofar.new.defined ≡ sofar.old.defined) }
{
    let c = specs_declared(&mut sofar.env, &tree.specs)?;
    types_declared(&mut sofar.env, c, &tree.declarators)?;
    Ok(())
}

#[tactic(auto, unfolding(ep_elaboration::specs::ProgramSteps::item))]
fn declares(sofar: &mut Sofar, done: &Done, head: &HeadTree) -> Result<(), Halt>
    requires known { IsKnownEnv (view.sofar sofar.old).env }
    requires done { AreDone done.now (numbers_of (view.sofar sofar.old).defined) }
    ensures means { Adds (steps.item (view.sofar sofar.old) (tree_of.prototype (head_of head.now)))
        (view.sofar sofar.new) result }
    ensures known { OnOk result (IsKnownEnv (view.sofar sofar.new).env) }
    ensures same { OnOk result (sofar.new.defined ≡ sofar.old.defined) }
{
    prototype(&mut sofar.env, done, head)?;
    Ok(())
}

#[tactic(auto, unfolding(ep_elaboration::specs::ProgramSteps::item))]
fn declares_all(sofar: &mut Sofar, tree: &DeclarationTree) -> Result<(), Halt>
    requires { IsKnownEnv (view.sofar sofar.old).env }
    ensures means { Adds (steps.item (view.sofar sofar.old) (tree_of.declares_all (declaration_of tree.now)))
        (view.sofar sofar.new) result }
    ensures known { OnOk result (IsKnownEnv (view.sofar sofar.new).env) }
    ensures same { OnOk result (sofar.new.defined ≡ sofar.old.defined) }
{
    let made = declaration(&mut sofar.env, true, true, tree)?;
    add_values(&mut sofar.values, made.values)?;
    Ok(())
}

#[tactic(auto, unfolding(ep_elaboration::specs::ProgramSteps::item))]
fn completes(sofar: &mut Sofar, tree: &AggregateTree) -> Result<(), Halt>
    requires { IsKnownEnv (view.sofar sofar.old).env }
    ensures means { Adds (steps.item (view.sofar sofar.old) (tree_of.completes (aggregate_of tree.now)))
        (view.sofar sofar.new) result }
    ensures known { OnOk result (IsKnownEnv (view.sofar sofar.new).env) }
    ensures same { OnOk result (sofar.new.defined ≡ sofar.old.defined) }
{
    body_declared(&mut sofar.env, tree)?;
    Ok(())
}

#[tactic(auto, unfolding(ep_elaboration::specs::ProgramSteps::item))]
fn defines(sofar: &mut Sofar, done: &mut Done, tree: &FunctionTree) -> Result<(), Halt>
    requires known { IsKnownEnv (view.sofar sofar.old).env }
    requires done { AreDone done.old (numbers_of (view.sofar sofar.old).defined) }
    ensures means { Adds (steps.item (view.sofar sofar.old) (tree_of.defines (tree_of.function_of tree.now)))
        (view.sofar sofar.new) result }
    ensures known { OnOk result (IsKnownEnv (view.sofar sofar.new).env) }
    ensures done { OnOk result (AreDone done.new (numbers_of (view.sofar sofar.new).defined)) }
{
    let one = function_defined(&mut sofar.env, done, tree)?;
    add_function(&mut sofar.defined, done, one)?;
    Ok(())
}

#[tactic(auto, unfolding(ep_elaboration::specs::ProgramSteps::item))]
fn defines_by_order(
    sofar: &mut Sofar,
    done: &mut Done,
    line: u32,
    order: NamedOrder,
    then: &[FunctionTree],
    otherwise: &[FunctionTree],
) -> Result<(), Halt>
    requires behind { IsBehind (view.sofar sofar.old) }
    requires known { IsKnownEnv (view.sofar sofar.old).env }
    requires done { AreDone done.old (numbers_of (view.sofar sofar.old).defined) }
    ensures means { (arm : Option (List tree_of.Function))
        → rule.functions_in arm ≡ map tree_of.function_of otherwise.now
        → Adds (steps.item (view.sofar sofar.old)
        (tree_of.functions_by_order line order (map tree_of.function_of then.now) arm))
        (view.sofar sofar.new) result }
    ensures known { OnOk result (IsKnownEnv (view.sofar sofar.new).env) }
    ensures done { OnOk result (AreDone done.new (numbers_of (view.sofar sofar.new).defined)) }
{
    let more = arms_defined(&mut sofar.env, done, line, order, then, otherwise)?;
    add_functions(&mut sofar.defined, done, more)?;
    Ok(())
}

/// An item, behind those of its text before it.
pub fn item(sofar: &mut Sofar, done: &mut Done, tree: &ItemTree) -> Result<(), Halt>
    requires behind { IsBehind (view.sofar sofar.old) }
    requires known { IsKnownEnv (view.sofar sofar.old).env }
    requires done { AreDone done.old (numbers_of (view.sofar sofar.old).defined) }
    ensures means { Adds (steps.item (view.sofar sofar.old) (tree_of.item_of tree.now)) (view.sofar sofar.new) result }
    ensures known { OnOk result (IsKnownEnv (view.sofar sofar.new).env) }
    ensures done { OnOk result (AreDone done.new (numbers_of (view.sofar sofar.new).defined)) }
{
    match tree {
        ItemTree::Typedef(types) => {
            typedefs(sofar, types)?;
            Ok(())
        }
        ItemTree::Function(function) => {
            defines(sofar, done, function)?;
            Ok(())
        }
        ItemTree::Prototype(head) => {
            declares(sofar, done, head)?;
            Ok(())
        }
        ItemTree::Declaration(objects) => {
            declares_all(sofar, objects)?;
            Ok(())
        }
        ItemTree::Aggregate(aggregate) => {
            completes(sofar, aggregate)?;
            Ok(())
        }
        ItemTree::Arms(line, order, then, otherwise) => {
            let others = functions_in(otherwise);
            defines_by_order(sofar, done, *line, *order, then, others)?;
            Ok(())
        }
    }
}

/// Items one after another, behind those of their text before them.
#[tactic(auto, unfolding(ep_elaboration::specs::ProgramSteps::items))]
pub fn items(sofar: &mut Sofar, done: &mut Done, list: &[ItemTree]) -> Result<(), Halt>
    requires behind { IsBehind (view.sofar sofar.old) }
    requires known { IsKnownEnv (view.sofar sofar.old).env }
    requires done { AreDone done.old (numbers_of (view.sofar sofar.old).defined) }
    ensures means { Adds (steps.items (view.sofar sofar.old) (map tree_of.item_of list.now)) (view.sofar sofar.new)
        result }
    ensures behind { OnOk result (IsBehind (view.sofar sofar.new)) }
    ensures known { OnOk result (IsKnownEnv (view.sofar sofar.new).env) }
    ensures done { OnOk result (AreDone done.new (numbers_of (view.sofar sofar.new).defined)) }
{
    for tree in list {
        item(sofar, done, tree)?;
    }
    Ok(())
}
