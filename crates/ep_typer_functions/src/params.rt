//! Parameters of functions.

ghost use Rattle.std.specs.Prelude.{◌≡◌, ◌+◌, ◌≤◌, ◌^◌, map, IfErr, IfOk, IsFalse, OnOk, length};
ghost use Rattle.ep_ast.specs.declared.refusals.Halt.TheVariants as halts;
ghost use Rattle.std.specs.Option.{option_map};
ghost use Rattle.ep_ast.specs.Declaration.{param_of, text_of};
ghost use Rattle.ep_ast.specs.Expression as source;
ghost use Rattle.ep_layout.specs.Grown.{GrownFrom};
ghost use Rattle.ep_layout.specs.Table.{Grows};
ghost use Rattle.ep_typing.specs.Results.{at};
ghost use Rattle.ep_declared.specs.Refinement.{OnAnswer, RefinesIn};
ghost use Rattle.ep_elaboration.specs.Functions as rule;
ghost use Rattle.ep_operands.specs.Refinement.{Refines};
ghost use Rattle.ep_scopes.specs.Comes.{Comes};
ghost use Rattle.ep_scopes.specs.Known.{IsKnown, IsKnownEnv};
ghost use Rattle.ep_scopes.specs.View.{env as env_view};
ghost use Rattle.ep_typing.specs.Types as types_of;
ghost use Rattle.ep_typer_functions.specs.View.{adjusted, counts_of, passable_type};

use ep_ast::{ExprTree, Halt, ParamTree, RefusalKind};
use ep_declared::{arrays_of, bound, bounds, declare_name, is_taken, words_declared};
use ep_int::Memory;
use ep_layout::Types;
use ep_operands::{
    element_of, is_aggregate, is_array, is_void, one_behind, pointer_to, refused, size_of_type,
    with_stars,
};
use ep_scopes::{Env, Meaning, add_type};
use ep_typing::CType;

// The counts of an array, or nothing where the parameter is none.
#[tactic(auto, unfolding(ep_elaboration::specs::Functions::param_bounds))]
fn param_bounds(
    env: &mut Env,
    line: u32,
    list: &[Option<ExprTree>],
) -> Result<Option<Vec<u32>>, Halt>
    requires { IsKnownEnv (env_view env.old) }
    ensures means { RefinesIn counts_of
        (rule.param_bounds (env_view env.old) line (map (option_map source.expr) list.now))
        (env_view env.new) result }
    ensures known { OnOk result (IsKnownEnv (env_view env.new)) }
    ensures grown { OnOk result (Grows (env_view env.old).types (env_view env.new).types) }
    ensures comes { OnAnswer result (Comes (env_view env.old) (env_view env.new)) }
{
    match list.split_first() {
        None => Ok(None),
        Some((first, rest)) => match first {
            None => {
                let counts = bounds(env, line, rest)?;
                Ok(Some(counts))
            }
            Some(e) => {
                bound(env, line, e)?;
                let counts = bounds(env, line, rest)?;
                Ok(Some(counts))
            }
        },
    }
}

// A type comes into the table, which goes on to have what it had.
pub(crate) fn add(types: &mut Types, c: CType) -> Result<(), Memory>
    requires { IsKnown types.old c }
    ensures means { OnOk result (types.new ≡ types_of.with_c_type types.old c) }
    ensures inside { OnOk result (IsKnown types.new c) }
    ensures grown { OnOk result (Grows types.old types.new) }
{
    add_type(types, c)?;
    Ok(())
}

// The type of a parameter that isn't declared as an array.
fn adjusted(types: &Types, c: CType) -> Result<CType, Halt>
    requires { IsKnown types.now c }
    ensures means { IfOk result (λ d. d ≡ adjusted types.now c) }
    ensures inside { IfOk result (IsKnown types.now) }
    ensures wants { IfErr result (λ e. e ≡ halts.Memory) }
{
    // What the table's elements are made of is in the table, since it was built: this call says so.
    types.model();
    if is_array(c) {
        let d = pointer_to(element_of(types, c))?;
        return Ok(d);
    }
    Ok(c)
}

#[tactic(auto, unfolding(ep_elaboration::specs::Functions::param_type))]
fn param_type(
    types: &mut Types,
    line: u32,
    c: CType,
    counts: &Option<Vec<u32>>,
) -> Result<CType, Halt>
    requires { IsKnown types.old c }
    ensures means { RefinesIn (λ d. d) (at line (rule.param_type types.old c (counts_of counts.now))) types.new result }
    ensures inside { IfOk result (λ d. IsKnown types.new d) }
    ensures grown { OnOk result (Grows types.old types.new) }
    ensures comes { OnAnswer result (GrownFrom types.old types.new) }
{
    match counts {
        Some(counts) => {
            let elements = arrays_of(types, c, line, counts)?;
            match size_of_type(types, elements) {
                None => Err(refused(RefusalKind::IncompleteType, line)),
                Some(_) => {
                    let d = pointer_to(elements)?;
                    add(types, d)?;
                    Ok(d)
                }
            }
        }
        None => {
            let d = adjusted(types, c)?;
            add(types, d)?;
            Ok(d)
        }
    }
}

// An incomplete type before a structure by value, where a type isn't passed.
fn passable(line: u32, c: CType) -> Result<CType, Halt>
    ensures { Refines (λ d. d) (at line (passable_type c)) result }
{
    if is_void(c) {
        return Err(refused(RefusalKind::IncompleteType, line));
    }
    if is_aggregate(c) {
        return Err(refused(RefusalKind::StructByValue, line));
    }
    Ok(c)
}

fn is_name_taken(env: &Env, name: &Option<Vec<u8>>) -> bool
    ensures { result ≡ rule.is_name_taken (env_view env.now) (option_map text_of name.now) }
{
    match name {
        None => false,
        Some(text) => is_taken(env, text),
    }
}

fn name_param(env: &mut Env, name: &Option<Vec<u8>>, block: u32, c: CType) -> Result<(), Memory>
    requires free { IsFalse (rule.is_name_taken (env_view env.old) (option_map text_of name.now)) }
    requires known { IsKnownEnv (env_view env.old) }
    requires inside { IsKnown (env_view env.old).types c }
    ensures means { OnOk result ((c, env_view env.new)
        ≡ rule.named_param (option_map text_of name.now) block (c, env_view env.old)) }
    ensures known { OnOk result (IsKnownEnv (env_view env.new)) }
{
    match name {
        None => Ok(()),
        Some(text) => declare_name(env, text, Meaning::Variable(block, c)),
    }
}

#[tactic(auto, unfolding(ep_elaboration::specs::Functions::with_param))]
fn with_param(
    env: &mut Env,
    block: u32,
    tree: &ParamTree,
    c: CType,
    counts: &Option<Vec<u32>>,
) -> Result<CType, Halt>
    requires known { IsKnownEnv (env_view env.old) }
    requires inside { IsKnown (env_view env.old).types c }
    ensures means { RefinesIn (λ d. d)
        (at tree.now.line (rule.with_param (env_view env.old) (option_map text_of tree.now.name) block c
        (counts_of counts.now)))
        (env_view env.new) result }
    ensures known { OnOk result (IsKnownEnv (env_view env.new)) }
    ensures comes { OnAnswer result (Comes (env_view env.old) (env_view env.new)) }
{
    if is_name_taken(env, &tree.name) {
        return Err(refused(RefusalKind::Redeclared, tree.line));
    }
    let d = param_type(&mut env.types, tree.line, c, counts)?;
    passable(tree.line, d)?;
    name_param(env, &tree.name, block, d)?;
    Ok(d)
}

// A pointer for each star.
pub(crate) fn starred(c: CType, stars: &[u32]) -> Result<CType, Memory>
    ensures means { IfOk result (λ d. d ≡ types_of.with_stars c (length stars.now)) }
    ensures full { IfErr result (λ _. 2 ^ 32 ≤ c.stars + length stars.now) }
{
    with_stars(c, stars.len())
}

#[tactic(auto, unfolding(ep_elaboration::specs::Functions::param_declared))]
fn param_declared(env: &mut Env, block: u32, tree: &ParamTree) -> Result<CType, Halt>
    requires { IsKnownEnv (env_view env.old) }
    ensures means { RefinesIn (λ d. d) (rule.param_declared (env_view env.old) block (param_of tree.now))
        (env_view env.new) result }
    ensures known { OnOk result (IsKnownEnv (env_view env.new)) }
    ensures comes { OnAnswer result (Comes (env_view env.old) (env_view env.new)) }
{
    let c = words_declared(env, &tree.specs)?;
    let counts = param_bounds(env, tree.line, &tree.bounds)?;
    let c = starred(c, &tree.stars)?;
    let d = with_param(env, block, tree, c, &counts)?;
    Ok(d)
}

/// Parameters whose blocks have the numbers from this one on.
#[tactic(auto, unfolding(ep_elaboration::specs::Functions::params_declared))]
pub(crate) fn params_declared(
    env: &mut Env,
    first: u32,
    list: &[ParamTree],
) -> Result<Vec<CType>, Halt>
    requires { IsKnownEnv (env_view env.old) }
    ensures means { RefinesIn (λ v. v.items) (rule.params_declared (env_view env.old) first (map param_of list.now))
        (env_view env.new) result }
    ensures known { OnOk result (IsKnownEnv (env_view env.new)) }
    ensures comes { OnAnswer result (Comes (env_view env.old) (env_view env.new)) }
{
    let mut all = Vec::new(env.alloc);
    let mut block = first;
    for tree in list {
        let c = param_declared(env, block, tree)?;
        all.push(c)?;
        block = one_behind(block)?;
    }
    Ok(all)
}
