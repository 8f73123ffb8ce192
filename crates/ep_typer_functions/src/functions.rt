//! Prototypes and functions.

ghost use Rattle.std.specs.Prelude.{◌≡◌, ◌≤◌, ◌^◌, [], ◌∷◌, ◌++◌, ℕ, List, length, IfErr, IfOk, OnOk};
ghost use Rattle.ep_ast.specs.declared.refusals.Halt.TheVariants as halts;
ghost use Rattle.ep_ast.specs.Declaration.{head_of};
ghost use Rattle.ep_ast.specs.Statement.{function_of};
ghost use Rattle.ep_core.specs.View.{block_view};
ghost use Rattle.ep_declared.specs.Refinement.{Adds, RefinesIn};
ghost use Rattle.ep_defined.specs.View.{defined as defined_view};
ghost use Rattle.ep_elaboration.specs.Functions as rule;
ghost use Rattle.ep_elaboration.specs.FunctionSteps as steps;
ghost use Rattle.ep_scopes.specs.Known.{IsKnownEnv};
ghost use Rattle.ep_scopes.specs.View.{env as env_view};
ghost use Rattle.ep_typer_functions.specs.View.{AreDone, headed as headed_view};
ghost use Rattle.ep_typer_functions.specs.BodyView as view;

use crate::done::Done;
use crate::heads::{behind_result, headed};
use crate::names::function_declared;
use ep_ast::{FunctionTree, Halt, HeadTree};
use ep_core::program::{BlockInfo, Function};
use ep_core::tree::Stmt;
use ep_defined::Defined;
use ep_int::{Memory, Scalar};
use ep_layout::Types;
use ep_operands::{is_void, one_behind, scalar_of, size_of_type};
use ep_scopes::{Env, FunctionType, type_number};
use ep_typer_statements::parts;
use ep_typing::CType;
use std::alloc::{AllocError, Global};

/// The number of the next block.
pub fn next_block(env: &Env) -> Result<u32, Memory>
    ensures number { IfOk result (λ n. n ≡ length (env_view env.now).blocks) }
    ensures full { IfErr result (λ _. 2 ^ 32 ≤ length (env_view env.now).blocks) }
{
    match u32::try_from(env.blocks.len()) {
        Ok(n) => Ok(n),
        Err(_) => Err(Memory),
    }
}

/// A function that is declared.
#[tactic(auto, unfolding(ep_elaboration::specs::Functions::prototype))]
pub fn prototype(env: &mut Env, done: &Done, head: &HeadTree) -> Result<(), Halt>
    requires { IsKnownEnv (env_view env.old) }
    ensures means { (ds : List ℕ) → AreDone done.now ds
        → Adds (rule.prototype (env_view env.old) ds (head_of head.now)) (env_view env.new) result }
    ensures known { OnOk result (IsKnownEnv (env_view env.new)) }
{
    let block = next_block(env)?;
    let ty = headed(env, block, head)?;
    env.scopes.leave();
    function_declared(env, done, false, head.line, &head.name, &ty)?;
    Ok(())
}

fn own_block(types: &Types, c: CType) -> BlockInfo
    ensures { block_view result ≡ rule.own_block types.now c }
{
    let size = match size_of_type(types, c) {
        Some(bytes) => bytes,
        None => 0,
    };
    BlockInfo {
        size,
        ty: type_number(types, c),
        global: false,
    }
}

fn add_block(env: &mut Env, c: CType) -> Result<(), AllocError>
    requires { IsKnownEnv (env_view env.old) }
    ensures means { OnOk result (env_view env.new ≡ rule.with_blocks (env_view env.old) (c ∷ [])) }
    ensures known { OnOk result (IsKnownEnv (env_view env.new)) }
{
    let block = own_block(&env.types, c);
    env.blocks.push(block)?;
    Ok(())
}

fn add_blocks(env: &mut Env, list: &[CType]) -> Result<(), AllocError>
    requires { IsKnownEnv (env_view env.old) }
    ensures means { OnOk result (env_view env.new ≡ rule.with_blocks (env_view env.old) list.now) }
    ensures known { OnOk result (IsKnownEnv (env_view env.new)) }
{
    for c in list {
        add_block(env, *c)?;
    }
    Ok(())
}

fn add_result_block(env: &mut Env, c: CType) -> Result<(), AllocError>
    requires { IsKnownEnv (env_view env.old) }
    ensures means { OnOk result (env_view env.new ≡ rule.with_blocks (env_view env.old) (view.result_of c)) }
    ensures known { OnOk result (IsKnownEnv (env_view env.new)) }
{
    if is_void(c) {
        return Ok(());
    }
    add_block(env, c)
}

// The blocks of a function's result, if it has one, and of its parameters.
fn add_own_blocks(env: &mut Env, ty: &FunctionType) -> Result<(), AllocError>
    requires { IsKnownEnv (env_view env.old) }
    ensures means { OnOk result (env_view env.new
        ≡ rule.with_blocks (env_view env.old) (rule.results (headed_view ty.now) ++ ty.now.params.items)) }
    ensures known { OnOk result (IsKnownEnv (env_view env.new)) }
{
    add_result_block(env, ty.result)?;
    add_blocks(env, &ty.params)?;
    Ok(())
}

fn add_blocks_if(env: &mut Env, own: bool, ty: &FunctionType) -> Result<(), AllocError>
    requires { IsKnownEnv (env_view env.old) }
    ensures means { OnOk result (env_view env.new
        ≡ rule.blocks_if own (env_view env.old) (rule.results (headed_view ty.now) ++ ty.now.params.items)) }
    ensures known { OnOk result (IsKnownEnv (env_view env.new)) }
{
    if own {
        return add_own_blocks(env, ty);
    }
    Ok(())
}

// The function's name comes into the scope round its parameters.
fn named_outside(
    env: &mut Env,
    own: bool,
    done: &Done,
    head: &HeadTree,
    ty: &FunctionType,
) -> Result<u32, Halt>
    requires { IsKnownEnv (env_view env.old) }
    ensures means { (ds : List ℕ) → AreDone done.now ds
        → RefinesIn (λ n. n) (view.named_outside (env_view env.old) own ds (head_of head.now) (headed_view ty.now))
        (env_view env.new) result }
    ensures known { OnOk result (IsKnownEnv (env_view env.new)) }
{
    let scope = env.scopes.take();
    let number = function_declared(env, done, true, head.line, &head.name, ty)?;
    add_blocks_if(env, own, ty)?;
    env.scopes.put(scope)?;
    Ok(number)
}

/// The blocks and statements of a body, and the line where it begins.
#[derive(Drop)]
pub struct Body {
    pub line: u32,
    pub locals: Vec<u32>,
    pub stmts: Vec<Stmt>,
}

/// A function's number, what its head says, and its body.
#[derive(Drop)]
pub struct Typed {
    pub number: u32,
    pub head: FunctionType,
    pub body: Body,
}

/// A function over blocks from this one on, which come with it or are there.
#[tactic(auto, unfolding(ep_elaboration::specs::FunctionSteps::function_typed))]
pub fn function_typed(
    env: &mut Env,
    first: u32,
    own: bool,
    done: &Done,
    tree: &FunctionTree,
) -> Result<Typed, Halt>
    requires { IsKnownEnv (env_view env.old) }
    ensures means { (ds : List ℕ) → AreDone done.now ds
        → RefinesIn view.typed (steps.function_typed (env_view env.old) first own ds (function_of tree.now))
        (env_view env.new) result }
    ensures known { OnOk result (IsKnownEnv (env_view env.new)) }
{
    let head = headed(env, first, &tree.head)?;
    let mark = env.scopes.mark();
    let number = named_outside(env, own, done, &tree.head, &head)?;
    let stmts = parts(env, head.result, &tree.body.items)?;
    let locals = env.scopes.blocks_behind(mark.names)?;
    env.scopes.leave();
    let body = Body {
        line: tree.body.line,
        locals,
        stmts,
    };
    Ok(Typed { number, head, body })
}

fn numbered_from(
    alloc: Global,
    first: u32,
    params: &[CType],
) -> Result<Vec<(u32, Scalar)>, AllocError>
    ensures { IfOk result (λ v. v.items ≡ rule.numbered_from first params.now) }
{
    let mut all = Vec::new(alloc);
    let mut block = first;
    for c in params {
        all.push((block, scalar_of(*c)))?;
        match one_behind(block) {
            Ok(next) => block = next,
            Err(_) => return Err(AllocError),
        }
    }
    Ok(all)
}

fn result_at(first: u32, c: CType) -> Option<(u32, Scalar)>
    ensures { result ≡ rule.result_at first c }
{
    if is_void(c) {
        return None;
    }
    Some((first, scalar_of(c)))
}

fn defined_of(alloc: Global, tree: &FunctionTree, first: u32, typed: Typed) -> Result<Defined, Halt>
    ensures means { IfOk result (λ d. defined_view d
        ≡ rule.defined_of (function_of tree.now) first (view.typed typed)) }
    ensures wants { IfErr result (λ e. e ≡ halts.Memory) }
{
    let head = typed.head;
    let body = typed.body;
    let name = Vec::from_slice(alloc, &tree.head.name)?;
    let behind = behind_result(first, head.result)?;
    let params = numbered_from(alloc, behind, &head.params)?;
    let function = Function {
        name,
        line: tree.head.line,
        params,
        result: result_at(first, head.result),
        locals: body.locals,
        body: body.stmts,
    };
    Ok(Defined {
        number: typed.number,
        first,
        function,
    })
}

/// A function with its body.
#[tactic(auto, unfolding(ep_elaboration::specs::FunctionSteps::function_defined))]
pub fn function_defined(env: &mut Env, done: &Done, tree: &FunctionTree) -> Result<Defined, Halt>
    requires { IsKnownEnv (env_view env.old) }
    ensures means { (ds : List ℕ) → AreDone done.now ds
        → RefinesIn defined_view (steps.function_defined (env_view env.old) ds (function_of tree.now))
        (env_view env.new) result }
    ensures known { OnOk result (IsKnownEnv (env_view env.new)) }
{
    let first = next_block(env)?;
    let typed = function_typed(env, first, true, done, tree)?;
    let function = defined_of(env.alloc, tree, first, typed)?;
    Ok(function)
}
