//! Statements and the parts of blocks.

ghost use Rattle.std.specs.Prelude.{◌≡◌, ◌++◌, [], Bool, IfOk, IsTrue, map, false, OnOk};
ghost use Rattle.std.specs.Option.{option_map};
ghost use Rattle.ep_ast.specs.Expression as source;
ghost use Rattle.ep_ast.specs.Statement as shape;
ghost use Rattle.ep_core.specs.View.{what_view};
ghost use Rattle.ep_declared.specs.Refinement.{RefinesIn};
ghost use Rattle.ep_elaboration.specs.Statements as rule;
ghost use Rattle.ep_scopes.specs.Known.{IsKnownEnv};
ghost use Rattle.ep_scopes.specs.View.{env as env_view};
ghost use Rattle.ep_typer_statements.specs.View.{closed};
ghost use Rattle.ep_typer_statements.specs.View.{lines as lines_view};

use crate::headings::first_inside;
use ep_ast::{BlockItemTree, ExprTree, Halt, HeadingTree, StmtTree};
use ep_core::tree::{Expr, Stmt, What};
use ep_scopes::Env;
use ep_typer_declarations::declaration;
use ep_typer_lines::{
    blocks_here, branched, by_order, enter, evaluated_if, evaluated_in, for_lines, jump, leave,
    looped, one_line, returned, scoped, tested_if, tested_in, tested_inside,
};
use ep_typing::CType;
use std::alloc::{AllocError, Global};

// A statement that had two scopes, one inside the other.
fn closed(env: &mut Env, line: u32, what: What) -> Result<Vec<Stmt>, Halt>
    requires { IsKnownEnv (env_view env.old) }
    ensures means { RefinesIn lines_view (closed (env_view env.old) line (what_view what)) (env_view env.new) result }
    ensures known { OnOk result (IsKnownEnv (env_view env.new)) }
{
    leave(env);
    leave(env);
    let lines = one_line(env.alloc, line, what)?;
    Ok(lines)
}

// Room for these behind others. A short list that is full grows by an eighth: of twice the room much would stay empty.
fn make_room(lines: &mut Vec<Stmt>, more: &[Stmt]) -> Result<(), AllocError>
    ensures { OnOk result (lines.new.items ≡ lines.old.items) }
{
    let count = lines.len();
    if count > 511 || count + more.len() <= lines.capacity() {
        return Ok(());
    }
    lines.reserve_exact(more.len() + count / 8)?;
    Ok(())
}

// Room for a statement of each of these items. Of one item the statements' own list will be taken.
fn room_for(alloc: Global, items: usize) -> Result<Vec<Stmt>, AllocError>
    ensures { IfOk result (λ v. v.items ≡ []) }
{
    if items < 2 {
        return Ok(Vec::new(alloc));
    }
    let lines = Vec::with_capacity(alloc, items)?;
    Ok(lines)
}

// Whether a list is empty and has no room for these.
fn is_bare(lines: &Vec<Stmt>, more: &[Stmt]) -> bool
    ensures { IsTrue result → lines.now.items ≡ [] }
{
    if !lines.is_empty() {
        return false;
    }
    lines.capacity() < more.len()
}

// Statements behind others. Where there is no room yet, the first ones' list is taken as it is: mostly it has room for
// what it holds alone.
fn add(lines: &mut Vec<Stmt>, more: Vec<Stmt>) -> Result<(), AllocError>
    ensures { OnOk result (lines.new.items ≡ lines.old.items ++ more.items) }
{
    if is_bare(lines, &more) {
        *lines = more;
        return Ok(());
    }
    let mut more = more;
    make_room(lines, &more)?;
    lines.append(&mut more)?;
    Ok(())
}

/// A statement in a scope of its own, which stays open.
#[cycle(walk)]
fn inside(
    env: &mut Env,
    result_type: CType,
    in_loop: bool,
    tree: &StmtTree,
) -> Result<Vec<Stmt>, Halt>
    requires { IsKnownEnv (env_view env.old) }
    ensures means { RefinesIn lines_view
        (rule.statement (rule.entered (env_view env.old)) result_type in_loop (shape.stmt_of tree.now))
        (env_view env.new) result }
    ensures known { OnOk result (IsKnownEnv (env_view env.new)) }
{
    enter(env)?;
    let lines = statement(env, result_type, in_loop, tree)?;
    Ok(lines)
}

#[cycle(walk)]
#[tactic(auto, unfolding(ep_elaboration::specs::Statements::statement))]
fn statement(
    env: &mut Env,
    result_type: CType,
    in_loop: bool,
    tree: &StmtTree,
) -> Result<Vec<Stmt>, Halt>
    requires { IsKnownEnv (env_view env.old) }
    ensures means { RefinesIn lines_view
        (rule.statement (env_view env.old) result_type in_loop (shape.stmt_of tree.now)) (env_view env.new) result }
    ensures known { OnOk result (IsKnownEnv (env_view env.new)) }
{
    match tree {
        StmtTree::Block(line, list) => block(env, result_type, in_loop, *line, list),
        StmtTree::Expr(line, e) => match e {
            None => {
                let lines = one_line(env.alloc, *line, What::Nothing)?;
                Ok(lines)
            }
            Some(e) => evaluated_in(env, *line, e),
        },
        StmtTree::If(line, e, then, otherwise) => {
            let test = tested_inside(env, *line, e)?;
            let a = inside(env, result_type, in_loop, then)?;
            match otherwise {
                None => closed(env, *line, branched(test, a, Vec::new(env.alloc))),
                Some(u) => {
                    leave(env);
                    let b = inside(env, result_type, in_loop, u)?;
                    closed(env, *line, branched(test, a, b))
                }
            }
        }
        StmtTree::While(line, e, turn) => while_loop(env, result_type, *line, turn, e),
        StmtTree::Do(line, turn, e) => do_loop(env, result_type, *line, turn, e),
        StmtTree::For(line, heading, turn) => for_loop(env, result_type, *line, heading, turn),
        StmtTree::Break(line) => jump(env.alloc, in_loop, *line, What::Break),
        StmtTree::Continue(line) => jump(env.alloc, in_loop, *line, What::Continue),
        StmtTree::Return(line, e) => returned(env, *line, result_type, e),
    }
}

#[cycle(walk)]
#[tactic(auto, unfolding(ep_elaboration::specs::Statements::statement))]
fn block(
    env: &mut Env,
    result_type: CType,
    in_loop: bool,
    line: u32,
    list: &[BlockItemTree],
) -> Result<Vec<Stmt>, Halt>
    requires { IsKnownEnv (env_view env.old) }
    ensures means { RefinesIn lines_view (rule.statement (env_view env.old) result_type in_loop
        (shape.block line (shape.to_parts (map shape.part_of list.now)))) (env_view env.new) result }
    ensures known { OnOk result (IsKnownEnv (env_view env.new)) }
{
    enter(env)?;
    let body = part_list(env, result_type, in_loop, list)?;
    let blocks = blocks_here(env)?;
    leave(env);
    let lines = one_line(env.alloc, line, scoped(blocks, body))?;
    Ok(lines)
}

#[cycle(walk)]
#[tactic(auto, unfolding(ep_elaboration::specs::Statements::statement))]
fn while_loop(
    env: &mut Env,
    result_type: CType,
    line: u32,
    turn: &StmtTree,
    test: &ExprTree,
) -> Result<Vec<Stmt>, Halt>
    requires { IsKnownEnv (env_view env.old) }
    ensures means { (in_loop : Bool) → RefinesIn lines_view (rule.statement (env_view env.old) result_type in_loop
        (shape.while_loop line (source.expr test.now) (shape.stmt_of turn.now))) (env_view env.new) result }
    ensures known { OnOk result (IsKnownEnv (env_view env.new)) }
{
    let test = tested_inside(env, line, test)?;
    let a = inside(env, result_type, true, turn)?;
    closed(env, line, looped(true, test, a, Vec::new(env.alloc)))
}

#[cycle(walk)]
#[tactic(auto, unfolding(ep_elaboration::specs::Statements::statement))]
fn do_loop(
    env: &mut Env,
    result_type: CType,
    line: u32,
    turn: &StmtTree,
    test: &ExprTree,
) -> Result<Vec<Stmt>, Halt>
    requires { IsKnownEnv (env_view env.old) }
    ensures means { (in_loop : Bool) → RefinesIn lines_view (rule.statement (env_view env.old) result_type in_loop
        (shape.do_loop line (shape.stmt_of turn.now) (source.expr test.now))) (env_view env.new) result }
    ensures known { OnOk result (IsKnownEnv (env_view env.new)) }
{
    enter(env)?;
    let a = inside(env, result_type, true, turn)?;
    leave(env);
    let test = tested_in(env, line, test)?;
    leave(env);
    let what = looped(false, test, a, Vec::new(env.alloc));
    let lines = one_line(env.alloc, line, what)?;
    Ok(lines)
}

#[cycle(walk)]
#[tactic(auto, unfolding(ep_elaboration::specs::Statements::statement))]
fn for_loop(
    env: &mut Env,
    result_type: CType,
    line: u32,
    heading: &HeadingTree,
    turn: &StmtTree,
) -> Result<Vec<Stmt>, Halt>
    requires { IsKnownEnv (env_view env.old) }
    ensures means { (in_loop : Bool) → RefinesIn lines_view (rule.statement (env_view env.old) result_type in_loop
        (shape.for_loop line (shape.first_of heading.now.first) (option_map source.expr heading.now.test)
        (option_map source.expr heading.now.next) (shape.stmt_of turn.now))) (env_view env.new) result }
    ensures known { OnOk result (IsKnownEnv (env_view env.new)) }
{
    let before = first_inside(env, line, &heading.first)?;
    let test = tested_if(env, line, &heading.test)?;
    let next = evaluated_if(env, line, &heading.next)?;
    let a = inside(env, result_type, true, turn)?;
    leave(env);
    let blocks = blocks_here(env)?;
    leave(env);
    let what = looped(true, test, a, next);
    let lines = for_lines(env.alloc, &heading.first, line, before, what, blocks)?;
    Ok(lines)
}

#[cycle(walk)]
#[tactic(auto, unfolding(ep_elaboration::specs::Statements::statements))]
fn statements(
    env: &mut Env,
    result_type: CType,
    in_loop: bool,
    list: &[StmtTree],
) -> Result<Vec<Stmt>, Halt>
    requires { IsKnownEnv (env_view env.old) }
    ensures means { RefinesIn lines_view
        (rule.statements (env_view env.old) result_type in_loop (shape.to_stmts (map shape.stmt_of list.now)))
        (env_view env.new) result }
    ensures known { OnOk result (IsKnownEnv (env_view env.new)) }
{
    let mut lines = room_for(env.alloc, list.len())?;
    for tree in list {
        let more = statement(env, result_type, in_loop, tree)?;
        add(&mut lines, more)?;
    }
    Ok(lines)
}

/// Statements in a scope of their own, which stays open.
#[cycle(walk)]
fn arm(
    env: &mut Env,
    result_type: CType,
    in_loop: bool,
    list: &[StmtTree],
) -> Result<Vec<Stmt>, Halt>
    requires { IsKnownEnv (env_view env.old) }
    ensures means { RefinesIn lines_view
        (rule.statements (rule.entered (env_view env.old)) result_type in_loop
        (shape.to_stmts (map shape.stmt_of list.now)))
        (env_view env.new) result }
    ensures known { OnOk result (IsKnownEnv (env_view env.new)) }
{
    enter(env)?;
    let lines = statements(env, result_type, in_loop, list)?;
    Ok(lines)
}

#[cycle(walk)]
#[tactic(auto, unfolding(ep_elaboration::specs::Statements::part))]
fn part(
    env: &mut Env,
    result_type: CType,
    in_loop: bool,
    tree: &BlockItemTree,
) -> Result<Vec<Stmt>, Halt>
    requires { IsKnownEnv (env_view env.old) }
    ensures means { RefinesIn lines_view
        (rule.part (env_view env.old) result_type in_loop (shape.part_of tree.now)) (env_view env.new) result }
    ensures known { OnOk result (IsKnownEnv (env_view env.new)) }
{
    match tree {
        BlockItemTree::Declaration(d) => {
            let made = declaration(env, false, true, d)?;
            Ok(made.lines)
        }
        BlockItemTree::Statement(s) => statement(env, result_type, in_loop, s),
        BlockItemTree::Arms(line, order, then, otherwise) => {
            let a = arm(env, result_type, in_loop, then)?;
            leave(env);
            match otherwise {
                None => {
                    let what = by_order(*order, a, Vec::new(env.alloc));
                    let lines = one_line(env.alloc, *line, what)?;
                    Ok(lines)
                }
                Some(list) => {
                    let b = arm(env, result_type, in_loop, list)?;
                    leave(env);
                    let lines = one_line(env.alloc, *line, by_order(*order, a, b))?;
                    Ok(lines)
                }
            }
        }
    }
}

#[cycle(walk)]
#[tactic(auto, unfolding(ep_elaboration::specs::Statements::parts))]
fn part_list(
    env: &mut Env,
    result_type: CType,
    in_loop: bool,
    list: &[BlockItemTree],
) -> Result<Vec<Stmt>, Halt>
    requires { IsKnownEnv (env_view env.old) }
    ensures means { RefinesIn lines_view
        (rule.parts (env_view env.old) result_type in_loop (shape.to_parts (map shape.part_of list.now)))
        (env_view env.new) result }
    ensures known { OnOk result (IsKnownEnv (env_view env.new)) }
{
    let mut lines = room_for(env.alloc, list.len())?;
    for tree in list {
        let more = part(env, result_type, in_loop, tree)?;
        add(&mut lines, more)?;
    }
    Ok(lines)
}

/// The parts of a function's body, with the function's result.
pub fn parts(env: &mut Env, result_type: CType, list: &[BlockItemTree]) -> Result<Vec<Stmt>, Halt>
    requires { IsKnownEnv (env_view env.old) }
    ensures means { RefinesIn lines_view
        (rule.parts (env_view env.old) result_type false (shape.to_parts (map shape.part_of list.now)))
        (env_view env.new) result }
    ensures known { OnOk result (IsKnownEnv (env_view env.new)) }
{
    part_list(env, result_type, false, list)
}
