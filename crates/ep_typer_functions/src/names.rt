//! Functions by their names.

ghost use Rattle.std.specs.Prelude.{◌≡◌, ℕ, List, IfOk, OnOk};
ghost use Rattle.ep_typing.specs.Calls as calls;
ghost use Rattle.ep_typing.specs.Env.{entry};
ghost use Rattle.ep_typing.specs.Results.{at};
ghost use Rattle.ep_declared.specs.Refinement.{RefinesIn};
ghost use Rattle.ep_elaboration.specs.Functions as rule;
ghost use Rattle.ep_scopes.specs.Known.{IsKnownEnv};
ghost use Rattle.ep_scopes.specs.View.{env as env_view};
ghost use Rattle.ep_typer_functions.specs.View as view;
ghost use Rattle.ep_typer_functions.specs.View.{AreDone};

use crate::done::Done;
use ep_ast::{Halt, RefusalKind};
use ep_declared::{declare_name, is_taken};
use ep_int::{IntType, Memory};
use ep_operands::{as_number, int_type, refused, void_type};
use ep_scopes::{Env, FunctionType, Meaning};
use ep_typing::CType;

fn are_same(a: &[CType], b: &[CType]) -> bool
    ensures { result ≡ rule.are_same a.now b.now }
{
    *a == *b
}

/// Whether two functions have the same type.
pub fn is_same_signature(a: &FunctionType, b: &FunctionType) -> bool
    ensures { (s t : List ℕ) → result ≡ rule.is_same_signature (view.signature s a.now) (view.signature t b.now) }
{
    (a.result == b.result) & are_same(&a.params, &b.params)
}

// Whether the function of a number has this type.
fn has_type(env: &Env, number: u32, ty: &FunctionType) -> bool
    ensures { (t : List ℕ) → result
        ≡ rule.is_same_signature (calls.signature (env_view env.now) number) (view.signature t ty.now) }
{
    match env.function(number) {
        Some(own) => is_same_signature(own, ty),
        None => (void_type() == ty.result) & are_same(&[], &ty.params),
    }
}

// Whether the function that was declared by a name has another type.
fn is_unlike(env: &Env, name: &[u8], ty: &FunctionType) -> bool
    ensures { result ≡ rule.is_unlike (env_view env.now) (view.signature name.now ty.now)
        (rule.number_of_function (env_view env.now).functions name.now) }
{
    match env.function_number(name) {
        None => false,
        Some(n) => match env.functions.get_index(n) {
            None => false,
            Some((_, own)) => !is_same_signature(own, ty),
        },
    }
}

fn stands_against(env: &Env, done: &Done, with_body: bool, name: &[u8], ty: &FunctionType) -> bool
    ensures { (ds : List ℕ) → AreDone done.now ds → result
        ≡ rule.stands_against (env_view env.now) ds with_body (view.signature name.now ty.now)
        (entry name.now (rule.file_names (env_view env.now))) }
{
    match env.scopes.name_here(name) {
        Some(Meaning::Variable(_, _)) => true,
        Some(Meaning::TypeName(_)) => true,
        Some(Meaning::Function(n)) => !has_type(env, n, ty) | (with_body & done.has(n)),
        None => is_taken(env, name) | is_unlike(env, name, ty),
    }
}

fn fits_main(name: &[u8], ty: &FunctionType) -> bool
    ensures { result ≡ rule.fits_main (view.signature name.now ty.now) }
{
    (b"main".as_slice() != name)
        | ((ty.result == int_type(IntType::I32)) & are_same(&ty.params, &[]))
}

// The number that a function has, or takes.
fn numbered(env: &mut Env, name: &[u8], ty: &FunctionType) -> Result<u32, Memory>
    requires { IsKnownEnv (env_view env.old) }
    ensures means { IfOk result (λ n. (n, env_view env.new)
        ≡ rule.numbered_function (env_view env.old) (view.signature name.now ty.now)
        (rule.number_of_function (env_view env.old).functions name.now)) }
    ensures scopes { OnOk result ((env_view env.new).scopes ≡ (env_view env.old).scopes) }
    ensures known { OnOk result (IsKnownEnv (env_view env.new)) }
{
    match env.function_number(name) {
        Some(n) => {
            let n = as_number(n)?;
            Ok(n)
        }
        None => {
            let params = match Vec::from_slice(env.alloc, &ty.params) {
                Ok(params) => params,
                Err(_) => return Err(Memory),
            };
            let own = FunctionType {
                params,
                result: ty.result,
            };
            env.add_function(name, own)
        }
    }
}

/// Whether a function may come into the scope of the file; if not, why.
#[tactic(auto, unfolding(ep_elaboration::specs::Functions::function_declared))]
pub fn declarable(
    env: &Env,
    done: &Done,
    with_body: bool,
    line: u32,
    name: &[u8],
    ty: &FunctionType,
) -> Result<(), Halt>
    ensures { (ds : List ℕ) → AreDone done.now ds → view.Foretells
        (at line (rule.function_declared (env_view env.now) ds with_body (view.signature name.now ty.now))) result }
{
    if stands_against(env, done, with_body, name, ty) {
        return Err(refused(RefusalKind::Redeclared, line));
    }
    if !fits_main(name, ty) {
        return Err(refused(RefusalKind::TypeMismatch, line));
    }
    Ok(())
}

/// A function comes into the scope of the file, if it isn't there.
#[tactic(auto, unfolding(ep_elaboration::specs::Functions::function_declared))]
pub fn function_declared(
    env: &mut Env,
    done: &Done,
    with_body: bool,
    line: u32,
    name: &[u8],
    ty: &FunctionType,
) -> Result<u32, Halt>
    requires { IsKnownEnv (env_view env.old) }
    ensures means { (ds : List ℕ) → AreDone done.now ds → RefinesIn (λ n. n)
        (at line (rule.function_declared (env_view env.old) ds with_body (view.signature name.now ty.now)))
        (env_view env.new) result }
    ensures known { OnOk result (IsKnownEnv (env_view env.new)) }
{
    declarable(env, done, with_body, line, name, ty)?;
    match env.scopes.name_here(name) {
        Some(_) => {
            let n = numbered(env, name, ty)?;
            Ok(n)
        }
        None => {
            // (what is no name of this scope is a built-in one, which was refused)
            if is_taken(env, name) {
                return Err(refused(RefusalKind::Redeclared, line));
            }
            let n = numbered(env, name, ty)?;
            declare_name(env, name, Meaning::Function(n))?;
            Ok(n)
        }
    }
}
