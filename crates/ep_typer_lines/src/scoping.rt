//! Scopes that statements open and leave.

ghost use Rattle.std.specs.Prelude.{◌≡◌, IfOk, OnOk};
ghost use Rattle.ep_elaboration.specs.Statements as rule;
ghost use Rattle.ep_scopes.specs.Known.{IsKnownEnv};
ghost use Rattle.ep_scopes.specs.View.{env as env_view};

use ep_int::Memory;
use ep_scopes::Env;

/// A scope is entered; an error leaves the environment as it was.
pub fn enter(env: &mut Env) -> Result<(), Memory>
    requires { IsKnownEnv (env_view env.old) }
    ensures means { OnOk result (env_view env.new ≡ rule.entered (env_view env.old)) }
    ensures known { OnOk result (IsKnownEnv (env_view env.new)) }
{
    match env.scopes.enter() {
        Ok(()) => Ok(()),
        Err(_) => Err(Memory),
    }
}

/// The innermost scope is left.
pub fn leave(env: &mut Env)
    requires { IsKnownEnv (env_view env.old) }
    ensures means { env_view env.new ≡ rule.left (env_view env.old) }
    ensures known { IsKnownEnv (env_view env.new) }
{
    env.scopes.leave();
}

/// The blocks that the innermost scope declares.
pub fn blocks_here(env: &Env) -> Result<Vec<u32>, Memory>
    ensures { IfOk result (λ v. v.items ≡ rule.blocks_behind 0 (env_view env.now)) }
{
    match env.scopes.blocks_behind(0) {
        Ok(blocks) => Ok(blocks),
        Err(_) => Err(Memory),
    }
}
