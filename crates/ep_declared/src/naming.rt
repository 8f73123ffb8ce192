//! Names of the innermost scope.

ghost use Rattle.std.specs.Prelude.{◌≡◌, OnOk, IsFalse, is_some};
ghost use Rattle.ep_typing.specs.Env.{entry};
ghost use Rattle.ep_typing.specs.Parts as parts;
ghost use Rattle.ep_elaboration.specs.Declarators as rule;
ghost use Rattle.ep_scopes.specs.Known.{IsKnownEnv, IsKnownMeaning};
ghost use Rattle.ep_scopes.specs.View as view;
ghost use Rattle.ep_scopes.specs.View.{env as env_view};

use ep_int::Memory;
use ep_operands::built_in;
use ep_scopes::{Env, Meaning};

fn is_built_in(name: &[u8]) -> bool
    ensures { result ≡ is_some (entry name.now parts.built_in) }
{
    built_in(name).is_some()
}

/// Whether the innermost scope has the name, or it is a built-in one.
pub fn is_taken(env: &Env, name: &[u8]) -> bool
    ensures { result ≡ rule.is_taken name.now (env_view env.now).scopes }
{
    env.scopes.has(name) | is_built_in(name)
}

/// A name comes into the innermost scope.
pub fn declare_name(env: &mut Env, name: &[u8], meaning: Meaning) -> Result<(), Memory>
    requires free { IsFalse (rule.is_taken name.now (env_view env.old).scopes) }
    ensures means { OnOk result (env_view env.new ≡ rule.with_name (env_view env.old) name.now (view.meaning meaning)) }
    ensures known { OnOk result (IsKnownMeaning (env_view env.old).types (view.meaning meaning)
        → IsKnownEnv (env_view env.old) → IsKnownEnv (env_view env.new)) }
{
    match env.scopes.declare(name, meaning) {
        Ok(()) => Ok(()),
        Err(_) => Err(Memory),
    }
}
