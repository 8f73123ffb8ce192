//! Functions by their names.

ghost use Rattle.std.specs.Prelude.{◌≡◌, ◌≤◌, ◌^◌, IfErr, IfOk};
ghost use Rattle.ep_elaboration.specs.Programs.{function_number};
ghost use Rattle.ep_scopes.specs.View.{env as env_view};

use ep_scopes::Env;
use std::alloc::AllocError;

/// The number of a function, or 0 where there is none of this name.
pub(crate) fn number(env: &Env, name: &[u8]) -> Result<u32, AllocError>
    ensures means { IfOk result (λ n. n ≡ function_number (env_view env.now).functions name.now) }
    ensures full { IfErr result (λ _. 2 ^ 32 ≤ function_number (env_view env.now).functions name.now) }
{
    match env.function_number(name) {
        None => Ok(0),
        Some(number) => match u32::try_from(number) {
            Ok(number) => Ok(number),
            Err(_) => Err(AllocError),
        },
    }
}
