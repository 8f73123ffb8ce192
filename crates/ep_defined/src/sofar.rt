//! Functions with bodies, and what was declared so far.

ghost use Rattle.std.specs.Prelude.{◌≡◌, IfOk};
ghost use Rattle.ep_elaboration.specs.Programs as rule;
ghost use Rattle.ep_defined.specs.View as view;

use ep_core::program::{Function, InitByte};
use ep_int::Model;
use ep_scopes::Env;
use std::alloc::{AllocError, Global};

/// A function with its number among the declared ones, and the number of the first block of its result and parameters.
#[derive(Debug, Drop)]
pub struct Defined {
    pub number: u32,
    pub first: u32,
    pub function: Function,
}

/// What was declared so far, the first values of globals, and the functions that have a body.
#[derive(Drop)]
pub struct Sofar {
    pub env: Env,
    pub values: Vec<InitByte>,
    pub defined: Vec<Defined>,
}

impl Sofar {
    /// Before the first item of a text.
    pub fn new(alloc: Global, model: Model) -> Result<Sofar, AllocError>
        ensures { IfOk result (λ s. view.sofar s ≡ rule.begun model) }
    {
        let env = Env::new(alloc, model)?;
        Ok(Sofar {
            env,
            values: Vec::new(alloc),
            defined: Vec::new(alloc),
        })
    }
}
