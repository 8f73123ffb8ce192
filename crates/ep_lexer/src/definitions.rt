//! Macros that stand for numbers.

ghost use Rattle.std.specs.Prelude.{◌≡◌, [], ◌∷◌, ◌++◌, None, OnOk};
ghost use Rattle.ep_ast.specs.Cut.{constant};
ghost use Rattle.ep_lexer.specs.Step.{constants};

use ep_ast::Literal;
use indexmap::IndexMap;
use std::alloc::{AllocError, Global};

/// The constants that `#define` has given names, in the order of their definitions.
#[derive(Drop)]
pub struct Definitions {
    pub table: IndexMap<Vec<u8>, Literal>,
}

impl Definitions {
    /// Nothing is defined yet.
    pub fn new(alloc: Global) -> Definitions
        ensures { constants result ≡ [] }
    {
        Definitions {
            table: IndexMap::new(alloc),
        }
    }

    /// The number that a macro stands for, if it is defined.
    pub fn get(&self, name: &[u8]) -> Option<Literal>
        ensures { result ≡ constant (constants self.now) name.now }
    {
        if self.table.is_empty() {
            return None;
        }
        self.table.get(name).copied()
    }

    /// Defines one macro more; an error leaves all as it was.
    pub fn add(&mut self, alloc: Global, name: &[u8], value: Literal) -> Result<(), AllocError>
        requires { constant (constants self.old) name.now ≡ None }
        ensures { OnOk result (constants self.new ≡ constants self.old ++ (name.now, value) ∷ []) }
    {
        let text = Vec::from_slice(alloc, name)?;
        self.table.insert(text, value)?;
        Ok(())
    }
}
