//! An environment goes back to what it was.

ghost use Rattle.std.specs.Prelude.{◌≡◌, OnOk};
ghost use Rattle.ep_layout.specs.Table.{IsBuilt};
ghost use Rattle.ep_typing.specs.Env as rule;
ghost use Rattle.ep_scopes.specs.Comes.{CameFrom, IsMarkOf, over_types};
ghost use Rattle.ep_scopes.specs.View as view;

use crate::env::Env;
use crate::scopes::Mark;
use ep_int::Memory;
use ep_layout::TableMark;

/// How much of its parts an environment has, but for blocks and functions.
#[derive(Clone, Copy, Debug)]
pub struct EnvMark {
    pub(crate) types: TableMark,
    pub(crate) fields: usize,
    pub(crate) scopes: usize,
    pub(crate) innermost: Mark,
}

impl Env {
    /// How much there is, for a later [`rewind`](Env::rewind).
    pub fn mark(&self) -> EnvMark
        ensures mark { IsMarkOf result (view.env self.now) }
        ensures built { IsBuilt (view.env self.now).types }
    {
        EnvMark {
            types: self.types.mark(),
            fields: self.fields.count(),
            scopes: self.scopes.count(),
            innermost: self.scopes.mark(),
        }
    }

    /// Names, tags and bit-fields go back to what they were at a mark; the table of types stays.
    pub fn rewind_names(&mut self, mark: EnvMark) -> Result<(), Memory>
        ensures { (G : rule.Env) → CameFrom mark G (view.env self.old)
            → OnOk result (view.env self.new ≡ over_types G (view.env self.old).types) }
    {
        self.fields.truncate(mark.fields);
        match self.scopes.go_back(mark.scopes, mark.innermost) {
            Ok(()) => Ok(()),
            Err(_) => Err(Memory),
        }
    }

    /// The environment goes back to what it was at a mark. Costs what has come since.
    pub fn rewind(&mut self, mark: EnvMark) -> Result<(), Memory>
        requires { (G : rule.Env) × CameFrom mark G (view.env self.old) }
        ensures { (G : rule.Env) → CameFrom mark G (view.env self.old) → OnOk result (view.env self.new ≡ G) }
    {
        self.rewind_names(mark)?;
        self.types.rewind(mark.types);
        Ok(())
    }
}
