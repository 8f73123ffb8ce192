//! What the body of a struct or union declares.

ghost use Rattle.std.specs.Prelude.{◌≡◌, ◌++◌, [], ◌∷◌, map, IsFalse, IsTrue, None, OnOk, Some};
ghost use Rattle.std.specs.Option.{option_map};
ghost use Rattle.ep_ast.specs.Declaration.{text_of};
ghost use Rattle.ep_bitfield.specs.Units.{are_entries, is_entry};
ghost use Rattle.ep_elaboration.specs.Aggregates as rule;
ghost use Rattle.ep_declared.specs.Entries.{are_distinct, entry, name_of};

use ep_int::IntType;
use indexmap::IndexSet;
use std::alloc::{AllocError, Global};
use std::marker::Model;

/// A member with the number of its type, or a bit-field, perhaps with a name, with the number of its type, that type
/// and its width.
#[derive(Drop)]
pub(crate) enum Entry {
    Member(Vec<u8>, u32),
    Field(Option<Vec<u8>>, u32, IntType, u32),
}

/// What a body declares so far, in its order. No name stands twice, and each bit-field can lie in a unit.
#[derive(Drop)]
pub(crate) struct Named {
    entries: Vec<Entry>,
    /// The names of the entries.
    names: IndexSet<Vec<u8>>,
}

impl Model for Named {
    ghost use Rattle.std.specs.Prelude.{List, map};
    ghost use Rattle.ep_elaboration.specs.Aggregates as rule;

    ghost Value = { List rule.Entry };

    ghost use Rattle.ep_declared.specs.Entries.{entry, AreNamed};

    ghost view = { λ s. map entry s.entries.items };

    ghost invariant = { λ s. AreNamed s.entries.items s.names.keys };
}

impl Named {
    /// Nothing yet.
    pub fn new(alloc: Global) -> Named
        ensures { result ≡ [] }
    {
        Named {
            entries: Vec::new(alloc),
            names: IndexSet::new(alloc),
        }
    }

    /// Whether an entry has the name.
    pub fn has(&self, name: &[u8]) -> bool
        ensures { result ≡ rule.is_declared name.now self.now }
    {
        self.names.contains(name)
    }

    /// All of them, in their order.
    pub fn all(&self) -> &[Entry]
        ensures all { map entry result.now ≡ self.now }
        ensures distinct { IsTrue (are_distinct self.now) }
        ensures fit { IsTrue (are_entries (map rule.packed_as self.now)) }
    {
        self.entries.as_slice()
    }

    // An entry without a name.
    fn push(&mut self, one: Entry) -> Result<(), AllocError>
        requires unnamed { name_of (entry one) ≡ None }
        requires fits { IsTrue (is_entry (rule.packed_as (entry one))) }
        ensures { OnOk result (self.new ≡ self.old ++ entry one ∷ []) }
    {
        self.entries.push(one)?;
        Ok(())
    }

    // An entry of a name that none has.
    fn push_named(&mut self, name: Vec<u8>, one: Entry) -> Result<(), AllocError>
        requires free { IsFalse (rule.is_declared name.items self.old) }
        requires named { name_of (entry one) ≡ Some name.items }
        requires fits { IsTrue (is_entry (rule.packed_as (entry one))) }
        ensures { OnOk result (self.new ≡ self.old ++ entry one ∷ []) }
    {
        let count = self.entries.len();
        self.entries.push(one)?;
        if self.names.insert(name).is_err() {
            self.entries.truncate(count);
            return Err(AllocError);
        }
        Ok(())
    }

    /// A member more.
    pub fn add_member(&mut self, alloc: Global, name: &[u8], ty: u32) -> Result<(), AllocError>
        requires { IsFalse (rule.is_declared name.now self.old) }
        ensures { OnOk result (self.new ≡ self.old ++ rule.a_member name.now ty ∷ []) }
    {
        let text = Vec::from_slice(alloc, name)?;
        let own = Vec::from_slice(alloc, name)?;
        self.push_named(text, Entry::Member(own, ty))
    }

    /// A bit-field more.
    pub fn add_field(
        &mut self,
        alloc: Global,
        name: &Option<Vec<u8>>,
        ty: u32,
        t: IntType,
        width: u32,
    ) -> Result<(), AllocError>
        requires free { IsFalse (rule.is_taken_name (option_map text_of name.now) self.old) }
        requires fits { IsTrue (is_entry (t, width)) }
        ensures { OnOk result
            (self.new ≡ self.old ++ rule.a_field (option_map text_of name.now) ty t width ∷ []) }
    {
        match name {
            None => self.push(Entry::Field(None, ty, t, width)),
            Some(name) => {
                let text = Vec::from_slice(alloc, name)?;
                let own = Vec::from_slice(alloc, name)?;
                self.push_named(text, Entry::Field(Some(own), ty, t, width))
            }
        }
    }
}
