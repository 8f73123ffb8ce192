//! Bit-fields, found by the numbers of their aggregates and by their names.

ghost use Rattle.std.specs.Prelude.{◌≡◌, ◌++◌, ◌∷◌, ◌↔◌, [], IsTrue, None, OnOk, is_some, length, take};
ghost use Rattle.ep_typing.specs.Env.{entry};
ghost use Rattle.ep_typing.specs.Fields as rule;
ghost use Rattle.ep_scopes.specs.View as view;

use ep_int::Memory;
use ep_typing::FieldRow;
use indexmap::IndexMap;
use std::alloc::{AllocError, Global};

/// The bit-fields of an aggregate that have a name.
#[derive(Drop)]
pub struct FieldNames {
    pub(crate) rows: IndexMap<Vec<u8>, FieldRow>,
}

impl FieldNames {
    /// None yet.
    pub fn new(alloc: Global) -> FieldNames
        ensures { view.named_fields result ≡ [] }
    {
        FieldNames {
            rows: IndexMap::new(alloc),
        }
    }

    /// One more, whose name none has.
    pub fn add(&mut self, alloc: Global, name: &[u8], row: FieldRow) -> Result<(), AllocError>
        requires { entry name.now (view.named_fields self.old) ≡ None }
        ensures { OnOk result (view.named_fields self.new ≡ view.named_fields self.old ++ (name.now, row) ∷ []) }
    {
        let text = Vec::from_slice(alloc, name)?;
        self.rows.insert(text, row)?;
        Ok(())
    }
}

/// Of each aggregate with a bit-field those that have a name.
#[derive(Drop)]
pub struct Fields {
    pub(crate) all: IndexMap<u32, FieldNames>,
}

impl Fields {
    /// No aggregate with a bit-field yet.
    pub fn new(alloc: Global) -> Fields
        ensures { view.fields result ≡ [] }
    {
        Fields {
            all: IndexMap::new(alloc),
        }
    }

    /// How many aggregates have a bit-field.
    pub fn count(&self) -> usize
        ensures { result ≡ length (view.fields self.now) }
    {
        self.all.len()
    }

    /// Those of the first so many aggregates are left.
    pub fn truncate(&mut self, count: usize)
        ensures { view.fields self.new ≡ take count (view.fields self.old) }
    {
        self.all.truncate(count);
    }

    /// Whether no aggregate has a bit-field.
    pub fn is_empty(&self) -> bool
        ensures { IsTrue result ↔ (view.fields self.now ≡ []) }
    {
        self.all.is_empty()
    }

    /// Whether an aggregate has a bit-field.
    pub fn has(&self, aggregate: u32) -> bool
        ensures { result ≡ is_some (rule.fields_of (view.fields self.now) aggregate) }
    {
        self.all.get(&aggregate).is_some()
    }

    /// The bit-field of a name in an aggregate.
    pub fn named(&self, aggregate: u32, name: &[u8]) -> Option<FieldRow>
        ensures { result ≡ rule.field_named (view.fields self.now) aggregate name.now }
    {
        match self.all.get(&aggregate) {
            None => None,
            Some(names) => names.rows.get(name).copied(),
        }
    }

    /// These are the bit-fields of an aggregate from here on.
    pub fn set(&mut self, aggregate: u32, names: FieldNames) -> Result<(), Memory>
        ensures { OnOk result (view.fields self.new
            ≡ rule.with_fields_of (view.fields self.old) aggregate (view.named_fields names)) }
    {
        match self.all.insert(aggregate, names) {
            Ok(_) => Ok(()),
            Err(_) => Err(Memory),
        }
    }
}
