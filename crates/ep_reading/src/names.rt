//! The names that are types so far.

ghost use Rattle.std.specs.Prelude.{◌≡◌, false, ◌||◌, OnOk, OnErr, List, ℕ};
ghost use Rattle.std.specs.List.{list_any};
ghost use Rattle.std.specs.Str.{bytes_eq};
ghost use Rattle.ep_ast.specs.TypeWords.{is_built_in_type, built_in_types};
ghost use Rattle.ep_ast.specs.ProgramGrammar.{with_name};
ghost use Rattle.ep_reading.specs.Names.{is_type};

use ep_int::Memory;
use indexmap::IndexSet;
use std::alloc::{AllocError, Global};

/// The typedef names so far, and the built-in names of types.
#[derive(Drop)]
pub struct TypeNames {
    added: IndexSet<Vec<u8>>,
    alloc: Global,
}

fn is_among(words: &[&[u8]], name: &[u8]) -> bool
    ensures { result ≡ list_any (λ w. bytes_eq w.now name.now) words.now }
{
    words.iter().any(|w| *w == name)
}

fn is_built_in(name: &[u8]) -> bool
    ensures { result ≡ is_built_in_type name.now }
{
    if name.len() < 6 {
        return false;
    }
    is_among(
        &[
            b"int8_t",
            b"int16_t",
            b"int32_t",
            b"int64_t",
            b"uint8_t",
            b"uint16_t",
            b"uint32_t",
            b"uint64_t",
            b"size_t",
        ],
        name,
    )
}

impl TypeNames {
    /// The built-in names alone.
    pub fn new(alloc: Global) -> TypeNames
        ensures { is_type result ≡ is_built_in_type }
    {
        TypeNames {
            added: IndexSet::new(alloc),
            alloc,
        }
    }

    fn insert(&mut self, name: &[u8]) -> Result<(), AllocError>
        ensures added { OnOk result ((text : List ℕ) → is_type self.new
            text ≡ (bytes_eq text name.now || is_type self.old text)) }
        ensures named { OnOk result (is_type self.old name.now ≡ false
            → is_type self.new ≡ with_name (is_type self.old) name.now) }
        ensures unchanged { OnErr result ((text : List ℕ) → is_type self.new text ≡ is_type self.old text) }
    {
        let text = Vec::from_slice(self.alloc, name)?;
        self.added.insert(text)?;
        Ok(())
    }

    /// The name is a type from here on.
    pub fn add(&mut self, name: &[u8]) -> Result<(), Memory>
        ensures added { OnOk result ((text : List ℕ) → is_type self.new
            text ≡ (bytes_eq text name.now || is_type self.old text)) }
        ensures named { OnOk result (is_type self.old name.now ≡ false
            → is_type self.new ≡ with_name (is_type self.old) name.now) }
        ensures unchanged { OnErr result ((text : List ℕ) → is_type self.new text ≡ is_type self.old text) }
    {
        match self.insert(name) {
            Ok(()) => Ok(()),
            Err(_) => Err(Memory),
        }
    }

    fn is_added(&self, name: &[u8]) -> bool
        ensures { result ≡ list_any (λ k. bytes_eq name.now k.items) self.now.added.keys }
    {
        if self.added.is_empty() {
            return false;
        }
        self.added.contains(name)
    }

    /// Whether the name is one of a type, here.
    pub fn has(&self, name: &[u8]) -> bool
        ensures { result ≡ is_type self.now name.now }
    {
        is_built_in(name) || self.is_added(name)
    }
}
