//! The types of a table in the order of their coming, each once, and the chains of pointers among them.

ghost use Rattle.std.specs.Prelude.{◌≡◌, List, [], ◌∷◌, ◌++◌, length, ◌<◌, ◌+◌, ◌^◌, IfSome, OnOk, OnErr, IfOk, Some};
ghost use Rattle.std.specs.Prelude.{◌-◌, None, IsSome, slice_get, position, take, ℕ};
ghost use Rattle.ep_layout.specs.declared.types.Ty.{Ty};
ghost use Rattle.ep_layout.specs.declared.types.Ty.TheVariants as rows;
ghost use Rattle.ep_layout.specs.SameTypes.{is_same_type};
ghost use Rattle.ep_layout.specs.Chains.{lists, put_behind};
ghost use Rattle.ep_layout.specs.Pointers.{row_over, ArePointersBack, IsNoPointer};

use crate::types::{PointedRow, Ty};
use ep_int::Memory;
use indexmap::IndexSet;
use std::alloc::Global;
use std::marker::Model;

/// A row's chain, which begins with a type that is no pointer, and how many pointers the row is over that type.
#[derive(Clone, Copy, Debug)]
pub(crate) struct ChainPlace {
    pub chain: u32,
    pub depth: u32,
}

/// Types by number, each once.
#[derive(Drop)]
pub struct TypeList {
    types: IndexSet<Ty>,
    /// Of each type.
    places: Vec<ChainPlace>,
    /// Rows, each the pointer to the one before.
    chains: Vec<Vec<u32>>,
    alloc: Global,
}

impl Model for TypeList {
    ghost use Rattle.std.specs.Prelude.{List};
    ghost use Rattle.ep_layout.specs.declared.types.Ty.{Ty};
    ghost use Rattle.ep_layout.specs.Chains.{HasChains};

    ghost Value = { List Ty };

    ghost view = { λ s. s.types.keys };

    ghost invariant = { HasChains };
}

// A row more at the end of a chain.
fn push_behind(chains: &mut Vec<Vec<u32>>, chain: u32, row: u32) -> Result<(), Memory>
    requires { chain < length chains.old.items }
    ensures ok { OnOk result (lists chains.new.items ≡ put_behind (lists chains.old.items) chain row) }
    ensures err { OnErr result (lists chains.new.items ≡ lists chains.old.items) }
{
    match chains[chain as usize].push(row) {
        Ok(()) => Ok(()),
        Err(_) => Err(Memory),
    }
}

fn chain_of_one(alloc: Global, row: u32) -> Result<Vec<u32>, Memory>
    ensures { IfOk result (λ v. v.items ≡ row ∷ []) }
{
    let mut chain = Vec::new(alloc);
    match chain.push(row) {
        Ok(()) => Ok(chain),
        Err(_) => Err(Memory),
    }
}

impl TypeList {
    /// No type.
    pub fn new(alloc: Global) -> TypeList
        ensures { result ≡ [] }
    {
        TypeList {
            types: IndexSet::new(alloc),
            places: Vec::new(alloc),
            chains: Vec::new(alloc),
            alloc,
        }
    }

    /// How many types there are.
    pub fn count(&self) -> usize
        ensures { result ≡ length self.now }
    {
        self.types.len()
    }

    /// The number of a type.
    pub fn number_of(&self, ty: Ty) -> Option<usize>
        ensures number { result ≡ position (is_same_type ty) self.now }
        ensures inside { IfSome result (λ n. n < length self.now) }
    {
        self.types.get_index_of(&ty)
    }

    /// The type of a number.
    pub fn get(&self, n: usize) -> &Ty
        requires { n < length self.now }
        ensures { slice_get self.now n ≡ Some result.now }
    {
        &self.types[n]
    }

    /// The row that so many pointers over a row come to.
    pub fn row_over(&self, row: u32, stars: u32) -> Option<u32>
        requires { row < length self.now }
        ensures row { result ≡ row_over self.now row stars }
        ensures inside { IfSome result (λ n. n < length self.now) }
    {
        let place = self.places[row as usize];
        let chain = &self.chains[place.chain as usize];
        match chain.get(place.depth as usize + stars as usize) {
            None => None,
            Some(row) => Some(*row),
        }
    }

    /// How many pointers over a row are there.
    pub fn stars_over(&self, row: u32) -> usize
        requires { row < length self.now }
        ensures there { IsSome (row_over self.now row result) }
        ensures last { row_over self.now row (result + 1) ≡ None }
        ensures inside { result < length self.now }
    {
        let place = self.places[row as usize];
        self.chains[place.chain as usize].len() - 1 - place.depth as usize
    }

    /// The row at the root of a row's pointers, and how many there are.
    pub fn root_of(&self, row: u32) -> PointedRow
        requires { row < length self.now }
        ensures chain { row_over self.now result.row result.stars ≡ Some row }
        ensures root { IsNoPointer self.now result.row }
        ensures inside { result.row < length self.now }
        ensures few { result.stars < length self.now }
    {
        let place = self.places[row as usize];
        let chain = &self.chains[place.chain as usize];
        PointedRow {
            row: chain[0],
            stars: place.depth,
        }
    }

    /// One type more, which has the next number.
    pub fn push(&mut self, ty: Ty) -> Result<(), Memory>
        requires new { position (is_same_type ty) self.old ≡ None }
        requires few { length self.old < 2 ^ 31 }
        requires target { (e : ℕ) → ty ≡ rows.Ptr e → e < length self.old }
        ensures ok { OnOk result (self.new ≡ self.old ++ ty ∷ []) }
        ensures err { OnErr result (self.new ≡ self.old) }
    {
        match ty {
            Ty::Ptr(to) => self.push_pointer(to),
            _ => self.push_other(ty),
        }
    }

    // A type that is no pointer begins a chain.
    fn push_other(&mut self, ty: Ty) -> Result<(), Memory>
        requires new { position (is_same_type ty) self.old ≡ None }
        requires few { length self.old < 2 ^ 31 }
        requires other { (e : ℕ) → ty ≡ rows.Ptr e → ⊥ }
        ensures ok { OnOk result (self.new ≡ self.old ++ ty ∷ []) }
        ensures err { OnErr result (self.new ≡ self.old) }
    {
        let count = self.types.len();
        let place = ChainPlace {
            chain: self.chains.len() as u32,
            depth: 0,
        };
        let chain = chain_of_one(self.alloc, count as u32)?;
        if self.types.insert(ty).is_err() {
            return Err(Memory);
        }
        if self.places.push(place).is_err() {
            self.types.truncate(count);
            return Err(Memory);
        }
        if self.chains.push(chain).is_err() {
            self.places.truncate(count);
            self.types.truncate(count);
            return Err(Memory);
        }
        Ok(())
    }

    // A pointer goes to the end of its target's chain.
    fn push_pointer(&mut self, to: u32) -> Result<(), Memory>
        requires new { position (is_same_type (rows.Ptr to)) self.old ≡ None }
        requires few { length self.old < 2 ^ 31 }
        requires target { to < length self.old }
        ensures ok { OnOk result (self.new ≡ self.old ++ rows.Ptr to ∷ []) }
        ensures err { OnErr result (self.new ≡ self.old) }
    {
        let count = self.types.len();
        let target = self.places[to as usize];
        let place = ChainPlace {
            chain: target.chain,
            depth: target.depth + 1,
        };
        if self.types.insert(Ty::Ptr(to)).is_err() {
            return Err(Memory);
        }
        if self.places.push(place).is_err() {
            self.types.truncate(count);
            return Err(Memory);
        }
        if push_behind(&mut self.chains, target.chain, count as u32).is_err() {
            self.places.truncate(count);
            self.types.truncate(count);
            return Err(Memory);
        }
        Ok(())
    }

    // The last type goes, and its chain where it begins one.
    fn pop(&mut self)
        requires some { 0 < length self.old }
        requires before { ArePointersBack self.old }
        ensures { self.new ≡ take (length self.old - 1) self.old }
    {
        let last = self.types.len() - 1;
        let place = self.places[last];
        self.types.truncate(last);
        self.places.truncate(last);
        if place.depth == 0 {
            self.chains.truncate(place.chain as usize);
        } else {
            self.chains[place.chain as usize].truncate(place.depth as usize);
        }
    }

    /// The first so many types are left.
    pub fn truncate(&mut self, count: usize)
        requires { ArePointersBack self.old }
        ensures { self.new ≡ take count self.old }
    {
        for _ in count..self.types.len() {
            self.pop();
        }
    }
}
