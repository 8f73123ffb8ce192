//! What stands round an expression.

ghost use Rattle.std.specs.Prelude.{◌≡◌, ◌<◌, IfOk, OnOk, IsTrue, None, Some, bytes_eq, length, position};
ghost use Rattle.std.specs.Prelude.{slice_get};
ghost use Rattle.std.specs.Option.{option_map};
ghost use Rattle.ep_layout.specs.Table as table;
ghost use Rattle.ep_typing.specs.Env as rule;
ghost use Rattle.ep_typing.specs.Types as types_of;
ghost use Rattle.ep_scopes.specs.Known.{IsKnown, IsKnownBase};
ghost use Rattle.ep_scopes.specs.View as view;

use crate::fields::Fields;
use crate::scopes::Scopes;
use ep_core::program::BlockInfo;
use ep_int::{Memory, Model};
use ep_layout::{PointedRow, Ty, Types};
use ep_operands::{as_number, has_room, known_number};
use ep_typing::{Base, CType};
use indexmap::IndexMap;
use std::alloc::{AllocError, Global};

/// The types of a function's parameters and of its result; the result of one without is void.
#[derive(Debug, Drop)]
pub struct FunctionType {
    pub params: Vec<CType>,
    pub result: CType,
}

/// Names, tags, blocks, functions, types and bit-fields so far. Functions are numbered in their order.
#[derive(Drop)]
pub struct Env {
    pub types: Types,
    pub fields: Fields,
    pub scopes: Scopes,
    pub blocks: Vec<BlockInfo>,
    pub functions: IndexMap<Vec<u8>, FunctionType>,
    pub alloc: Global,
}

fn opened(alloc: Global) -> Result<Scopes, AllocError>
    ensures { IfOk result (λ s. view.scopes s ≡ (rule.start Model.Ilp32).scopes) }
{
    let mut scopes = Scopes::new(alloc);
    scopes.enter()?;
    Ok(scopes)
}

impl Env {
    /// The file's scope, with nothing in it.
    pub fn new(alloc: Global, model: Model) -> Result<Env, AllocError>
        ensures { IfOk result (λ e. view.env e ≡ rule.start model) }
    {
        let scopes = opened(alloc)?;
        Ok(Env {
            types: Types::new(alloc, model),
            fields: Fields::new(alloc),
            scopes,
            blocks: Vec::new(alloc),
            functions: IndexMap::new(alloc),
            alloc,
        })
    }
}

// The number of a type that is no array.
fn add_row(types: &mut Types, ty: Ty) -> Result<u32, Memory>
    requires { IsTrue (table.names_known types.old ty) }
    ensures number { IfOk result (λ n. n ≡ types_of.known_number types.new ty) }
    ensures inside { IfOk result (λ n. n < length types.new.types) }
    ensures grown { OnOk result (types.new ≡ table.type_added types.old ty) }
{
    has_room(types.type_count())?;
    match types.add(ty) {
        Ok(n) => Ok(n),
        Err(_) => Err(Memory),
    }
}

fn add_base(types: &mut Types, base: Base) -> Result<u32, Memory>
    requires { IsKnownBase types.old base }
    ensures number { IfOk result (λ n. n ≡ types_of.base_number types.new base) }
    ensures inside { IfOk result (λ n. n < length types.new.types) }
    ensures grown { OnOk result (types.new ≡ types_of.with_base types.old base) }
{
    match base {
        Base::Void => add_row(types, Ty::Void),
        Base::Int(t) => add_row(types, Ty::Int(t)),
        Base::Array(n) => Ok(n),
        Base::Aggregate(a) => add_row(types, Ty::Aggregate(a)),
    }
}

// The deepest of so many pointers over a row that is in the table, and how many are behind that.
fn deepest(types: &Types, row: u32, stars: u32) -> PointedRow
    ensures inside { row < length types.now.types → result.row < length types.now.types }
    ensures grown { types_of.with_pointers types.now row stars
        ≡ types_of.with_pointers types.now result.row result.stars }
    ensures number { types_of.pointer_number types.now row stars
        ≡ types_of.pointer_number types.now result.row result.stars }
{
    if row >= types.type_count() {
        return PointedRow { row, stars };
    }
    let known = stars.min(types.pointers_over(row));
    match types.pointer_row(row, known) {
        None => PointedRow { row, stars },
        Some(deep) => PointedRow {
            row: deep,
            stars: stars - known,
        },
    }
}

/// A type comes into the table: its base, then each of its pointers that isn't there.
pub fn add_type(types: &mut Types, c: CType) -> Result<(), Memory>
    requires { IsKnown types.old c }
    ensures { OnOk result (types.new ≡ types_of.with_c_type types.old c) }
{
    let base = add_base(types, c.base)?;
    let behind = deepest(types, base, c.stars);
    let mut number = behind.row;
    for i in 0..behind.stars {
        number = add_row(types, Ty::Ptr(number))?;
    }
    Ok(())
}

fn base_number(types: &Types, base: Base) -> u32
    ensures { result ≡ types_of.base_number types.now base }
{
    match base {
        Base::Void => known_number(types, Ty::Void),
        Base::Int(t) => known_number(types, Ty::Int(t)),
        Base::Array(n) => n,
        Base::Aggregate(a) => known_number(types, Ty::Aggregate(a)),
    }
}

/// The number of a type that is in the table.
pub fn type_number(types: &Types, c: CType) -> u32
    ensures { result ≡ types_of.c_type_number types.now c }
{
    let base = base_number(types, c.base);
    let behind = deepest(types, base, c.stars);
    let mut number = behind.row;
    for i in 0..behind.stars {
        number = known_number(types, Ty::Ptr(number));
    }
    number
}

// A struct or union without members takes the next number.
fn add_aggregate(types: &mut Types, tag: Vec<u8>, is_union: bool) -> Result<u32, Memory>
    ensures number { IfOk result (λ n. n ≡ length types.old.aggregates) }
    ensures grown { OnOk result (types.new ≡ table.declared types.old tag.items is_union) }
{
    has_room(types.aggregate_count())?;
    types.declare(tag, is_union)
}

impl Env {
    fn text(&self, name: &[u8]) -> Result<Vec<u8>, Memory>
        ensures { IfOk result (λ v. v.items ≡ name.now) }
    {
        match Vec::from_slice(self.alloc, name) {
            Ok(text) => Ok(text),
            Err(_) => Err(Memory),
        }
    }

    /// A tag that no scope has is declared in the innermost one.
    pub fn declare_tag(&mut self, tag: &[u8], is_union: bool) -> Result<(), Memory>
        requires { rule.look_up_tag tag.now (view.env self.old).scopes ≡ None }
        ensures { OnOk result (view.env self.new ≡ rule.with_tag (view.env self.old) tag.now is_union) }
    {
        let text = self.text(tag)?;
        let number = add_aggregate(&mut self.types, text, is_union)?;
        match self.scopes.declare_tag(tag, number) {
            Ok(()) => Ok(()),
            Err(_) => Err(Memory),
        }
    }

    /// The number of the function of a name that was declared, whether a scope has it or not.
    pub fn function_number(&self, name: &[u8]) -> Option<usize>
        ensures { result ≡ position (λ (s : rule.Signature). bytes_eq name.now s.name) (view.env self.now).functions }
    {
        self.functions.get_index_of(name)
    }

    /// The types of the function of a number.
    pub fn function(&self, number: u32) -> Option<&FunctionType>
        ensures { option_map (λ t. view.function_type t.now) result
            ≡ option_map view.type_of (slice_get (view.env self.now).functions number) }
    {
        match self.functions.get_index(number as usize) {
            Some((_, ty)) => Some(ty),
            None => None,
        }
    }

    /// A function whose name none has takes the next number, which no scope has a name for.
    pub fn add_function(&mut self, name: &[u8], ty: FunctionType) -> Result<u32, Memory>
        requires { position (λ (s : rule.Signature). bytes_eq name.now s.name) (view.env self.old).functions ≡ None }
        ensures number { IfOk result (λ n. n ≡ length (view.env self.old).functions) }
        ensures grown { OnOk result (view.env self.new
            ≡ view.with_function (view.env self.old) name.now (view.function_type ty)) }
    {
        let number = as_number(self.functions.len())?;
        let text = self.text(name)?;
        match self.functions.insert(text, ty) {
            Ok(_) => Ok(number),
            Err(_) => Err(Memory),
        }
    }
}
