//! Tests on types, and what a table says of them.

ghost use Rattle.std.specs.Prelude.{◌≡◌, ◌+◌, ◌^◌, IfErr, IfOk, Option, Some, None, slice_get, pos, ◌≤◌, ◌<◌, IfSome};
ghost use Rattle.std.specs.Prelude.{length};
ghost use Rattle.ep_typing.specs.Types as rule;
ghost use Rattle.ep_layout.specs.Table as table;
ghost use Rattle.ep_layout.specs.Pointers.{IsNoPointer};
ghost use Rattle.ep_int.specs.Arith.{is_in_range};

use ep_ast::Literal;
use ep_int::{IntType, Memory, Model, Scalar, bytes, in_range, pointer_bytes};
use ep_layout::{Ty, Types};
use ep_typing::{Base, CType};
use std::alloc::AllocError;

/// A type without stars.
pub fn whole(base: Base) -> CType
    ensures { result ≡ rule.whole base }
{
    CType { base, stars: 0 }
}

/// An integer type as a type of C.
pub fn int_type(t: IntType) -> CType
    ensures { result ≡ rule.int_type t }
{
    whole(Base::Int(t))
}

/// `void`.
pub fn void_type() -> CType
    ensures { result ≡ rule.void_type }
{
    whole(Base::Void)
}

/// `void *`.
pub fn void_pointer() -> CType
    ensures { result ≡ rule.void_pointer }
{
    CType {
        base: Base::Void,
        stars: 1,
    }
}

/// A pointer to a type. Only so many stars as memory can't hold are too many.
pub fn pointer_to(c: CType) -> Result<CType, AllocError>
    ensures means { IfOk result (λ d. d ≡ rule.pointer_to c) }
    ensures full { IfErr result (λ _. 2 ^ 32 ≤ c.stars + 1) }
{
    match c.stars.checked_add(1) {
        Some(stars) => Ok(CType {
            base: c.base,
            stars,
        }),
        None => Err(AllocError),
    }
}

/// So many pointers, one to the other, to a type.
pub fn with_stars(c: CType, count: usize) -> Result<CType, Memory>
    ensures means { IfOk result (λ d. d ≡ rule.with_stars c count) }
    ensures full { IfErr result (λ _. 2 ^ 32 ≤ c.stars + count) }
{
    let Ok(stars) = u32::try_from(count) else {
        return Err(Memory);
    };
    match c.stars.checked_add(stars) {
        Some(stars) => Ok(CType {
            base: c.base,
            stars,
        }),
        None => Err(Memory),
    }
}

/// What a pointer points to; another type than a pointer stays as it is.
pub fn target(c: CType) -> CType
    ensures { result ≡ rule.target c }
{
    CType {
        base: c.base,
        stars: c.stars.saturating_sub(1),
    }
}

/// Whether it is a pointer.
pub fn is_pointer(c: CType) -> bool
    ensures { result ≡ rule.is_pointer c }
{
    0 < c.stars
}

fn is_void_base(base: Base) -> bool
    ensures { result ≡ rule.is_void_base base }
{
    match base {
        Base::Void => true,
        Base::Int(_) => false,
        Base::Array(_) => false,
        Base::Aggregate(_) => false,
    }
}

fn is_int_base(base: Base) -> bool
    ensures { result ≡ rule.is_int_base base }
{
    match base {
        Base::Void => false,
        Base::Int(_) => true,
        Base::Array(_) => false,
        Base::Aggregate(_) => false,
    }
}

fn is_array_base(base: Base) -> bool
    ensures { result ≡ rule.is_array_base base }
{
    match base {
        Base::Void => false,
        Base::Int(_) => false,
        Base::Array(_) => true,
        Base::Aggregate(_) => false,
    }
}

fn is_aggregate_base(base: Base) -> bool
    ensures { result ≡ rule.is_aggregate_base base }
{
    match base {
        Base::Void => false,
        Base::Int(_) => false,
        Base::Array(_) => false,
        Base::Aggregate(_) => true,
    }
}

/// Whether it is `void`.
pub fn is_void(c: CType) -> bool
    ensures { result ≡ rule.is_void c }
{
    if is_pointer(c) {
        false
    } else {
        is_void_base(c.base)
    }
}

/// Whether it is an integer type.
pub fn is_integer(c: CType) -> bool
    ensures { result ≡ rule.is_integer c }
{
    if is_pointer(c) {
        false
    } else {
        is_int_base(c.base)
    }
}

/// Whether it is an array.
pub fn is_array(c: CType) -> bool
    ensures { result ≡ rule.is_array c }
{
    if is_pointer(c) {
        false
    } else {
        is_array_base(c.base)
    }
}

/// Whether it is a structure or a union.
pub fn is_aggregate(c: CType) -> bool
    ensures { result ≡ rule.is_aggregate c }
{
    if is_pointer(c) {
        false
    } else {
        is_aggregate_base(c.base)
    }
}

/// An integer or a pointer.
pub fn is_scalar(c: CType) -> bool
    ensures { result ≡ rule.is_scalar c }
{
    if is_pointer(c) {
        true
    } else {
        is_int_base(c.base)
    }
}

/// Whether it is `void *`.
pub fn is_void_pointer(c: CType) -> bool
    ensures { result ≡ rule.is_void_pointer c }
{
    if is_pointer(c) {
        is_void(target(c))
    } else {
        false
    }
}

/// The integer type that a type is; of another type any.
pub fn int_of(c: CType) -> IntType
    ensures { result ≡ rule.int_of c }
{
    match c.base {
        Base::Void => IntType::I32,
        Base::Int(t) => t,
        Base::Array(_) => IntType::I32,
        Base::Aggregate(_) => IntType::I32,
    }
}

fn number_in(base: Base) -> u32
    ensures { result ≡ rule.number_in base }
{
    match base {
        Base::Void => 0,
        Base::Int(_) => 0,
        Base::Array(n) => n,
        Base::Aggregate(a) => a,
    }
}

/// The number of an array type or of an aggregate, where a type is one.
pub fn number_of(c: CType) -> u32
    ensures { result ≡ rule.number_in c.base }
{
    number_in(c.base)
}

/// The scalar that a value of this type is in memory.
pub fn scalar_of(c: CType) -> Scalar
    ensures { result ≡ rule.scalar_of c }
{
    if is_pointer(c) {
        Scalar::Pointer
    } else {
        Scalar::Int(int_of(c))
    }
}

// The type of a number, if there is one.
fn row(types: &Types, number: u32) -> Option<Ty>
    ensures { result ≡ slice_get types.now.types number }
{
    if number < types.type_count() {
        Some(*types.ty(number))
    } else {
        None
    }
}

// The type of an array's elements, and how many there are.
fn elements_of(types: &Types, number: u32) -> Option<(u32, u32)>
    ensures { result ≡ table.elements_of types.now number }
{
    match row(types, number) {
        None => None,
        Some(Ty::Void) => None,
        Some(Ty::Int(_)) => None,
        Some(Ty::Ptr(_)) => None,
        Some(Ty::Array(element, count)) => Some((element, count)),
        Some(Ty::Aggregate(_)) => None,
    }
}

// The base that a row which is no pointer has.
fn base_of(types: &Types, number: u32) -> Base
    requires inside { number < length types.now.types }
    requires root { IsNoPointer types.now.types number }
    ensures { rule.whole result ≡ rule.type_of types.now number }
{
    match *types.ty(number) {
        Ty::Void => Base::Void,
        Ty::Int(t) => Base::Int(t),
        Ty::Ptr(_) => Base::Void,
        Ty::Array(_, _) => Base::Array(number),
        Ty::Aggregate(a) => Base::Aggregate(a),
    }
}

/// The type of a number. A pointer stands behind what it points to.
pub fn type_of(types: &Types, number: u32) -> CType
    ensures { result ≡ rule.type_of types.now number }
{
    if number >= types.type_count() {
        return void_type();
    }
    let root = types.root_of(number);
    CType {
        base: base_of(types, root.row),
        stars: root.stars,
    }
}

/// The type of an array's elements, or of what a pointer points to.
pub fn element_of(types: &Types, c: CType) -> CType
    ensures { result ≡ rule.element_of types.now c }
{
    match elements_of(types, number_in(c.base)) {
        Some(pair) => type_of(types, pair.0),
        None => type_of(types, 0),
    }
}

/// How many elements an array has.
pub fn bound_of(types: &Types, c: CType) -> u32
    ensures { result ≡ rule.bound_of types.now c }
{
    match elements_of(types, number_in(c.base)) {
        Some(pair) => pair.1,
        None => 0,
    }
}

fn array_size(types: &Types, number: u32) -> Option<u32>
    ensures { result ≡ table.size types.now number }
{
    if number < types.type_count() {
        types.size(number)
    } else {
        None
    }
}

fn aggregate_size(types: &Types, aggregate: u32) -> Option<u32>
    ensures { result ≡ rule.base_size types.now (Base.Aggregate aggregate) }
{
    if aggregate < types.aggregate_count() {
        types.aggregate_size(aggregate)
    } else {
        None
    }
}

fn base_size(types: &Types, base: Base) -> Option<u32>
    ensures { result ≡ rule.base_size types.now base }
{
    match base {
        Base::Void => None,
        Base::Int(t) => Some(bytes(t)),
        Base::Array(n) => array_size(types, n),
        Base::Aggregate(a) => aggregate_size(types, a),
    }
}

/// The number of bytes of a type; none of void and of what isn't completed.
pub fn size_of_type(types: &Types, c: CType) -> Option<u32>
    ensures { result ≡ rule.size_of_type types.now c }
{
    if is_pointer(c) {
        Some(pointer_bytes(types.model()))
    } else {
        base_size(types, c.base)
    }
}

/// The number of a type that is there; of another 0.
pub fn known_number(types: &Types, ty: Ty) -> u32
    ensures { result ≡ rule.known_number types.now ty }
{
    match types.number_of(ty) {
        Some(n) => n,
        None => 0,
    }
}

/// What `sizeof` gives.
pub fn size_type(model: Model) -> IntType
    ensures { result ≡ rule.size_type model }
{
    match model {
        Model::Ilp32 => IntType::U32,
        Model::Lp64 => IntType::U64,
    }
}

fn is_long(model: Model, n: Literal) -> bool
    ensures { result ≡ rule.is_long model n }
{
    match model {
        Model::Ilp32 => n.longs == 2,
        Model::Lp64 => 0 < n.longs,
    }
}

fn holds(t: IntType, n: u64) -> bool
    ensures { result ≡ is_in_range t (pos n) }
{
    in_range(t, i128::from(n))
}

// The first of these types that holds a number.
fn first_holding(n: u64, types: &[IntType]) -> IntType
    ensures { result ≡ rule.first_holding (pos n) types.now }
{
    for t in types {
        if holds(*t, n) {
            return *t;
        }
    }
    IntType::U64
}

// The types that a number may have, in their order.
fn number_types(model: Model, n: Literal) -> &'static [IntType]
    ensures { result.now ≡ rule.number_types model n }
{
    if is_long(model, n) {
        if n.unsigned {
            return &[IntType::U64];
        }
        if n.decimal {
            return &[IntType::I64];
        }
        return &[IntType::I64, IntType::U64];
    }
    if n.unsigned {
        return &[IntType::U32, IntType::U64];
    }
    if n.decimal {
        return &[IntType::I32, IntType::I64];
    }
    &[IntType::I32, IntType::U32, IntType::I64, IntType::U64]
}

/// The type of a number as it is written.
pub(crate) fn number_type(model: Model, n: Literal) -> IntType
    ensures { result ≡ rule.number_type model n }
{
    first_holding(n.value, number_types(model, n))
}
