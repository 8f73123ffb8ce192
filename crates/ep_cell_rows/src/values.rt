//! Values and forms of cells.

ghost use Rattle.std.specs.Prelude.{◌≡◌, ◌↔◌, ◌||◌, IfOk, IsTrue, Some, true, nat_eq};
ghost use Rattle.std.specs.List.{list_any};
ghost use Rattle.ep_pointers.specs.Value.{pointers, together};
ghost use Rattle.ep_cells.specs.Both.{value_of_both, is_value_within, is_form_kept};
ghost use Rattle.ep_cells.specs.Forms.{are_same_segments, have_same_form, common_form};
ghost use Rattle.ep_cells.specs.Kill.{has_target, some_pointer, value_without};
ghost use Rattle.ep_cells.specs.Reshare.{is_single, are_one_number, met_value};
ghost use Rattle.ep_cells.specs.States.{HasRisingBlocks};
ghost use Rattle.ep_cell_rows.specs.Parts.{united};

use ep_bitslice::{BoxedForm, Form};
use ep_cells::Value;
use ep_domain::Num;
use ep_int::Memory;
use ep_pointers::PtrValue;
use std::alloc::Global;

fn copy_some<N: Num>(v: &Value<N>) -> Result<Value<N>, Memory>
    ensures { IfOk result (λ u. u ≡ v.now) }
{
    match v {
        Value::Num(n) => Ok(Value::Num(*n)),
        Value::Ptr(p) => Ok(Value::Ptr(p.copy()?)),
    }
}

/// The same value.
pub fn copy_value<N: Num>(v: &Option<Value<N>>) -> Result<Option<Value<N>>, Memory>
    ensures { IfOk result (λ u. u ≡ v.now) }
{
    match v {
        None => Ok(None),
        Some(v) => Ok(Some(copy_some(v)?)),
    }
}

fn is_number<N: Num>(x: &N, v: &Value<N>) -> bool
    ensures { IsTrue result ↔ (Value.Num x.now ≡ v.now) }
{
    match v {
        Value::Num(y) => x.is_same(y),
        Value::Ptr(_) => false,
    }
}

fn is_pointer<N: Num>(p: &PtrValue<N>, v: &Value<N>) -> bool
    ensures { IsTrue result ↔ (Value.Ptr p.now ≡ v.now) }
{
    match v {
        Value::Num(_) => false,
        Value::Ptr(q) => p.is_same(q),
    }
}

fn are_same_some<N: Num>(u: &Value<N>, v: &Value<N>) -> bool
    ensures { IsTrue result ↔ (u.now ≡ v.now) }
{
    match u {
        Value::Num(x) => is_number(x, v),
        Value::Ptr(p) => is_pointer(p, v),
    }
}

fn is_some_value<N: Num>(u: &Value<N>, v: &Option<Value<N>>) -> bool
    ensures { IsTrue result ↔ (Some u.now ≡ v.now) }
{
    match v {
        None => false,
        Some(v) => are_same_some(u, v),
    }
}

/// Whether both are one value, or neither is there.
pub fn is_same_value<N: Num>(u: &Option<Value<N>>, v: &Option<Value<N>>) -> bool
    ensures { IsTrue result ↔ (u.now ≡ v.now) }
{
    match u {
        None => v.is_none(),
        Some(u) => is_some_value(u, v),
    }
}

/// The same form.
pub fn copy_form(f: &Option<Form>) -> Option<Form>
    ensures { result ≡ f.now }
{
    match f {
        None => None,
        Some(f) => Some(f.copy()),
    }
}

/// The form that a cell keeps.
pub fn form_of(f: &Option<BoxedForm>) -> Option<Form>
    ensures { result ≡ f.now }
{
    match f {
        None => None,
        Some(f) => Some(f.form().copy()),
    }
}

/// A form for a cell to keep.
pub fn boxed(alloc: Global, f: Option<Form>) -> Result<Option<BoxedForm>, Memory>
    ensures { IfOk result (λ g. g ≡ f) }
{
    match f {
        None => Ok(None),
        Some(f) => Ok(Some(BoxedForm::new(alloc, f)?)),
    }
}

/// A form for a cell to keep, made of that of another cell.
pub fn boxed_like(like: &BoxedForm, f: Option<Form>) -> Result<Option<BoxedForm>, Memory>
    ensures { IfOk result (λ g. g ≡ f) }
{
    match f {
        None => Ok(None),
        Some(f) => Ok(Some(like.another(f)?)),
    }
}

/// The same form for another cell to keep.
pub fn copy_boxed(f: &Option<BoxedForm>) -> Result<Option<BoxedForm>, Memory>
    ensures { IfOk result (λ g. g ≡ f.now) }
{
    match f {
        None => Ok(None),
        Some(f) => Ok(Some(f.copy()?)),
    }
}

/// How the values of two states are put together.
#[derive(Clone, Copy)]
pub enum Union {
    Join,
    Widen,
}

impl Union {
    fn numbers<N: Num>(self, x: &N, y: &N) -> N
        ensures { result ≡ united N.ops self x.now y.now }
    {
        match self {
            Union::Join => x.join(y),
            Union::Widen => x.widen(y),
        }
    }

    fn pointers<N: Num>(self, p: &PtrValue<N>, q: &PtrValue<N>) -> Result<PtrValue<N>, Memory>
        ensures { IfOk result (λ r. r ≡ pointers (p.now.null || q.now.null)
            (together (united N.ops self) p.now.targets q.now.targets)) }
    {
        match self {
            Union::Join => p.join(q),
            Union::Widen => p.widen(q),
        }
    }

    fn number_and<N: Num>(self, x: &N, v: &Value<N>) -> Result<Value<N>, Memory>
        ensures { IfOk result (λ u. Some u ≡ value_of_both (united N.ops self) (Some (Value.Num x.now)) (Some v.now)) }
    {
        match v {
            Value::Num(y) => Ok(Value::Num(self.numbers(x, y))),
            Value::Ptr(_) => Ok(Value::Num(*x)),
        }
    }

    fn pointer_and<N: Num>(self, p: &PtrValue<N>, v: &Value<N>) -> Result<Value<N>, Memory>
        ensures { IfOk result (λ u. Some u ≡ value_of_both (united N.ops self) (Some (Value.Ptr p.now)) (Some v.now)) }
    {
        match v {
            Value::Num(_) => Ok(Value::Ptr(p.copy()?)),
            Value::Ptr(q) => Ok(Value::Ptr(self.pointers(p, q)?)),
        }
    }

    fn some<N: Num>(self, u: &Value<N>, v: &Value<N>) -> Result<Value<N>, Memory>
        ensures { IfOk result (λ w. Some w ≡ value_of_both (united N.ops self) (Some u.now) (Some v.now)) }
    {
        match u {
            Value::Num(x) => self.number_and(x, v),
            Value::Ptr(p) => self.pointer_and(p, v),
        }
    }

    fn some_and<N: Num>(
        self,
        u: &Value<N>,
        v: &Option<Value<N>>,
    ) -> Result<Option<Value<N>>, Memory>
        ensures { IfOk result (λ w. w ≡ value_of_both (united N.ops self) (Some u.now) v.now) }
    {
        match v {
            None => Ok(Some(copy_some(u)?)),
            Some(v) => Ok(Some(self.some(u, v)?)),
        }
    }

    /// The value of either.
    pub fn values<N: Num>(
        self,
        u: &Option<Value<N>>,
        v: &Option<Value<N>>,
    ) -> Result<Option<Value<N>>, Memory>
        ensures { IfOk result (λ w. w ≡ value_of_both (united N.ops self) u.now v.now) }
    {
        match u {
            None => copy_value(v),
            Some(u) => self.some_and(u, v),
        }
    }
}

fn are_same(f: &Form, g: &Form) -> bool
    ensures { result ≡ are_same_segments f.now g.now }
{
    f.is_same(g)
}

fn has_form(f: &Form, g: &Option<Form>) -> bool
    ensures { result ≡ have_same_form (Some f.now) g.now }
{
    match g {
        None => false,
        Some(g) => are_same(f, g),
    }
}

/// Whether both have the same form.
pub fn have_same_form(f: &Option<Form>, g: &Option<Form>) -> bool
    ensures { result ≡ have_same_form f.now g.now }
{
    match f {
        None => false,
        Some(f) => has_form(f, g),
    }
}

fn keeps_form(f: &BoxedForm, g: &Option<BoxedForm>) -> bool
    ensures { result ≡ have_same_form (Some f.now) g.now }
{
    match g {
        None => false,
        Some(g) => are_same(f.form(), g.form()),
    }
}

/// Whether two cells keep the same form.
pub fn keep_same_form(f: &Option<BoxedForm>, g: &Option<BoxedForm>) -> bool
    ensures { result ≡ have_same_form f.now g.now }
{
    match f {
        None => false,
        Some(f) => keeps_form(f, g),
    }
}

fn is_some_form(f: &BoxedForm, g: &Option<BoxedForm>) -> bool
    ensures { IsTrue result ↔ (Some f.now ≡ g.now) }
{
    match g {
        None => false,
        Some(g) => f.form().is_same(g.form()),
    }
}

/// Whether two cells keep one form, or neither keeps one.
pub fn is_same_form(f: &Option<BoxedForm>, g: &Option<BoxedForm>) -> bool
    ensures { IsTrue result ↔ (f.now ≡ g.now) }
{
    match f {
        None => g.is_none(),
        Some(f) => is_some_form(f, g),
    }
}

/// The form that both keep.
pub fn common_form(
    f: &Option<BoxedForm>,
    g: &Option<BoxedForm>,
) -> Result<Option<BoxedForm>, Memory>
    ensures { IfOk result (λ h. h ≡ common_form f.now g.now) }
{
    if keep_same_form(f, g) {
        copy_boxed(f)
    } else {
        Ok(None)
    }
}

/// Whether the second has no form, or both have the same.
pub fn is_form_kept(f: &Option<BoxedForm>, g: &Option<BoxedForm>) -> bool
    ensures { result ≡ is_form_kept f.now g.now }
{
    match g {
        None => true,
        Some(_) => keep_same_form(f, g),
    }
}

fn is_number_within<N: Num>(x: &N, v: &Value<N>) -> bool
    ensures { result ≡ is_value_within N.ops (Some (Value.Num x.now)) (Some v.now) }
{
    match v {
        Value::Num(y) => x.within(y),
        Value::Ptr(_) => false,
    }
}

fn is_pointer_within<N: Num>(p: &PtrValue<N>, v: &Value<N>) -> bool
    ensures { result ≡ is_value_within N.ops (Some (Value.Ptr p.now)) (Some v.now) }
{
    match v {
        Value::Num(_) => false,
        Value::Ptr(q) => p.within(q),
    }
}

fn is_some_within<N: Num>(u: &Value<N>, v: &Value<N>) -> bool
    ensures { result ≡ is_value_within N.ops (Some u.now) (Some v.now) }
{
    match u {
        Value::Num(x) => is_number_within(x, v),
        Value::Ptr(p) => is_pointer_within(p, v),
    }
}

fn is_some_within_any<N: Num>(u: &Value<N>, v: &Option<Value<N>>) -> bool
    ensures { result ≡ is_value_within N.ops (Some u.now) v.now }
{
    match v {
        None => false,
        Some(v) => is_some_within(u, v),
    }
}

/// Whether there is no value, or one within the other.
pub fn is_value_within<N: Num>(u: &Option<Value<N>>, v: &Option<Value<N>>) -> bool
    ensures { result ≡ is_value_within N.ops u.now v.now }
{
    match u {
        None => true,
        Some(u) => is_some_within_any(u, v),
    }
}

fn has_block<N: Num>(targets: &[(u32, N)], block: u32) -> bool
    ensures { result ≡ list_any (λ t. nat_eq t.0 block) targets.now }
{
    targets.iter().any(|t| t.0 == block)
}

fn has_some<N: Num>(targets: &[(u32, N)]) -> bool
    ensures { result ≡ list_any (λ t. true) targets.now }
{
    targets.iter().any(|_t| true)
}

fn some_has_target<N: Num>(v: &Value<N>, block: u32) -> bool
    ensures { result ≡ has_target block (Some v.now) }
{
    match v {
        Value::Num(_) => false,
        Value::Ptr(p) => has_block(p.targets(), block),
    }
}

/// Whether a value is a pointer that may be into the block.
pub fn has_target<N: Num>(v: &Option<Value<N>>, block: u32) -> bool
    ensures { result ≡ has_target block v.now }
{
    match v {
        None => false,
        Some(v) => some_has_target(v, block),
    }
}

fn is_something<N: Num>(p: &PtrValue<N>) -> bool
    ensures { result ≡ (p.now.null || list_any (λ t. true) p.now.targets) }
{
    p.may_be_null() || has_some(p.targets())
}

fn some_pointer<N: Num>(p: PtrValue<N>) -> Option<Value<N>>
    ensures { result ≡ some_pointer p }
{
    if is_something(&p) {
        Some(Value::Ptr(p))
    } else {
        None
    }
}

fn some_without<N: Num>(v: &Value<N>, block: u32) -> Result<Option<Value<N>>, Memory>
    ensures { IfOk result (λ u. u ≡ value_without block (Some v.now)) }
{
    match v {
        Value::Num(n) => Ok(Some(Value::Num(*n))),
        Value::Ptr(p) => {
            let mut left = p.copy()?;
            left.forget(block);
            Ok(some_pointer(left))
        }
    }
}

/// The value without the target of a block.
pub fn value_without<N: Num>(v: &Option<Value<N>>, block: u32) -> Result<Option<Value<N>>, Memory>
    ensures { IfOk result (λ u. u ≡ value_without block v.now) }
{
    match v {
        None => Ok(None),
        Some(v) => some_without(v, block),
    }
}

fn is_single(range: (i128, i128)) -> bool
    ensures { result ≡ is_single range }
{
    range.0 == range.1
}

fn are_one_single<N: Num>(x: &N, y: &N) -> bool
    ensures { result ≡ are_one_number N.ops (Some (Value.Num x.now)) (Some (Value.Num y.now)) }
{
    is_single(x.range()) && is_single(y.range()) && x.range().0 == y.range().0
}

fn is_one_number<N: Num>(x: &N, v: &Value<N>) -> bool
    ensures { result ≡ are_one_number N.ops (Some (Value.Num x.now)) (Some v.now) }
{
    match v {
        Value::Num(y) => are_one_single(x, y),
        Value::Ptr(_) => false,
    }
}

fn is_some_number<N: Num>(u: &Value<N>, v: &Value<N>) -> bool
    ensures { result ≡ are_one_number N.ops (Some u.now) (Some v.now) }
{
    match u {
        Value::Num(x) => is_one_number(x, v),
        Value::Ptr(_) => false,
    }
}

fn is_some_number_of<N: Num>(u: &Value<N>, v: &Option<Value<N>>) -> bool
    ensures { result ≡ are_one_number N.ops (Some u.now) v.now }
{
    match v {
        None => false,
        Some(v) => is_some_number(u, v),
    }
}

/// Whether both values are the same single number.
pub fn are_one_number<N: Num>(u: &Option<Value<N>>, v: &Option<Value<N>>) -> bool
    ensures { result ≡ are_one_number N.ops u.now v.now }
{
    match u {
        None => false,
        Some(u) => is_some_number_of(u, v),
    }
}

fn met_number<N: Num>(x: &N, y: &N) -> Value<N>
    ensures { Some result ≡ met_value N.ops (Some (Value.Num x.now)) (Some (Value.Num y.now)) }
{
    match x.meet(y) {
        Some(z) => Value::Num(z),
        None => Value::Num(*x),
    }
}

fn met_with<N: Num>(x: &N, v: &Value<N>) -> Value<N>
    ensures { Some result ≡ met_value N.ops (Some (Value.Num x.now)) (Some v.now) }
{
    match v {
        Value::Num(y) => met_number(x, y),
        Value::Ptr(_) => Value::Num(*x),
    }
}

fn met_some<N: Num>(u: &Value<N>, v: &Value<N>) -> Result<Value<N>, Memory>
    ensures { IfOk result (λ w. Some w ≡ met_value N.ops (Some u.now) (Some v.now)) }
{
    match u {
        Value::Num(x) => Ok(met_with(x, v)),
        Value::Ptr(p) => Ok(Value::Ptr(p.copy()?)),
    }
}

fn met_some_with<N: Num>(u: &Value<N>, v: &Option<Value<N>>) -> Result<Option<Value<N>>, Memory>
    ensures { IfOk result (λ w. w ≡ met_value N.ops (Some u.now) v.now) }
{
    match v {
        None => Ok(Some(copy_some(u)?)),
        Some(v) => Ok(Some(met_some(u, v)?)),
    }
}

/// The meet of two numbers where there is one, else the first value.
pub fn met_value<N: Num>(
    u: &Option<Value<N>>,
    v: &Option<Value<N>>,
) -> Result<Option<Value<N>>, Memory>
    ensures { IfOk result (λ w. w ≡ met_value N.ops u.now v.now) }
{
    match u {
        None => Ok(None),
        Some(u) => met_some_with(u, v),
    }
}

fn some_rises<N: Num>(v: &Value<N>)
    ensures { HasRisingBlocks (Some v.now) }
{
    match v {
        Value::Num(_) => {}
        Value::Ptr(p) => {
            p.targets();
        }
    }
}

/// Does nothing: its contract is that the blocks of a pointer rise.
pub fn rises<N: Num>(v: &Option<Value<N>>)
    ensures { HasRisingBlocks v.now }
{
    match v {
        None => {}
        Some(v) => some_rises(v),
    }
}
