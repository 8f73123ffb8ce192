//! Certificates of parts.

ghost use Rattle.std.specs.Prelude.{◌≡◌, ◌↔◌, map, IsTrue, IfOk, IfSome, IfNone};
ghost use Rattle.ep_cert_cells.specs.Bytes.{Every, HasRoom, IsTarget, IsPointer, IsValue};
ghost use Rattle.ep_cert.specs.Certificate.{shown, certificate_of, IsBounded, IsWritable, IsHead, IsCertificate};
ghost use Rattle.ep_cert.specs.Certificate.{IsWithin};

use crate::Cert;
use crate::decoding::GREATEST_SOURCE;
use crate::opening::GREATEST_UNROLL;
use ep_cells::{Cell, Value};
use ep_cert_cells::Numbers;
use ep_int::{Memory, Model, Order};
use ep_pointers::PtrValue;
use ep_states::State;

// Whether four bytes have room for a count.
fn has_room(count: usize) -> bool
    ensures { IsTrue result ↔ HasRoom count }
{
    count <= u32::MAX as usize
}

// True of every target: a proof has the range of a number behind a reference only from a test.
fn is_target(target: &(u32, Numbers)) -> bool
    ensures { IsTrue result ↔ IsTarget target.now }
{
    has_room(target.0 as usize)
}

fn are_targets(targets: &[(u32, Numbers)]) -> bool
    ensures { IsTrue result ↔ Every IsTarget targets.now }
{
    for t in targets {
        if !is_target(t) {
            return false;
        }
    }
    true
}

fn is_pointer(pointer: &PtrValue<Numbers>) -> bool
    ensures { IsTrue result ↔ IsPointer pointer.now }
{
    let targets = pointer.targets();
    has_room(targets.len()) & are_targets(targets) & (pointer.may_be_null() | !targets.is_empty())
}

fn is_some_value(value: &Value<Numbers>) -> bool
    ensures { IsTrue result ↔ IsValue (Some value.now) }
{
    match value {
        Value::Num(_) => true,
        Value::Ptr(pointer) => is_pointer(pointer),
    }
}

fn is_value(value: &Option<Value<Numbers>>) -> bool
    ensures { IsTrue result ↔ IsValue value.now }
{
    match value {
        None => true,
        Some(value) => is_some_value(value),
    }
}

fn is_bounded(cell: &Cell<Numbers>) -> bool
    ensures { IsTrue result ↔ IsBounded cell.now }
{
    has_room(cell.block as usize) & is_value(&cell.value)
}

fn are_bounded(cells: &[&Cell<Numbers>]) -> bool
    ensures { IsTrue result ↔ Every IsBounded (map (λ r. r.now) cells.now) }
{
    for c in cells {
        if !is_bounded(c) {
            return false;
        }
    }
    true
}

// Whether a state has bytes. What every state keeps isn't tested.
fn is_writable(head: &State<Numbers>) -> Result<bool, Memory>
    ensures { IfOk result (λ b. IsTrue b ↔ IsWritable head.now) }
{
    head.model();
    let cells = head.all()?;
    Ok(has_room(cells.len()) & are_bounded(&cells))
}

fn are_orders(a: (Order, Order), b: (Order, Order)) -> bool
    ensures { IsTrue result ↔ (a ≡ b) }
{
    a == b
}

fn is_model(a: Model, b: Model) -> bool
    ensures { IsTrue result ↔ (a ≡ b) }
{
    a == b
}

fn is_head(cert: &Cert, head: &State<Numbers>) -> Result<bool, Memory>
    ensures { IfOk result (λ b. IsTrue b ↔ IsHead (shown cert.now) head.now) }
{
    if !are_orders(head.orders(), cert.orders) {
        return Ok(false);
    }
    if !is_model(head.model(), cert.model) {
        return Ok(false);
    }
    is_writable(head)
}

fn are_heads(cert: &Cert, heads: &[State<Numbers>]) -> Result<bool, Memory>
    ensures { IfOk result (λ b. IsTrue b ↔ Every (IsHead (shown cert.now)) heads.now) }
{
    for h in heads {
        if !is_head(cert, h)? {
            return Ok(false);
        }
    }
    Ok(true)
}

// Whether all but the heads is a certificate's.
fn is_within(cert: &Cert) -> bool
    ensures { IsTrue result ↔ IsWithin (shown cert.now) }
{
    (cert.orders.0 != cert.orders.1)
        & (cert.unroll <= GREATEST_UNROLL)
        & (cert.source.len() <= GREATEST_SOURCE as usize)
}

fn is_certificate(cert: &Cert) -> Result<bool, Memory>
    ensures { IfOk result (λ b. IsTrue b ↔ IsCertificate (shown cert.now)) }
{
    if !is_within(cert) {
        return Ok(false);
    }
    are_heads(cert, &cert.heads)
}

/// The certificate of these parts. `None` where they have no spelling: orders that are equal, too many turns, a source
/// that is too long, a head of other machines or with too many cells, or a pointer there that is nothing. Takes the
/// memory of the longest list of a head's cells.
pub fn certificate(
    orders: (Order, Order),
    model: Model,
    unroll: u32,
    heads: Vec<State<Numbers>>,
    source: Vec<u8>,
) -> Result<Option<Cert>, Memory>
    ensures some { IfOk result (λ o. IfSome o (λ c.
        IsCertificate (shown c) × (shown c ≡ certificate_of orders model unroll heads.items source.items))) }
    ensures none { IfOk result (λ o. IfNone o
        (IsCertificate (certificate_of orders model unroll heads.items source.items) → ⊥)) }
{
    let cert = Cert {
        orders,
        model,
        unroll,
        heads,
        source,
    };
    if is_certificate(&cert)? {
        Ok(Some(cert))
    } else {
        Ok(None)
    }
}
