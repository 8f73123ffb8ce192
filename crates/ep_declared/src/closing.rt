//! The ends of bodies: bit-fields come into units, and an aggregate gets its members.

ghost use Rattle.std.specs.Prelude.{◌≡◌, ◌<◌, ◌++◌, [], ◌∷◌, length, map, nat_eq, IfErr, IfOk, IsFalse, IsTrue, OnOk};
ghost use Rattle.std.specs.List.{list_any};
ghost use Rattle.std.specs.Option.{option_map};
ghost use Rattle.ep_ast.specs.Declaration.{text_of};
ghost use Rattle.ep_ast.specs.declared.refusals.Halt.TheVariants as halts;
ghost use Rattle.ep_bitfield.specs.Units as units;
ghost use Rattle.ep_layout.specs.Table as table;
ghost use Rattle.ep_layout.specs.Table.{Grows};
ghost use Rattle.ep_layout.specs.Views.{named_view};
ghost use Rattle.ep_typing.specs.Results.{at};
ghost use Rattle.ep_elaboration.specs.Aggregates as rule;
ghost use Rattle.ep_declared.specs.Entries.{are_distinct, entry, field_of, name_of, own_fields, own_members, IsFree};
ghost use Rattle.ep_declared.specs.Entries.{unit_members, unit_number};
ghost use Rattle.ep_declared.specs.Refinement.{OnAnswer, RefinesIn};
ghost use Rattle.ep_declared.specs.Open.{AreTypes, OthersStayOpen};
ghost use Rattle.ep_scopes.specs.Comes.{Comes};
ghost use Rattle.ep_scopes.specs.Known.{IsKnown, IsKnownEnv};
ghost use Rattle.ep_scopes.specs.View.{env as env_view, fields as fields_view, named_fields};

use crate::arrays::stopped;
use crate::entries::{Entry, Named};
use ep_ast::{Halt, RefusalKind};
use ep_bitfield::{Field, pack};
use ep_int::{IntType, Memory};
use ep_operands::{refused, whole};
use ep_scopes::{Env, FieldNames, Fields, add_type};
use ep_typing::{Base, CType, FieldRow};
use std::alloc::{AllocError, Global};

/// The members of a body in their order, units among them, and its bit-fields that have a name.
#[derive(Drop)]
struct Parts {
    members: Vec<(Vec<u8>, u32)>,
    names: FieldNames,
}

// ---- one entry

fn packed_as(one: &Entry) -> (IntType, u32)
    ensures { result ≡ rule.packed_as (entry one.now) }
{
    match one {
        Entry::Member(_, _) => (IntType::U8, 0),
        Entry::Field(_, _, t, width) => (*t, *width),
    }
}

fn is_field(one: &Entry) -> bool
    ensures { result ≡ rule.is_field_entry (entry one.now) }
{
    match one {
        Entry::Member(_, _) => false,
        Entry::Field(_, _, _, _) => true,
    }
}

fn begins_unit(field: Field) -> bool
    ensures { result ≡ rule.begins_unit field }
{
    (field.used == 0) & (1 <= field.width)
}

fn add_member(
    alloc: Global,
    members: &mut Vec<(Vec<u8>, u32)>,
    name: &[u8],
    ty: u32,
) -> Result<(), AllocError>
    ensures { OnOk result (named_view members.new.items ≡ named_view members.old.items ++ (name.now, ty) ∷ []) }
{
    let text = Vec::from_slice(alloc, name)?;
    members.push((text, ty))?;
    Ok(())
}

// The number of the unit of a field, which may begin with it.
fn unit_of(
    alloc: Global,
    members: &mut Vec<(Vec<u8>, u32)>,
    ty: u32,
    field: Field,
) -> Result<u32, AllocError>
    ensures number { IfOk result (λ n. n ≡ unit_number (length members.old.items) field) }
    ensures members { OnOk result
        (named_view members.new.items ≡ named_view members.old.items ++ unit_members ty field) }
{
    let Ok(count) = u32::try_from(members.len()) else {
        return Err(AllocError);
    };
    if begins_unit(field) {
        add_member(alloc, members, b":", ty)?;
        return Ok(count);
    }
    Ok(count.saturating_sub(1))
}

fn add_name(
    alloc: Global,
    names: &mut FieldNames,
    name: &Option<Vec<u8>>,
    unit: u32,
    field: Field,
) -> Result<(), AllocError>
    requires { IsFree (option_map text_of name.now) (named_fields names.old) }
    ensures { OnOk result (named_fields names.new
        ≡ named_fields names.old ++ rule.named_field unit (option_map text_of name.now) field) }
{
    match name {
        None => Ok(()),
        Some(name) => {
            let row = FieldRow {
                unit,
                t: field.t,
                used: field.used,
                width: field.width,
            };
            names.add(alloc, name, row)
        }
    }
}

fn add_entry(alloc: Global, parts: &mut Parts, one: &Entry, field: Field) -> Result<(), AllocError>
    requires { IsFree (name_of (entry one.now)) (named_fields parts.old.names) }
    ensures members { OnOk result (named_view parts.new.members.items
        ≡ named_view parts.old.members.items ++ own_members (entry one.now) field) }
    ensures names { OnOk result (named_fields parts.new.names
        ≡ named_fields parts.old.names ++ own_fields (length parts.old.members.items) (entry one.now) field) }
{
    match one {
        Entry::Member(name, ty) => add_member(alloc, &mut parts.members, name, *ty),
        Entry::Field(name, ty, _, _) => {
            let unit = unit_of(alloc, &mut parts.members, *ty, field)?;
            add_name(alloc, &mut parts.names, name, unit, field)
        }
    }
}

// ---- all entries

fn has_field(entries: &[Entry]) -> bool
    ensures { result ≡ list_any rule.is_field_entry (map entry entries.now) }
{
    for one in entries {
        if is_field(one) {
            return true;
        }
    }
    false
}

// The entries as they are put into units.
fn to_pack(alloc: Global, entries: &[Entry]) -> Result<Vec<(IntType, u32)>, AllocError>
    ensures { IfOk result (λ v. v.items ≡ map rule.packed_as (map entry entries.now)) }
{
    let mut list = Vec::new(alloc);
    for one in entries {
        list.push(packed_as(one))?;
    }
    Ok(list)
}

// What entries come to with their fields.
fn parts_with(
    alloc: Global,
    entries: &[Entry],
    fields: &[(u32, Field)],
) -> Result<Parts, AllocError>
    requires same { length fields.now ≡ length entries.now }
    requires distinct { IsTrue (are_distinct (map entry entries.now)) }
    ensures members { IfOk result (λ p. named_view p.members.items
        ≡ rule.members_with (map entry entries.now) (map field_of fields.now)) }
    ensures names { IfOk result (λ p. named_fields p.names
        ≡ rule.fields_with 0 (map entry entries.now) (map field_of fields.now)) }
{
    let mut parts = Parts {
        members: Vec::new(alloc),
        names: FieldNames::new(alloc),
    };
    for i in 0..entries.len() {
        let one = &entries[i];
        let (_, field) = fields[i];
        add_entry(alloc, &mut parts, one, field)?;
    }
    Ok(parts)
}

// What a body comes to.
fn parts_of(alloc: Global, entries: &[Entry]) -> Result<Parts, Halt>
    requires distinct { IsTrue (are_distinct (map entry entries.now)) }
    requires fit { IsTrue (units.are_entries (map rule.packed_as (map entry entries.now))) }
    ensures members { IfOk result (λ p. named_view p.members.items ≡ rule.members_in (map entry entries.now)) }
    ensures names { IfOk result (λ p. named_fields p.names ≡ rule.fields_in (map entry entries.now)) }
    ensures memory { IfErr result (λ e. e ≡ halts.Memory) }
{
    let list = to_pack(alloc, entries)?;
    let fields = pack(alloc, &list)?;
    let parts = parts_with(alloc, entries, &fields)?;
    Ok(parts)
}

// ---- the aggregate

// The bit-fields of an aggregate come to those that are known.
fn keep(
    fields: &mut Fields,
    aggregate: u32,
    entries: &[Entry],
    names: FieldNames,
) -> Result<(), Memory>
    requires { named_fields names ≡ rule.fields_in (map entry entries.now) }
    ensures { OnOk result
        (fields_view fields.new ≡ rule.with_fields (fields_view fields.old) aggregate (map entry entries.now)) }
{
    if has_field(entries) {
        return fields.set(aggregate, names);
    }
    Ok(())
}

fn lacks_members(members: &[(Vec<u8>, u32)]) -> bool
    ensures { result ≡ nat_eq (length members.now) 0 }
{
    members.is_empty()
}

/// A body ends.
pub(crate) fn closed(env: &mut Env, line: u32, aggregate: u32, named: &Named) -> Result<CType, Halt>
    requires known { IsKnownEnv (env_view env.old) }
    requires exists { aggregate < length (env_view env.old).types.aggregates }
    requires empty { IsFalse (table.is_completed (env_view env.old).types aggregate) }
    requires members { AreTypes (env_view env.old).types named.now }
    ensures means { RefinesIn (λ c. c) (at line (rule.closed (env_view env.old) aggregate
        (table.is_union (env_view env.old).types aggregate) named.now)) (env_view env.new) result }
    ensures known { OnOk result (IsKnownEnv (env_view env.new)) }
    ensures inside { IfOk result (λ c. IsKnown (env_view env.new).types c) }
    ensures grown { OnOk result (Grows (env_view env.old).types (env_view env.new).types) }
    ensures stay { OnOk result (OthersStayOpen aggregate (env_view env.old).types (env_view env.new).types) }
    ensures comes { OnAnswer result (Comes (env_view env.old) (env_view env.new)) }
{
    let entries = named.all();
    let parts = parts_of(env.alloc, entries)?;
    if lacks_members(&parts.members) {
        return Err(refused(RefusalKind::BitField, line));
    }
    match env.types.complete(aggregate, parts.members) {
        Ok(()) => {
            keep(&mut env.fields, aggregate, entries, parts.names)?;
            let c = whole(Base::Aggregate(aggregate));
            add_type(&mut env.types, c)?;
            Ok(c)
        }
        Err(stop) => Err(stopped(line, stop)),
    }
}
