//! The text of the layouts of a table.

ghost use Rattle.std.specs.Prelude.{◌≡◌, ◌++◌, IfOk, OnOk, codes, unwrap_or, if◌then◌else◌};
ghost use Rattle.ep_layout.specs.Table as table;
ghost use Rattle.ep_layout.specs.Text.{aggregate_text, head_line, member_line, members_text, tag_text, layout_text_of};
ghost use Rattle.ep_layout.specs.Views.{members_view};

use super::{AggregateEntry, Types};
use crate::extent::Extent;
use crate::types::Member;
use ep_int::Memory;
use itoa::Buffer;
use std::alloc::AllocError;

fn push_head(text: &mut Vec<u8>, entry: &AggregateEntry, extent: Extent) -> Result<(), AllocError>
    ensures { OnOk result (text.new.items
        ≡ text.old.items ++ head_line entry.now.tag.items entry.now.is_union extent.size extent.align) }
{
    let mut number = Buffer::new();
    push_kind(text, entry.is_union)?;
    push_tag(text, &entry.tag)?;
    text.extend_from_slice(b" size ")?;
    text.extend_from_slice(number.format(extent.size).as_bytes())?;
    text.extend_from_slice(b" align ")?;
    text.extend_from_slice(number.format(extent.align).as_bytes())?;
    text.extend_from_slice(b"\n")
}

fn push_kind(text: &mut Vec<u8>, is_union: bool) -> Result<(), AllocError>
    ensures { OnOk result (text.new.items ≡ text.old.items ++ (if is_union then codes "union " else codes "struct ")) }
{
    if is_union {
        return text.extend_from_slice(b"union ");
    }
    text.extend_from_slice(b"struct ")
}

fn push_tag(text: &mut Vec<u8>, tag: &[u8]) -> Result<(), AllocError>
    ensures { OnOk result (text.new.items ≡ text.old.items ++ tag_text tag.now) }
{
    if tag.is_empty() {
        return text.extend_from_slice(b"-");
    }
    text.extend_from_slice(tag)
}

fn push_member(text: &mut Vec<u8>, member: &Member, size: u32) -> Result<(), AllocError>
    ensures { OnOk result (text.new.items
        ≡ text.old.items ++ member_line member.now.name.items member.now.offset size) }
{
    let mut number = Buffer::new();
    text.extend_from_slice(b"  ")?;
    text.extend_from_slice(&member.name)?;
    text.extend_from_slice(b" offset ")?;
    text.extend_from_slice(number.format(member.offset).as_bytes())?;
    text.extend_from_slice(b" size ")?;
    text.extend_from_slice(number.format(size).as_bytes())?;
    text.extend_from_slice(b"\n")
}

impl Types {
    /// The layouts of the completed aggregates in the order of their completion: a line `struct NAME size S align A` or
    /// `union ..` for each, with `-` for a tag that is empty, then a line `  NAME offset O size S` for each member.
    pub fn layout_text(&self) -> Result<Vec<u8>, Memory>
        ensures { IfOk result (λ v. v.items ≡ layout_text_of self.now) }
    {
        match self.text() {
            Ok(text) => Ok(text),
            Err(_) => Err(Memory),
        }
    }

    fn text(&self) -> Result<Vec<u8>, AllocError>
        ensures { IfOk result (λ v. v.items ≡ layout_text_of self.now) }
    {
        let mut text = Vec::new(self.alloc);
        for aggregate in &self.completed {
            self.push_aggregate(&mut text, *aggregate)?;
        }
        Ok(text)
    }

    fn push_aggregate(&self, text: &mut Vec<u8>, aggregate: u32) -> Result<(), AllocError>
        ensures { OnOk result (text.new.items ≡ text.old.items ++ aggregate_text self.now aggregate) }
    {
        if aggregate >= self.aggregate_count() {
            return Ok(());
        }
        let entry = &self.aggregates[aggregate as usize];
        match &entry.body {
            None => Ok(()),
            Some(body) => {
                push_head(text, entry, body.extent)?;
                self.push_members(text, body.members.all())
            }
        }
    }

    fn push_members(&self, text: &mut Vec<u8>, members: &[Member]) -> Result<(), AllocError>
        ensures { OnOk result (text.new.items ≡ text.old.items ++ members_text self.now (members_view members.now)) }
    {
        for member in members {
            push_member(text, member, self.member_size(member.ty))?;
        }
        Ok(())
    }

    fn member_size(&self, ty: u32) -> u32
        ensures { result ≡ unwrap_or (table.size self.now ty) 0 }
    {
        if ty >= self.type_count() {
            return 0;
        }
        self.size(ty).unwrap_or(0)
    }
}
