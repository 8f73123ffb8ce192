//! Sizes, alignments, offsets and leaves of types.

ghost use Rattle.std.specs.Prelude.{◌≡◌, OnOk};
ghost use Rattle.std.specs.List.{list_all};
ghost use Rattle.ep_layout.specs.Table.{names_known, is_type};

use ep_int::{IntType, Model, Scalar};
use ep_layout::{LayoutStop, Ty, Types};
use std::alloc::Global;
use std::process::Abort;
use std::test::Fail;

// A type that is added answers its number. A struct or union has a tag, `-` for none, and members; it answers the
// number of its type, and a pointer to it has the next number. Sizes and offsets are those that clang gives for
// `armv7-none-eabi`.
const ILP32: &str = "\
u8 = 0
u16 = 1
u32 = 2
i64 = 3
pointer 2 = 4
array 1 3 = 5
array 0 5 = 6
u16 = 1
struct packet kind:0 station:1 stamp:2 level:5 sum:1 = 7
size 7 = 16 align 4
leaves 7 = 0 u8 2 u16 4 u32 8 u16 10 u16 12 u16 14 u16
member 0 level = type 5 at 8
member 0 lev = none
struct item tag:0 p:4 = 9
size 9 = 8 align 4
leaves 9 = 0 u8 4 pointer
member 1 p = type 4 at 4
array 9 2 = 11
struct outer first:9 rest:11 end:0 = 12
size 12 = 28 align 4
leaves 12 = 0 u8 4 pointer 8 u8 12 pointer 16 u8 20 pointer 24 u8
union value half:1 b:6 word:2 = 14
size 14 = 8 align 4
leaves 14 = 0 u16
member 3 word = type 2 at 0
struct node next:17 v:3 = 16
size 16 = 16 align 8
leaves 16 = 0 pointer 8 i64
union either o:12 p:7 = 18
size 18 = 28 align 4
array 16 2 = 20
struct mixed a:0 u:14 n:20 e:18 = 21
size 21 = 80 align 8
leaves 21 = 0 u8 4 u16 16 pointer 24 i64 32 pointer 40 i64 48 u8 52 pointer 56 u8 60 pointer 64 u8 68 pointer 72 u8
void = 23
size 23 = none
leaves 23 =
array 23 2 = incomplete
struct s a:0 b:23 = incomplete
struct s a:24 = incomplete
size 24 = none
leaves 24 =
member 7 a = none
pointer 24 = 25
size 25 = 4 align 4
array 0 65536 = 28
size 28 = 65536 align 1
array 0 65537 = too large
array 0 65535 = 29
struct - a:29 b:0 = 30
size 30 = 65536 align 1
struct s a:29 b:0 c:0 = too large
struct s a:29 b:1 = too large
union wide a:29 b:1 = 36
size 36 = 65536 align 2
array 36 2 = too large
array 28 4294967295 = too large
";

const ILP32_TEXT: &[u8] = b"struct packet size 16 align 4\n\
  \x20 kind offset 0 size 1\n\
  \x20 station offset 2 size 2\n\
  \x20 stamp offset 4 size 4\n\
  \x20 level offset 8 size 6\n\
  \x20 sum offset 14 size 2\n\
  struct item size 8 align 4\n\
  \x20 tag offset 0 size 1\n\
  \x20 p offset 4 size 4\n\
  struct outer size 28 align 4\n\
  \x20 first offset 0 size 8\n\
  \x20 rest offset 8 size 16\n\
  \x20 end offset 24 size 1\n\
  union value size 8 align 4\n\
  \x20 half offset 0 size 2\n\
  \x20 b offset 0 size 5\n\
  \x20 word offset 0 size 4\n\
  struct node size 16 align 8\n\
  \x20 next offset 0 size 4\n\
  \x20 v offset 8 size 8\n\
  union either size 28 align 4\n\
  \x20 o offset 0 size 28\n\
  \x20 p offset 0 size 16\n\
  struct mixed size 80 align 8\n\
  \x20 a offset 0 size 1\n\
  \x20 u offset 4 size 8\n\
  \x20 n offset 16 size 32\n\
  \x20 e offset 48 size 28\n\
  struct - size 65536 align 1\n\
  \x20 a offset 0 size 65535\n\
  \x20 b offset 65535 size 1\n\
  union wide size 65536 align 2\n\
  \x20 a offset 0 size 65535\n\
  \x20 b offset 0 size 2\n";

// The same for `x86_64-linux-gnu`.
const LP64: &str = "\
u8 = 0
u16 = 1
u32 = 2
i64 = 3
pointer 2 = 4
array 1 3 = 5
struct packet kind:0 station:1 stamp:2 level:5 sum:1 = 6
size 6 = 16 align 4
leaves 6 = 0 u8 2 u16 4 u32 8 u16 10 u16 12 u16 14 u16
struct item tag:0 p:4 = 8
size 8 = 16 align 8
leaves 8 = 0 u8 8 pointer
member 1 p = type 4 at 8
array 8 2 = 10
struct outer first:8 rest:10 end:0 = 11
size 11 = 56 align 8
leaves 11 = 0 u8 8 pointer 16 u8 24 pointer 32 u8 40 pointer 48 u8
struct node next:14 v:3 = 13
size 13 = 16 align 8
leaves 13 = 0 pointer 8 i64
size 14 = 8 align 8
";

const LP64_TEXT: &[u8] = b"struct packet size 16 align 4\n\
  \x20 kind offset 0 size 1\n\
  \x20 station offset 2 size 2\n\
  \x20 stamp offset 4 size 4\n\
  \x20 level offset 8 size 6\n\
  \x20 sum offset 14 size 2\n\
  struct item size 16 align 8\n\
  \x20 tag offset 0 size 1\n\
  \x20 p offset 8 size 8\n\
  struct outer size 56 align 8\n\
  \x20 first offset 0 size 16\n\
  \x20 rest offset 16 size 32\n\
  \x20 end offset 48 size 1\n\
  struct node size 16 align 8\n\
  \x20 next offset 0 size 8\n\
  \x20 v offset 8 size 8\n";

/// The most types and aggregates in a test.
const MANY: u32 = 1_000_000;

fn int_type(word: &str) -> Option<IntType> {
    match word {
        "u8" => Some(IntType::U8),
        "u16" => Some(IntType::U16),
        "u32" => Some(IntType::U32),
        "i64" => Some(IntType::I64),
        _ => None,
    }
}

fn scalar_name(what: Scalar) -> &'static str {
    match what {
        Scalar::Pointer => "pointer",
        Scalar::Int(IntType::U8) => "u8",
        Scalar::Int(IntType::U16) => "u16",
        Scalar::Int(IntType::U32) => "u32",
        Scalar::Int(IntType::I64) => "i64",
        Scalar::Int(_) => "another integer",
    }
}

fn type_of(word: &str, rest: &str) -> Option<Ty> {
    match word {
        "void" => Some(Ty::Void),
        "pointer" => Some(Ty::Ptr(rest.parse().ok()?)),
        "array" => {
            let (element, count) = rest.split_once(' ')?;
            Some(Ty::Array(element.parse().ok()?, count.parse().ok()?))
        }
        _ => Some(Ty::Int(int_type(word)?)),
    }
}

fn are_parts_there(types: &Types, ty: Ty) -> bool
    ensures { result ≡ names_known types.now ty }
{
    match ty {
        Ty::Void => true,
        Ty::Int(_) => true,
        Ty::Ptr(e) => e < types.type_count(),
        Ty::Array(e, _) => e < types.type_count(),
        Ty::Aggregate(a) => a < types.aggregate_count(),
    }
}

fn are_types(types: &Types, members: &[(Vec<u8>, u32)]) -> bool
    ensures { result ≡ list_all (λ m. is_type types.now m.1) members.now }
{
    for member in members {
        if member.1 >= types.type_count() {
            return false;
        }
    }
    true
}

fn add(types: &mut Types, ty: Ty) -> Result<u32, LayoutStop>
    ensures { OnOk result (types.new.aggregates ≡ types.old.aggregates) }
{
    if !are_parts_there(types, ty) || types.type_count() >= MANY {
        return Err(LayoutStop::Memory);
    }
    types.add(ty)
}

/// Declares an aggregate, adds its type and a pointer to it, and completes it. The number of its type.
fn define(
    types: &mut Types,
    tag: Vec<u8>,
    is_union: bool,
    members: Vec<(Vec<u8>, u32)>,
) -> Result<u32, LayoutStop> {
    if types.aggregate_count() >= MANY {
        return Err(LayoutStop::Memory);
    }
    let Ok(aggregate) = types.declare(tag, is_union) else {
        return Err(LayoutStop::Memory);
    };
    let ty = add(types, Ty::Aggregate(aggregate))?;
    add(types, Ty::Ptr(ty))?;
    if aggregate >= types.aggregate_count() || !are_types(types, &members) {
        return Err(LayoutStop::Memory);
    }
    types.complete(aggregate, members)?;
    Ok(ty)
}

fn number_text(alloc: Global, number: Result<u32, LayoutStop>) -> Result<String, Fail> {
    Ok(match number {
        Ok(n) => format!(in alloc; "{n}")?,
        Err(LayoutStop::Incomplete) => format!(in alloc; "incomplete")?,
        Err(LayoutStop::TooLarge) => format!(in alloc; "too large")?,
        Err(LayoutStop::Memory) => format!(in alloc; "memory")?,
    })
}

fn defined(alloc: Global, types: &mut Types, is_union: bool, words: &str) -> Result<String, Fail> {
    let (name, rest) = words.split_once(' ').ok_or(words)?;
    let mut tag = Vec::new(alloc);
    if name != "-" {
        tag.extend_from_slice(name.as_bytes())?;
    }
    let mut members = Vec::new(alloc);
    for word in rest.split(' ') {
        let (name, ty) = word.split_once(':').ok_or(word)?;
        let name = Vec::from_slice(alloc, name.as_bytes())?;
        members.push((name, ty.parse()?))?;
    }
    number_text(alloc, define(types, tag, is_union, members))
}

fn size_text(alloc: Global, types: &Types, ty: u32) -> Result<String, Fail> {
    if ty >= types.type_count() {
        return Ok(format!(in alloc; "no type")?);
    }
    match (types.size(ty), types.align(ty)) {
        (Some(size), Some(align)) => Ok(format!(in alloc; "{size} align {align}")?),
        (None, None) => Ok(format!(in alloc; "none")?),
        _ => Ok(format!(in alloc; "one of the two")?),
    }
}

fn leaves_text(alloc: Global, types: &Types, ty: u32) -> Result<String, Fail> {
    let mut text = String::new(alloc);
    if ty >= types.type_count() {
        return Ok(text);
    }
    for leaf in &types.leaves(ty)? {
        let offset = leaf.offset;
        let what = scalar_name(leaf.what);
        let one = format!(in alloc; " {offset} {what}")?;
        text.push_str(one.as_str())?;
    }
    Ok(text)
}

fn member_text(alloc: Global, types: &Types, aggregate: u32, name: &str) -> Result<String, Fail> {
    if aggregate >= types.aggregate_count() {
        return Ok(format!(in alloc; "no aggregate")?);
    }
    match types.member(aggregate, name.as_bytes()) {
        None => Ok(format!(in alloc; "none")?),
        Some(member) => {
            let ty = member.ty;
            let offset = member.offset;
            Ok(format!(in alloc; "type {ty} at {offset}")?)
        }
    }
}

fn answer(alloc: Global, types: &mut Types, line: &str) -> Result<String, Fail> {
    let (word, rest) = line.split_once(' ').unwrap_or((line, ""));
    match word {
        "struct" => defined(alloc, types, false, rest),
        "union" => defined(alloc, types, true, rest),
        "size" => size_text(alloc, types, rest.parse()?),
        "leaves" => leaves_text(alloc, types, rest.parse()?),
        "member" => {
            let (aggregate, name) = rest.split_once(' ').ok_or(line)?;
            member_text(alloc, types, aggregate.parse()?, name)
        }
        _ => number_text(alloc, add(types, type_of(word, rest).ok_or(line)?)),
    }
}

fn expect_layouts(
    rt: &(impl Abort + AllocGlobal),
    model: Model,
    lines: &str,
    text: &[u8],
) -> Result<(), Fail> {
    let mut types = Types::new(rt.alloc(), model);
    assert_eq!(rt; types.model(), model);
    for line in lines.lines() {
        let (command, wanted) = line.split_once(" =").ok_or(line)?;
        let got = answer(rt.alloc(), &mut types, command)?;
        assert_eq!(rt; got.as_str().trim_start(), wanted.trim_start(), "{line}");
    }
    let got = types.layout_text()?;
    assert_eq!(rt; got.as_slice(), text);
    Ok(())
}

#[test]
fn layouts_for_32_bits(rt: HostRuntime) -> Result<(), Fail> {
    expect_layouts(&rt, Model::Ilp32, ILP32, ILP32_TEXT)
}

#[test]
fn layouts_for_64_bits(rt: HostRuntime) -> Result<(), Fail> {
    expect_layouts(&rt, Model::Lp64, LP64, LP64_TEXT)
}
