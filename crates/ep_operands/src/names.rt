//! Numbers as they are written, and names that stand for something without a declaration.

ghost use Rattle.std.specs.Prelude.{◌≡◌, Option, map, pos};
ghost use Rattle.std.specs.Option.{option_map};
ghost use Rattle.ep_typing.specs.Env.{entry};
ghost use Rattle.ep_typing.specs.Parts as rule;
ghost use Rattle.ep_operands.specs.View as view;

use crate::operand::{Callee, Operand};
use crate::types::{int_type, number_type, void_pointer};
use crate::value::Value;
use ep_ast::Literal;
use ep_core::tree::Expr;
use ep_int::{IntType, Model, wrap};

/// A number as it is written. 0 is a null constant.
pub fn numbered(model: Model, n: Literal) -> Operand
    ensures { view.operand result ≡ rule.numbered model n }
{
    let t = number_type(model, n);
    Operand::Value(Value {
        expr: Expr::Const(t, wrap(t, i128::from(n.value))),
        ty: int_type(t),
        is_null: n.value == 0,
    })
}

// The functions that are there without a declaration.
const FUNCTIONS: [(&[u8], Callee); 20] = [
    (b"memcpy", Callee::CopyBytes),
    (b"memset", Callee::FillBytes),
    (b"ep_read", Callee::ReadBytes),
    (b"ep_write", Callee::WriteBytes),
    (b"ep_in_i8", Callee::Input(IntType::I8)),
    (b"ep_in_u8", Callee::Input(IntType::U8)),
    (b"ep_in_i16", Callee::Input(IntType::I16)),
    (b"ep_in_u16", Callee::Input(IntType::U16)),
    (b"ep_in_i32", Callee::Input(IntType::I32)),
    (b"ep_in_u32", Callee::Input(IntType::U32)),
    (b"ep_in_i64", Callee::Input(IntType::I64)),
    (b"ep_in_u64", Callee::Input(IntType::U64)),
    (b"ep_out_i8", Callee::Output(IntType::I8)),
    (b"ep_out_u8", Callee::Output(IntType::U8)),
    (b"ep_out_i16", Callee::Output(IntType::I16)),
    (b"ep_out_u16", Callee::Output(IntType::U16)),
    (b"ep_out_i32", Callee::Output(IntType::I32)),
    (b"ep_out_u32", Callee::Output(IntType::U32)),
    (b"ep_out_i64", Callee::Output(IntType::I64)),
    (b"ep_out_u64", Callee::Output(IntType::U64)),
];

fn listed(functions: &[(&[u8], Callee)], name: &[u8]) -> Option<Operand>
    ensures { option_map view.operand result ≡ entry name.now (map (λ f. view.named f.0.now f.1) functions.now) }
{
    for (text, callee) in functions {
        if name == *text {
            return Some(Operand::Function(*callee));
        }
    }
    None
}

/// What a name stands for without a declaration.
pub fn built_in(name: &[u8]) -> Option<Operand>
    ensures { option_map view.operand result ≡ entry name.now rule.built_in }
{
    if name == b"NULL".as_slice() {
        return Some(Operand::Value(Value {
            expr: Expr::Null,
            ty: void_pointer(),
            is_null: true,
        }));
    }
    listed(&FUNCTIONS, name)
}
