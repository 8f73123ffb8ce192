//! Expressions as the table spells them: each word takes what it is made of from those before it.

use ep_core::tree::{Expr, Place};
use ep_int::{BinOp, Cmp, IntType, Scalar};
use std::alloc::Global;
use tests_cell_words::reading;

#[derive(Drop)]
enum Item {
    Value(Expr),
    Spot(Place),
}

fn value(items: &mut Vec<Item>) -> Option<Expr> {
    match items.pop()? {
        Item::Value(e) => Some(e),
        Item::Spot(_) => None,
    }
}

fn spot(items: &mut Vec<Item>) -> Option<Place> {
    match items.pop()? {
        Item::Value(_) => None,
        Item::Spot(a) => Some(a),
    }
}

fn boxed(alloc: Global, items: &mut Vec<Item>) -> Option<Box<Expr>> {
    Box::new(alloc, value(items)?).ok()
}

fn boxed_spot(alloc: Global, items: &mut Vec<Item>) -> Option<Box<Place>> {
    Box::new(alloc, spot(items)?).ok()
}

fn int_type(word: &str) -> Option<IntType> {
    match reading::scalar(word)? {
        Scalar::Int(t) => Some(t),
        Scalar::Pointer => None,
    }
}

fn operator(word: &str) -> Option<BinOp> {
    match word {
        "add" => Some(BinOp::Add),
        "sub" => Some(BinOp::Sub),
        "mul" => Some(BinOp::Mul),
        "div" => Some(BinOp::Div),
        "rem" => Some(BinOp::Rem),
        "band" => Some(BinOp::And),
        "bor" => Some(BinOp::Or),
        "xor" => Some(BinOp::Xor),
        "shl" => Some(BinOp::Shl),
        "shr" => Some(BinOp::Shr),
        _ => None,
    }
}

fn comparison(word: &str) -> Option<Cmp> {
    match word {
        "eq" => Some(Cmp::Eq),
        "ne" => Some(Cmp::Ne),
        "lt" => Some(Cmp::Lt),
        "le" => Some(Cmp::Le),
        "gt" => Some(Cmp::Gt),
        "ge" => Some(Cmp::Ge),
        _ => None,
    }
}

fn constant(argument: &str) -> Option<Expr> {
    let (t, v) = argument.split_once('.')?;
    Some(Expr::Const(int_type(t)?, v.parse().ok()?))
}

fn element(alloc: Global, items: &mut Vec<Item>, argument: &str) -> Option<Place> {
    let (bound, unit) = argument.split_once('.')?;
    let i = boxed(alloc, items)?;
    let of = boxed_spot(alloc, items)?;
    Some(Place::Element(of, bound.parse().ok()?, unit.parse().ok()?, i))
}

fn moved(alloc: Global, items: &mut Vec<Item>, argument: &str, back: bool) -> Option<Expr> {
    let n = boxed(alloc, items)?;
    let a = boxed(alloc, items)?;
    Some(Expr::PtrAdd(argument.parse().ok()?, back, a, n))
}

fn compared(alloc: Global, items: &mut Vec<Item>, c: Cmp, argument: &str) -> Option<Expr> {
    let b = boxed(alloc, items)?;
    let a = boxed(alloc, items)?;
    Some(Expr::Compare(c, int_type(argument)?, a, b))
}

fn pointers(alloc: Global, items: &mut Vec<Item>, c: Cmp) -> Option<Expr> {
    let b = boxed(alloc, items)?;
    let a = boxed(alloc, items)?;
    Some(Expr::PtrCompare(c, a, b))
}

fn computed(alloc: Global, items: &mut Vec<Item>, op: BinOp, argument: &str) -> Option<Expr> {
    let b = boxed(alloc, items)?;
    let a = boxed(alloc, items)?;
    Some(Expr::Bin(op, int_type(argument)?, a, b))
}

fn chosen(alloc: Global, items: &mut Vec<Item>) -> Option<Expr> {
    let b = boxed(alloc, items)?;
    let a = boxed(alloc, items)?;
    let c = boxed(alloc, items)?;
    Some(Expr::Cond(c, a, b))
}

fn both(alloc: Global, items: &mut Vec<Item>, all: bool) -> Option<Expr> {
    let b = boxed(alloc, items)?;
    let a = boxed(alloc, items)?;
    if all {
        Some(Expr::And(a, b))
    } else {
        Some(Expr::Or(a, b))
    }
}

fn other(alloc: Global, items: &mut Vec<Item>, head: &str, argument: &str) -> Option<Expr> {
    match operator(head) {
        Some(op) => computed(alloc, items, op, argument),
        None => match comparison(head) {
            Some(c) => compared(alloc, items, c, argument),
            None => pointers(alloc, items, comparison(head.strip_prefix('p')?)?),
        },
    }
}

fn expression(alloc: Global, items: &mut Vec<Item>, head: &str, argument: &str) -> Option<Expr> {
    match head {
        "c" => constant(argument),
        "null" => Some(Expr::Null),
        "ld" => Some(Expr::Load(reading::scalar(argument)?, boxed_spot(alloc, items)?)),
        "addr" => Some(Expr::AddrOf(boxed_spot(alloc, items)?)),
        "cv" => Some(Expr::Convert(int_type(argument)?, boxed(alloc, items)?)),
        "and" => both(alloc, items, true),
        "or" => both(alloc, items, false),
        "not" => Some(Expr::Not(boxed(alloc, items)?)),
        "if" => chosen(alloc, items),
        "padd" => moved(alloc, items, argument, false),
        "psub" => moved(alloc, items, argument, true),
        "cast" => Some(Expr::Cast(boxed(alloc, items)?)),
        _ => other(alloc, items, head, argument),
    }
}

fn made(alloc: Global, items: &mut Vec<Item>, head: &str, argument: &str) -> Option<Item> {
    match head {
        "b" => Some(Item::Spot(Place::Block(argument.parse().ok()?))),
        "m" => Some(Item::Spot(Place::Member(boxed_spot(alloc, items)?, argument.parse().ok()?))),
        "el" => Some(Item::Spot(element(alloc, items, argument)?)),
        "*" => Some(Item::Spot(Place::Deref(boxed(alloc, items)?))),
        _ => Some(Item::Value(expression(alloc, items, head, argument)?)),
    }
}

/// The expression that words make.
pub(crate) fn tree(alloc: Global, words: &str) -> Option<Expr> {
    let mut items = Vec::new(alloc);
    for word in words.split_whitespace() {
        let next = match word.split_once('.') {
            Some((head, argument)) => made(alloc, &mut items, head, argument)?,
            None => made(alloc, &mut items, word, "")?,
        };
        items.push(next).ok()?;
    }
    value(&mut items)
}
