//! The functions of a program in their order.

ghost use Rattle.std.specs.Prelude.{◌≡◌, ℕ, ◌<◌, ◌++◌, [], None, map, slice_index, vec_len, IfOk, OnOk};
ghost use Rattle.ep_call_graph.specs.View.{AreBelow};
ghost use Rattle.ep_core.specs.View.{function_view};
ghost use Rattle.ep_defined.specs.View as view;
ghost use Rattle.ep_elaboration.specs.Functions.{numbers_of};
ghost use Rattle.ep_elaboration.specs.Programs as rule;
ghost use Rattle.ep_typer_checks.specs.Placed as placed;

use crate::renumbered::{place, renumbered_function};
use ep_core::program::Function;
use ep_defined::Defined;
use ep_operands::as_number;
use std::alloc::{AllocError, Global};

/// Functions in the order of a program, and the place of main.
#[derive(Drop)]
pub struct OrderedFunctions {
    pub functions: Vec<Function>,
    pub main: u32,
}

fn zeros(alloc: Global, count: usize) -> Result<Vec<u32>, AllocError>
    ensures count { IfOk result (λ v. vec_len v ≡ count) }
    ensures zero { IfOk result (λ v. (f : ℕ) → slice_index v.items f ≡ 0) }
{
    let mut all = Vec::new(alloc);
    for i in 0..count {
        all.push(0)?;
    }
    Ok(all)
}

// The place of each of so many functions in an order, or 0.
fn places_in(alloc: Global, count: usize, order: &[u32]) -> Result<Vec<u32>, AllocError>
    requires { AreBelow count order.now }
    ensures { IfOk result (λ v. (f : ℕ) → slice_index v.items f ≡ rule.place_in order.now f) }
{
    let mut all = zeros(alloc, count)?;
    let mut left = order.len();
    'places: while left > 0 {
        left -= 1;
        let Ok(place) = as_number(left) else {
            return Err(AllocError);
        };
        all[order[left] as usize] = place;
    }
    Ok(all)
}

fn empty_slots(alloc: Global, count: usize) -> Result<Vec<Option<Function>>, AllocError>
    ensures count { IfOk result (λ v. vec_len v ≡ count) }
    ensures empty { IfOk result (λ v. (f : ℕ) → placed.slot v.items f ≡ None) }
{
    let mut all = Vec::new(alloc);
    for i in 0..count {
        all.push(None)?;
    }
    Ok(all)
}

fn keep(slots: &mut Vec<Option<Function>>, defined: Defined)
    requires { defined.number < vec_len slots.old }
    ensures count { vec_len slots.new ≡ vec_len slots.old }
    ensures kept { (f : ℕ) → placed.slot slots.new.items f
        ≡ placed.or_defined (placed.slot slots.old.items f) f (view.defined defined) }
{
    let slot = &mut slots[defined.number as usize];
    if slot.is_none() {
        *slot = Some(defined.function);
    }
}

// The first body of each of so many functions.
fn slots_of(
    alloc: Global,
    count: usize,
    defined: Vec<Defined>,
) -> Result<Vec<Option<Function>>, AllocError>
    requires { AreBelow count (numbers_of (map view.defined defined.items)) }
    ensures count { IfOk result (λ v. vec_len v ≡ count) }
    ensures slots { IfOk result (λ v. (f : ℕ) → placed.slot v.items f
        ≡ placed.function_in (rule.numbered (map view.defined defined.items) f)) }
{
    let mut slots = empty_slots(alloc, count)?;
    for one in defined {
        keep(&mut slots, one);
    }
    Ok(slots)
}

fn add(
    places: &[u32],
    all: &mut Vec<Function>,
    slots: &mut Vec<Option<Function>>,
    f: u32,
) -> Result<(), AllocError>
    requires { f < vec_len slots.old }
    ensures count { vec_len slots.new ≡ vec_len slots.old }
    ensures added { OnOk result (map function_view all.new.items ≡ map function_view all.old.items
        ++ placed.renumbered_if (placed.place places.now) (placed.slot slots.old.items f)) }
    ensures others { (g : ℕ) → (g ≡ f → ⊥) → placed.slot slots.new.items g ≡ placed.slot slots.old.items g }
{
    match slots[f as usize].take() {
        None => Ok(()),
        Some(function) => {
            all.push(renumbered_function(places, function))?;
            Ok(())
        }
    }
}

/// The functions of an order that comes to none twice, where the numbers of all are below this count.
pub fn ordered(
    alloc: Global,
    count: usize,
    defined: Vec<Defined>,
    order: &[u32],
    main: u32,
) -> Result<OrderedFunctions, AllocError>
    requires numbers { AreBelow count (numbers_of (map view.defined defined.items)) }
    requires below { AreBelow count order.now }
    requires once { placed.AreOnce [] order.now }
    ensures functions { IfOk result (λ o. map function_view o.functions.items
        ≡ rule.all_in_order order.now (map view.defined defined.items) order.now) }
    ensures main { IfOk result (λ o. o.main ≡ rule.place_in order.now main) }
{
    let places = places_in(alloc, count, order)?;
    let mut slots = slots_of(alloc, count, defined)?;
    let mut functions = Vec::new(alloc);
    for f in order {
        add(&places, &mut functions, &mut slots, *f)?;
    }
    let main = place(&places, main);
    Ok(OrderedFunctions { functions, main })
}
