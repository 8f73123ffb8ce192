//! Domains with congruences keep strides in products, also with known bits: laws alone.
#![tactic(auto)]

ghost use Rattle.std.specs.Prelude.{true};
ghost use Rattle.ep_alarm_laws.specs.Laws.{CellsAreHonest, ProductsKeepStrides};

use ep_alarm_laws::honest_laws;
use ep_bits::KnownBits;
use ep_congruence::Congruence;
use ep_domain::{Num, Pair};

/// Does nothing: its contract is that numbers of any domain with their congruences keep strides in products by 1, and
/// that over them an element by an index of a named object is never misaligned.
pub fn even_laws<A: Num>()
    ensures products { ProductsKeepStrides ⟦<Pair<A, Congruence> as Num>⟧.ops }
    ensures even { CellsAreHonest ⟦<Pair<A, Congruence> as Num>⟧.ops true }
{
    honest_laws::<Pair<A, Congruence>>();
}

/// Does nothing: its contract is that numbers of any domain with their congruences and known bits keep strides in
/// products by 1, and that over them an element by an index of a named object is never misaligned.
pub fn even_bit_laws<A: Num>()
    ensures products { ProductsKeepStrides ⟦<Pair<Pair<A, Congruence>, KnownBits> as Num>⟧.ops }
    ensures even { CellsAreHonest ⟦<Pair<Pair<A, Congruence>, KnownBits> as Num>⟧.ops true }
{
    honest_laws::<Pair<Pair<A, Congruence>, KnownBits>>();
}
