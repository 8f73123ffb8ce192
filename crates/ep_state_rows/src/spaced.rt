//! Places of so many bytes, each behind the one before it.

ghost use Rattle.std.specs.Prelude.{◌≡◌, IsTrue};
ghost use Rattle.ep_state_rows.specs.Rows.{is_beyond, AreSpaced};

type Spot = (u32, u32);

fn is_beyond(bytes: u32, q: Spot, r: Spot) -> bool
    ensures { result ≡ is_beyond bytes q r }
{
    q.0 < r.0 || q.0 == r.0 && u64::from(q.1) + u64::from(bytes) <= u64::from(r.1)
}

/// Whether each place has so many bytes, and the next one lies behind them.
pub fn are_spaced(bytes: u32, spots: &[(u32, u32)]) -> bool
    ensures { IsTrue result → AreSpaced bytes spots.now }
{
    for i in (0..spots.len()).rev() {
        if i + 1 < spots.len() && !is_beyond(bytes, spots[i], spots[i + 1]) {
            return false;
        }
    }
    true
}
