//! Bytes, and numbers of so many bytes, the lowest first.

ghost use Rattle.std.specs.Prelude.{◌≡◌, ◌<◌, ◌≤◌, ◌^◌, IfSome};
ghost use Rattle.std.specs.Option.{option_map};
ghost use Rattle.ep_cert_cells.specs.Reading.{byte_at, low_at, signed_at, flag_at};

/// The first byte, and what is behind it.
pub fn byte(bytes: &[u8]) -> Option<(u8, &[u8])>
    ensures value { option_map (λ p. (p.0, p.1.now)) result ≡ byte_at bytes.now }
    ensures below { IfSome result (λ p. p.0 < 256) }
{
    match bytes {
        [] => None,
        [first, rest @ ..] => Some((*first, rest)),
    }
}

// A number of so many bytes.
#[tactic(auto, unfolding(crate::specs::Reading::low_at))]
fn low(count: u32, bytes: &[u8]) -> Option<(u128, &[u8])>
    requires { count ≤ 16 }
    ensures value { option_map (λ p. (p.0, p.1.now)) result ≡ low_at count bytes.now }
    ensures below { IfSome result (λ p. p.0 < 256 ^ count) }
{
    if count == 0 {
        return Some((0, bytes));
    }
    let (first, rest) = byte(bytes)?;
    let (above, rest) = low(count - 1, rest)?;
    Some((u128::from(first) + 256 * above, rest))
}

/// A number of four bytes.
pub fn four(bytes: &[u8]) -> Option<(u32, &[u8])>
    ensures { option_map (λ p. (p.0, p.1.now)) result ≡ low_at 4 bytes.now }
{
    let (number, rest) = low(4, bytes)?;
    Some((number as u32, rest))
}

/// A number of eight bytes.
pub fn eight(bytes: &[u8]) -> Option<(u64, &[u8])>
    ensures { option_map (λ p. (p.0, p.1.now)) result ≡ low_at 8 bytes.now }
{
    let (number, rest) = low(8, bytes)?;
    Some((number as u64, rest))
}

/// A number of 16 bytes in two's complement.
pub(crate) fn signed(bytes: &[u8]) -> Option<(i128, &[u8])>
    ensures { option_map (λ p. (p.0, p.1.now)) result ≡ signed_at bytes.now }
{
    let (number, rest) = low(16, bytes)?;
    Some((number.cast_signed(), rest))
}

/// One byte that is 0 or 1.
pub(crate) fn flag_at(bytes: &[u8]) -> Option<(bool, &[u8])>
    ensures { option_map (λ p. (p.0, p.1.now)) result ≡ flag_at bytes.now }
{
    let (byte, rest) = byte(bytes)?;
    match byte {
        0 => Some((false, rest)),
        1 => Some((true, rest)),
        _ => None,
    }
}
