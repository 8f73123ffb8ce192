//! Bytes that differ little from those of a certificate.

use ep_cert::{decode, encode};
use ep_int::Memory;
use std::alloc::Global;

/// How many spell a certificate, how many of those encoding gives again, and how many there are.
#[derive(Clone, Copy)]
pub(crate) struct Found {
    pub(crate) spelled: u64,
    pub(crate) again: u64,
    pub(crate) all: u64,
}

/// Whether encoding gives the bytes again of which this is the certificate. `None` where they spell none.
pub(crate) fn are_again(alloc: Global, bytes: &[u8]) -> Result<Option<bool>, Memory> {
    match decode(alloc, bytes)? {
        None => Ok(None),
        Some(cert) => {
            let again = encode(alloc, &cert)?;
            Ok(Some(again.as_slice() == bytes))
        }
    }
}

// One more.
fn look(alloc: Global, found: Found, bytes: &[u8]) -> Option<Found> {
    let (spelled, again) = match are_again(alloc, bytes).ok()? {
        None => (0, 0),
        Some(false) => (1, 0),
        Some(true) => (1, 1),
    };
    Some(Found {
        spelled: found.spelled.wrapping_add(spelled),
        again: found.again.wrapping_add(again),
        all: found.all.wrapping_add(1),
    })
}

// Three parts, one behind the other.
fn joined(alloc: Global, front: &[u8], middle: &[u8], end: &[u8]) -> Option<Vec<u8>> {
    let mut out = Vec::from_slice(alloc, front).ok()?;
    out.extend_from_slice(middle).ok()?;
    out.extend_from_slice(end).ok()?;
    Some(out)
}

// A byte between two parts with each of its bits turned, made one more and one less, left out and doubled, and the
// first part alone.
fn at_one(alloc: Global, front: &[u8], one: u8, end: &[u8], found: Found) -> Option<Found> {
    let mut found = found;
    for bit in [1, 2, 4, 8, 16, 32, 64, 128] {
        found = look(alloc, found, &joined(alloc, front, &[one ^ bit], end)?)?;
    }
    let (more, less) = (one.wrapping_add(1), one.wrapping_sub(1));
    found = look(alloc, found, &joined(alloc, front, &[more], end)?)?;
    found = look(alloc, found, &joined(alloc, front, &[less], end)?)?;
    found = look(alloc, found, &joined(alloc, front, &[], end)?)?;
    found = look(alloc, found, &joined(alloc, front, &[one, one], end)?)?;
    look(alloc, found, front)
}

/// All that differ little from these bytes in one byte, and all beginnings.
pub(crate) fn tried(alloc: Global, bytes: &[u8]) -> Option<Found> {
    let mut found = Found {
        spelled: 0,
        again: 0,
        all: 0,
    };
    for i in 0..bytes.len() {
        let (front, rest) = bytes.split_at(i);
        if let Some((one, end)) = rest.split_first() {
            found = at_one(alloc, front, *one, end, found)?;
        }
    }
    Some(found)
}
