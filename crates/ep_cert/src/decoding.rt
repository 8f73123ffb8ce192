//! Reading certificates.

ghost use Rattle.std.specs.Prelude.{◌≡◌, ◌↔◌, ◌*◌, ◌≤◌, length, Some, IfOk, IfSome};
ghost use Rattle.std.specs.Option.{option_map};
ghost use Rattle.ep_cert.specs.Certificate.{Certificate, CertSpells, shown};
ghost use Rattle.ep_cert.specs.Reading.{IsSourceAt, IsCertAt};

use crate::Cert;
use crate::heads::heads_at;
use crate::opening::opening_at;
use ep_cert_cells::{Unread, four};
use ep_int::Memory;
use std::alloc::Global;

pub(crate) const GREATEST_SOURCE: u32 = 1048576;

// The source, with which a certificate ends.
#[tactic(auto, unfolding(crate::specs::Reading::source_at))]
fn source_at(alloc: Global, bytes: &[u8]) -> Result<Vec<u8>, Unread>
    ensures { IsSourceAt (λ v. v.items) bytes.now result }
{
    let Some((count, rest)) = four(bytes) else {
        return Err(Unread::Misspelled);
    };
    if count > GREATEST_SOURCE || rest.len() != count as usize {
        return Err(Unread::Misspelled);
    }
    Ok(Vec::from_slice(alloc, rest)?)
}

fn cert_at(alloc: Global, bytes: &[u8]) -> Result<Cert, Unread>
    ensures { IsCertAt bytes.now result }
{
    let Some((opening, rest)) = opening_at(bytes) else {
        return Err(Unread::Misspelled);
    };
    match heads_at(alloc, &opening, rest) {
        Err(why) => Err(why),
        Ok((heads, rest)) => match source_at(alloc, rest) {
            Err(why) => Err(why),
            Ok(source) => Ok(Cert {
                orders: opening.orders,
                model: opening.model,
                unroll: opening.unroll,
                heads,
                source,
            }),
        },
    }
}

/// The certificate that the bytes spell. `None` where they spell none.
pub fn decode(alloc: Global, bytes: &[u8]) -> Result<Option<Cert>, Memory>
    ensures spells { IfOk result (λ o. (c : Certificate) → CertSpells bytes.now c ↔ (option_map shown o ≡ Some c)) }
    ensures sizes { IfOk result (λ o. IfSome o (λ c. 4 * length c.heads.items ≤ length bytes.now)) }
{
    match cert_at(alloc, bytes) {
        Ok(cert) => Ok(Some(cert)),
        Err(Unread::Memory) => Err(Memory),
        Err(Unread::Misspelled) => Ok(None),
    }
}
