//! Writing certificates.

ghost use Rattle.std.specs.Prelude.{◌≡◌, ◌++◌, ℕ, List, OnOk, IfOk};
ghost use Rattle.ep_cert.specs.Certificate.{shown, order_number, model_number, head_bytes, heads_bytes, opening_bytes};
ghost use Rattle.ep_cert.specs.Certificate.{CertSpells};

use crate::Cert;
use crate::opening::order_byte;
use ep_cert_cells::Numbers;
use ep_cert_writing::{put_byte, put_cells, put_low};
use ep_int::{Memory, Model};
use ep_states::State;
use std::alloc::Global;

fn model_byte(model: Model) -> u8
    ensures { result ≡ model_number model }
{
    match model {
        Model::Ilp32 => 0,
        Model::Lp64 => 1,
    }
}

fn put_all(out: &mut Vec<u8>, bytes: &[u8]) -> Result<(), Memory>
    ensures { OnOk result (out.new.items ≡ out.old.items ++ bytes.now) }
{
    out.extend_from_slice(bytes).map_err(|_| Memory)
}

fn put_opening(out: &mut Vec<u8>, cert: &Cert) -> Result<(), Memory>
    ensures { OnOk result (out.new.items ≡ out.old.items ++ opening_bytes (shown cert.now)) }
{
    put_all(out, b"ENDCERT1")?;
    put_byte(out, order_byte(cert.orders.0))?;
    put_byte(out, order_byte(cert.orders.1))?;
    put_byte(out, model_byte(cert.model))?;
    put_low(out, 4, u128::from(cert.unroll))?;
    put_low(out, 8, cert.heads.len() as u128)
}

fn put_head(out: &mut Vec<u8>, head: &State<Numbers>) -> Result<(), Memory>
    ensures { OnOk result (out.new.items ≡ out.old.items ++ head_bytes head.now.cells) }
{
    let cells = head.all()?;
    put_low(out, 4, cells.len() as u128)?;
    put_cells(out, &cells)
}

fn put_heads(out: &mut Vec<u8>, heads: &[State<Numbers>]) -> Result<(), Memory>
    ensures { OnOk result (out.new.items ≡ out.old.items ++ heads_bytes heads.now) }
{
    for h in heads {
        put_head(out, h)?;
    }
    Ok(())
}

/// The bytes that spell a certificate of which some bytes are the spelling.
pub fn encode(alloc: Global, cert: &Cert) -> Result<Vec<u8>, Memory>
    requires { (bytes : List ℕ) × CertSpells bytes (shown cert.now) }
    ensures { IfOk result (λ v. CertSpells v.items (shown cert.now)) }
{
    let mut out = Vec::new(alloc);
    put_opening(&mut out, cert)?;
    put_heads(&mut out, &cert.heads)?;
    put_low(&mut out, 4, cert.source.len() as u128)?;
    put_all(&mut out, &cert.source)?;
    Ok(out)
}
