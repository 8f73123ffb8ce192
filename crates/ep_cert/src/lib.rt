//! Certificates: what they say, and how bytes spell them.
#![tactic(auto)]

mod cert;
mod decoding;
mod encoding;
mod heads;
mod making;
mod opening;

pub use cert::Cert;
pub use decoding::decode;
pub use encoding::encode;
pub use ep_cert_cells::Numbers;
pub use making::certificate;
