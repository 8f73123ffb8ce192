//! Byte orders that a source names.

/// The byte order that the condition of a byte-order conditional names.
#[derive(Clone, Copy, Debug, PartialEq, Eq)]
pub enum NamedOrder {
    Little,
    Big,
}
