//! Outcomes of operators on values of a domain.

/// What an operator gives of two values of a domain.
#[derive(Clone, Copy, Debug, PartialEq, Eq)]
pub struct Outcome<N> {
    /// The results, where there may be one.
    pub value: Option<N>,
    /// Whether some pair of numbers may have none.
    pub fault: bool,
    /// The range that an alarm shows. It means something only with a fault.
    pub shown: (i128, i128),
}
