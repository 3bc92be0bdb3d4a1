//! Where expressions stand.

/// Where an expression stands: by itself, as a term of a sum, as a factor of a product or behind a minus, or as a term
/// of a sum whose sign is put already.
#[derive(Clone, Copy, Debug, PartialEq, Eq)]
pub enum Position {
    Alone,
    AsTerm,
    AsFactor,
    Signed,
}
