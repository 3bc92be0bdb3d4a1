//! Where objects are frozen.

ghost use Rattle.std.specs.Prelude.{◌^◌, ◌≤◌, vec_len};

/// At which sites the deltas of an object are frozen.
#[derive(Clone, Copy)]
pub(crate) enum Frozen {
    Nowhere,
    /// At all sites but this one, whose calls need the object.
    Elsewhere(u32),
    Everywhere,
}

/// Objects by their numbers, each with where it is frozen. Those past the end are frozen nowhere.
#[derive(Drop)]
pub(crate) struct FrozenObjects {
    pub objects: Vec<Frozen>,
    ghost numbered: { vec_len objects ≤ 2 ^ 32 },
}
