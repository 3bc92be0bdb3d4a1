//! How many objects and sites a certificate is of.

/// Objects and sites are numbered from 0 to below these.
#[derive(Clone, Copy)]
pub(crate) struct Extents {
    pub(crate) objects: u32,
    pub(crate) sites: u32,
}
