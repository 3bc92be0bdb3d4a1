//! What is called while a site's lock is held.

use std::sync::Wait;

/// Is told of each call, while its site's lock is held and before the site attempts it. It sees no state and can't refuse; a
/// gate of a test may wait.
pub trait Gate: Sync {
    /// The call of a client, from 0, with this number among the client's calls, from 1, is inside at its site, from 0.
    fn inside<R: Wait>(&self, rt: &R, site: u32, client: u32, seq: u64);
}

/// A gate that does nothing.
#[derive(Drop)]
pub struct OpenGate;

impl Gate for OpenGate {
    fn inside<R: Wait>(&self, _rt: &R, _site: u32, _client: u32, _seq: u64) {}
}
