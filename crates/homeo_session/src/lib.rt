//! Batches of calls on a stream: a session takes the stream's bytes in any pieces, and answers each frame as it ends.
#![tactic(auto)]

mod batch;
mod first_token;
mod head;
pub mod laws;
mod session;
mod stream;

pub use session::Session;
pub use stream::Fed;
