//! What a line says.

use crate::wrong::Wrong;
use homeo_desk::DeskState;
use homeo_live::{Packet, Past};
use homeo_meaning::CallId;
use homeo_syntax::Text;

/// From whom a line comes, and the number of its message, where it says so.
#[derive(Drop)]
pub struct Head {
    pub from: Option<Text>,
    pub number: Option<u64>,
}

/// What a line says.
#[derive(Drop)]
pub struct Line {
    pub head: Head,
    pub message: Message,
}

/// To be the node of this id among these, from this state on, where one is given.
#[derive(Drop)]
pub struct Init {
    pub node: Text,
    pub nodes: Vec<Text>,
    pub state: Option<DeskState>,
}

/// What a message asks.
#[derive(Drop)]
pub enum Message {
    /// To be a node.
    Init(Init),
    /// To make a call that is in a client's list.
    Call(CallId),
    /// To take a packet.
    Packet(Packet),
    /// To take how a site closed the round that it stopped in last.
    Left(Past),
    /// To send again what others may lack.
    Tick,
    /// To tell all that the node is.
    Snapshot,
    /// To tell how far it is.
    Status,
    /// Nothing that can be done.
    Wrong(Wrong),
}
