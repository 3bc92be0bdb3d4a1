//! What is true of all lines.

ghost use Rattle.homeo_lines.specs.Laws.{AcceptedAreNamed, CallsAreSmall, NodesAreSmall, PacketsReadBack, PastsAreSmall, PastsReadBack, SentAreSmall, StatesReadBack};

/// A packet that is written is read back as that packet.
pub fn packets_read_back()
    ensures { PacketsReadBack }
{}

/// How a round was closed that is written is read back as it was closed.
pub fn pasts_read_back()
    ensures { PastsReadBack }
{}

/// The state that a snapshot shows is read back as that state, where it is put into an `init`.
pub fn states_read_back()
    ensures { StatesReadBack }
{}

/// In an accepted text each client is the first of its name, which is a text.
pub fn clients_are_named()
    ensures { AcceptedAreNamed }
{}

/// In an accepted text each call that a client of a site has is found by its client's name and its number, which all JSON readers have.
pub fn calls_are_small()
    ensures { CallsAreSmall }
{}

/// What nodes of an accepted text send has only numbers that all JSON readers have, where its round is below 2^53, and so is read back, if
/// what it tells of a treaty has: deltas, calls and sites are small.
pub fn sent_packets_are_small()
    ensures { SentAreSmall }
{}

/// How a node of an accepted text has closed a round has only such numbers too.
pub fn pasts_are_small()
    ensures { PastsAreSmall }
{}

/// So has a node of an accepted text, where all that was sent has.
pub fn nodes_are_small()
    ensures { NodesAreSmall }
{}
