//! What is true of the nodes of all sites, whatever lines come to them.

ghost use Rattle.homeo_process.specs.Laws.{LinesAreEvents, LinesTellOneHistory};

/// What nodes of all sites do with lines, where each packet that a line means was let out and each node begins at the desk of its site, is
/// what nodes do by events: so the laws of nodes hold of them, of what they let out and of what they answer.
pub fn lines_are_events()
    ensures { LinesAreEvents }
{}

/// What they answer for the first time are the answers of one serial history: at each site the first of those of its calls, in order.
pub fn lines_tell_one_history()
    ensures { LinesTellOneHistory }
{}
