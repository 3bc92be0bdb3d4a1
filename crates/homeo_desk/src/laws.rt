//! What is true of desks, one of each site, whatever requests, packets and ticks come to them.

ghost use Rattle.homeo_desk.specs.Runs.{RunsAreEvents};

/// What desks do by moves, on packets that they have let out, nodes do by events: so the laws of nodes hold of the nodes of desks, and of
/// what these answer.
pub fn runs_are_events()
    ensures { RunsAreEvents }
{}
