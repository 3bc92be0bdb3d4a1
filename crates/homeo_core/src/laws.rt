//! What is true of closed rounds and the sites of the open one, of an accepted workload.

ghost use Rattle.homeo_core.specs.Laws.{Joining, Gathering, CoreLocal, FollowsLocal, CoreCleanup, FollowsCleanup, CoreOrder};

/// Closed rounds and sites in one round, with each client's calls in order, are a legal history.
pub fn joined_rounds_are_legal()
    ensures { Joining }
{}

/// While the deltas of the sites are added to the base, one site after another, each sum is within the workload's bounds.
pub fn sums_stay_within_bounds()
    ensures { Gathering }
{}

/// A call that keeps its site's treaty keeps what closed rounds and sites hold, and adds exactly its answer to the
/// history's.
pub fn local_calls_go_on()
    ensures { CoreLocal }
{}

/// Where the history followed a list of calls, after such a call it follows the list with this call at its end.
pub fn local_calls_are_followed()
    ensures { FollowsLocal }
{}

/// A call that breaks its site's treaty and so closes the round keeps what closed rounds and sites hold, and adds exactly
/// its answer to the history's.
pub fn closing_calls_go_on()
    ensures { CoreCleanup }
{}

/// Where the history followed a list of calls, after such a call it follows the list with this call at its end.
pub fn closing_calls_are_followed()
    ensures { FollowsCleanup }
{}

/// Where the answers have one more at the end of those to its client, with that client's next number, each client's calls
/// stay in order.
pub fn answers_stay_in_order()
    ensures { CoreOrder }
{}
