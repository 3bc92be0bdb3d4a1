//! The wire is a case.

ghost use Rattle.homeo_case.specs.Case.{IsCase};

/// Whatever events happen on the wire, of an accepted workload, its nodes and packets are those of nodes that are asked some calls, each
/// client's in the order of its list; what these nodes have done is a legal history.
pub fn wire_is_a_case()
    ensures { IsCase }
{}
