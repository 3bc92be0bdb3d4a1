//! What a report tells.

ghost use Rattle.homeo_report.specs.Laws.{OneReport};

/// Two full histories of an accepted workload that have one report are equal: a report tells which calls each site made by
/// itself in which round, and with the workload these tell all else.
pub fn reports_tell_histories()
    ensures { OneReport }
{}
