//! What holds of schedules.

ghost use Rattle.std.specs.Prelude.{◌≡◌, []};
ghost use Rattle.homeo_syntax.specs.Source as s;
ghost use Rattle.homeo_syntax.specs.WellFormed.{IsWellFormed};
ghost use Rattle.homeo_meaning.specs.declared.call.Purpose.TheVariants as purpose;
ghost use Rattle.homeo_meaning.specs.Faults.{faults};
ghost use Rattle.homeo_order.specs.Scheduled.{IsWholeOrder};

/// The schedule of a workload that is accepted for `steps` runs every call of every client. Without a schedule there are none.
pub fn orders_are_whole()
    ensures { (w : s.Workload) → IsWellFormed w → faults purpose.Steps w ≡ [] → IsWholeOrder w }
{}
