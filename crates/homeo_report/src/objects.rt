//! Appending the values of all objects.

ghost use Rattle.std.specs.Prelude.{◌≡◌, ◌<◌, ◌++◌, pos, slice_index_or, length, OnOk};
ghost use Rattle.homeo_print.specs.Names.{name_at};
ghost use Rattle.homeo_report.specs.Report.{object_line, object_lines};

use homeo_print::{ObjectNames, push_bytes, push_signed};
use homeo_syntax::Memory;

/// Appends the line of an object.
#[tactic(auto, unfolding(crate::specs::Key::definitions))]
fn push_line(
    out: &mut Vec<u8>,
    names: &ObjectNames,
    values: &[i64],
    object: usize,
) -> Result<(), Memory>
    requires { object < length values.now }
    ensures { OnOk result (out.new.items ≡ out.old.items
        ++ object_line (name_at names.now object) (slice_index_or values.now object (pos 0))) }
{
    push_bytes(out, names.get(object))?;
    push_bytes(out, b" = ")?;
    push_signed(out, values[object])?;
    push_bytes(out, b"\n")
}

/// Appends the lines of all objects.
#[tactic(auto, using(crate::proofs::ObjectLines::object_steps))]
pub(crate) fn push_objects(
    out: &mut Vec<u8>,
    names: &ObjectNames,
    values: &[i64],
) -> Result<(), Memory>
    requires { length values.now ≡ length names.now }
    ensures { OnOk result (out.new.items ≡ out.old.items ++ object_lines names.now values.now) }
{
    for object in 0..values.len() {
        push_line(out, names, values, object)?;
    }
    Ok(())
}
