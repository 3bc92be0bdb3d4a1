//! How far a desk is, written as JSON.

ghost use Rattle.std.specs.Prelude.{◌≡◌, length, codes, OnOk};
ghost use Rattle.serde_json.specs.Events.{SendsValue};
ghost use Rattle.homeo_syntax.specs.SourceView.{plain_workload};
ghost use Rattle.homeo_print.specs.Names.{object_names};
ghost use Rattle.homeo_lines.specs.Written.{object_of, named_values, status_fields};
ghost use Rattle.homeo_lines.specs.inner.Sends.{SendsFields};

use crate::catalogue::Catalogue;
use crate::state_writing::mode_name;
use crate::written::{Written, write_member};
use homeo_desk::Desk;
use serde::Serializer;

/// Writes the members of a status.
pub(crate) fn write_status<S: Serializer>(
    catalogue: &Catalogue,
    desk: &Desk,
    out: &mut S,
) -> Result<(), S::Error>
    ensures { OnOk result (SendsFields (status_fields (plain_workload catalogue.now) desk.now.node (length desk.now.queue)) (S.written out.old) (S.written out.new)) }
{
    let node = desk.node();
    write_member(catalogue, "round", &node.round(), out)?;
    write_member(catalogue, "mode", &mode_name(node.mode()), out)?;
    write_member(catalogue, "waiting", &(desk.waiting() as u64), out)?;
    out.key("base")?;
    write_named_values(catalogue, node.base().as_slice(), out)?;
    write_member(catalogue, "deltas", node.deltas(), out)
}

/// Writes the value of each object, by its name.
#[tactic(auto, using(crate::proofs::Sent::named_sends))]
fn write_named_values<S: Serializer>(
    catalogue: &Catalogue,
    values: &[i64],
    out: &mut S,
) -> Result<(), S::Error>
    ensures { OnOk result (SendsValue (object_of (named_values (object_names (plain_workload catalogue.now)) 0 values.now)) (S.written out.old) (S.written out.new)) }
{
    out.begin_map(Some(values.len()))?;
    for (object, value) in values.iter().enumerate() {
        write_member(catalogue, catalogue.object(object), value, out)?;
    }
    out.end_map()
}
