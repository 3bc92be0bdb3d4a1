//! Objects of a certificate, whose members stand in the order of their keys.

ghost use Rattle.std.specs.Prelude.{◌≡◌, MatchOption};
ghost use Rattle.serde_json.specs.Data.{Data, Members, object, member as member_data, no_members};
ghost use Rattle.serde_json.specs.View.{view, members_view};
ghost use Rattle.homeo_cert_reader.specs.inner.Reading.{parts_data};

use serde_json::Value;
use std::collections::btree_map::Iter;

/// The value of the next member, if this is its key.
pub(crate) fn member<'a>(members: &mut Iter<'a, String, Value>, key: &str) -> Option<&'a Value>
    ensures { MatchOption result
        ((d : Data) (ms : Members) → member_data key.now d ms ≡ members_view members.old → ⊥)
        (λ v. member_data key.now (view v.now) (members_view members.new) ≡ members_view members.old) }
{
    let (name, value) = members.next()?;
    if name.as_str() == key {
        Some(value)
    } else {
        None
    }
}

/// The values of an object's two members, if these are their keys.
pub(crate) fn read_pair<'a>(
    value: &'a Value,
    first: &str,
    second: &str,
) -> Option<(&'a Value, &'a Value)>
    ensures { MatchOption result
        ((d e : Data) → object (member_data first.now d (member_data second.now e no_members)) ≡ view value.now → ⊥)
        (λ p. object (member_data first.now (view p.0.now) (member_data second.now (view p.1.now) no_members)) ≡ view value.now) }
{
    let mut members = value.as_object()?.iter();
    let one = member(&mut members, first)?;
    let other = member(&mut members, second)?;
    if members.next().is_some() {
        return None;
    }
    Some((one, other))
}

/// The values of the next two members, if these are their keys.
fn two<'a>(
    members: &mut Iter<'a, String, Value>,
    first: &str,
    second: &str,
) -> Option<(&'a Value, &'a Value)>
    ensures { MatchOption result
        ((d e : Data) (ms : Members) → member_data first.now d (member_data second.now e ms) ≡ members_view members.old → ⊥)
        (λ p. member_data first.now (view p.0.now) (member_data second.now (view p.1.now) (members_view members.new)) ≡ members_view members.old) }
{
    let one = member(members, first)?;
    let other = member(members, second)?;
    Some((one, other))
}

/// The values of a certificate's members.
#[derive(Clone, Copy)]
pub(crate) struct Parts<'a> {
    pub(crate) base: &'a Value,
    pub(crate) bounds: &'a Value,
    pub(crate) calls: &'a Value,
    pub(crate) clauses: &'a Value,
    pub(crate) freezes: &'a Value,
    pub(crate) sites: &'a Value,
    pub(crate) version: &'a Value,
}

pub(crate) fn certificate_parts(value: &Value) -> Option<Parts<'_>>
    ensures { MatchOption result
        ((b s g c f k v : Data) → parts_data b s g c f k v ≡ view value.now → ⊥)
        (λ p. parts_data (view p.base.now) (view p.bounds.now) (view p.calls.now) (view p.clauses.now) (view p.freezes.now) (view p.sites.now) (view p.version.now) ≡ view value.now) }
{
    let mut members = value.as_object()?.iter();
    let (base, bounds) = two(&mut members, "base", "bounds")?;
    let (calls, clauses) = two(&mut members, "calls", "clauses")?;
    let (freezes, sites) = two(&mut members, "freezes", "sites")?;
    let version = member(&mut members, "version")?;
    if members.next().is_some() {
        return None;
    }
    Some(Parts {
        base,
        bounds,
        calls,
        clauses,
        freezes,
        sites,
        version,
    })
}
