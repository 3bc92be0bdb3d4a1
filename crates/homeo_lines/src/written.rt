//! Values, written as JSON.

ghost use Rattle.std.specs.Prelude.{◌+◌, ◌≡◌, ◌<◌, ◌≤◌, map, ℤ, pos, length, OnOk};
ghost use Rattle.serde_json.specs.Data.{Data, string};
ghost use Rattle.serde_json.specs.Events.{SendsValue};
ghost use Rattle.homeo_syntax.specs.Source.{Workload};
ghost use Rattle.homeo_syntax.specs.SourceView.{plain_workload};
ghost use Rattle.homeo_syntax.specs.Listed.{Listed};
ghost use Rattle.homeo_certificate.specs.Json.{whole_data, list_data, wholes_data};
ghost use Rattle.homeo_lines.specs.Written.{count_data, maybe_data, type_fields};
ghost use Rattle.homeo_lines.specs.inner.Sends.{SendsField, SendsFields, Begins};

use crate::catalogue::Catalogue;
use homeo_syntax::{List, Text};
use serde::Serializer;

/// What has a JSON value, where the names of a workload are known.
pub(crate) trait Written {
    /// What the value is.
    ghost json: { Workload → Self → Data };

    /// Writes the value.
    fn write<S: Serializer>(&self, catalogue: &Catalogue, out: &mut S) -> Result<(), S::Error>
        ensures { OnOk result (SendsValue (json (plain_workload catalogue.now) self.now) (S.written out.old) (S.written out.new)) };
}

/// Writes a member of an object.
pub(crate) fn write_member<T: Written, S: Serializer>(
    catalogue: &Catalogue,
    key: &str,
    value: &T,
    out: &mut S,
) -> Result<(), S::Error>
    ensures { OnOk result (SendsField (key.now, T.Written.json (plain_workload catalogue.now) value.now) (S.written out.old) (S.written out.new)) }
{
    out.key(key)?;
    value.write(catalogue, out)
}

/// Begins an object that has a type, and the number of what it answers, where there is one, and so many more members.
pub(crate) fn begin_typed<S: Serializer>(
    catalogue: &Catalogue,
    name: &str,
    number: Option<u64>,
    more: usize,
    out: &mut S,
) -> Result<(), S::Error>
    requires few { more ≤ 16 }
    ensures { OnOk result (Begins (type_fields name.now number) more (S.written out.old) (S.written out.new)) }
{
    match number {
        Some(number) => {
            out.begin_map(Some(2 + more))?;
            write_member(catalogue, "type", &name, out)?;
            write_member(catalogue, "in_reply_to", &number, out)
        }
        None => {
            out.begin_map(Some(1 + more))?;
            write_member(catalogue, "type", &name, out)
        }
    }
}

impl Written for &str {
    ghost json = { λ _ s. string s.now };

    fn write<S: Serializer>(&self, _catalogue: &Catalogue, out: &mut S) -> Result<(), S::Error> {
        out.str(self)
    }
}

impl Written for Text {
    ghost json = { λ _ t. string t };

    fn write<S: Serializer>(&self, _catalogue: &Catalogue, out: &mut S) -> Result<(), S::Error> {
        out.str(self.as_str())
    }
}

impl Written for u32 {
    ghost json = { λ _ n. count_data n };

    fn write<S: Serializer>(&self, _catalogue: &Catalogue, out: &mut S) -> Result<(), S::Error> {
        out.u64(u64::from(*self))
    }
}

impl Written for u64 {
    ghost json = { λ _ n. count_data n };

    fn write<S: Serializer>(&self, _catalogue: &Catalogue, out: &mut S) -> Result<(), S::Error> {
        out.u64(*self)
    }
}

impl Written for i64 {
    ghost json = { λ _ n. whole_data n };

    #[tactic(auto, using(crate::proofs::Sent::number_sends))]
    fn write<S: Serializer>(&self, _catalogue: &Catalogue, out: &mut S) -> Result<(), S::Error> {
        if *self < 0 {
            out.i64(*self)
        } else {
            out.u64(*self as u64)
        }
    }
}

impl Written for i128 {
    ghost json = { λ _ n. whole_data n };

    #[tactic(auto, using(crate::proofs::Sent::number_sends))]
    fn write<S: Serializer>(&self, _catalogue: &Catalogue, out: &mut S) -> Result<(), S::Error> {
        if *self < 0 {
            out.i128(*self)
        } else {
            out.u128(*self as u128)
        }
    }
}

/// A value, or null.
impl<T: Written> Written for Option<T> {
    ghost json = { λ w. maybe_data (T.Written.json w) };

    fn write<S: Serializer>(&self, catalogue: &Catalogue, out: &mut S) -> Result<(), S::Error> {
        match self {
            Some(value) => value.write(catalogue, out),
            None => out.unit(),
        }
    }
}

/// A list of values.
impl<T: Written> Written for Vec<T> {
    ghost json = { λ w v. list_data (map (T.Written.json w) v.items) };

    fn write<S: Serializer>(&self, catalogue: &Catalogue, out: &mut S) -> Result<(), S::Error> {
        write_each(catalogue, self.as_slice(), out)
    }
}

/// A list of numbers.
impl Written for List<i64> {
    ghost json = { λ _ (l : Listed ℤ). wholes_data l.items };

    fn write<S: Serializer>(&self, catalogue: &Catalogue, out: &mut S) -> Result<(), S::Error> {
        write_each(catalogue, self.as_slice(), out)
    }
}

/// Writes a list of values.
#[tactic(auto, using(crate::proofs::Sent::list_sends))]
fn write_each<T: Written, S: Serializer>(
    catalogue: &Catalogue,
    items: &[T],
    out: &mut S,
) -> Result<(), S::Error>
    ensures { OnOk result (SendsValue (list_data (map (T.Written.json (plain_workload catalogue.now)) items.now)) (S.written out.old) (S.written out.new)) }
{
    out.begin_seq(Some(items.len()))?;
    for item in items {
        item.write(catalogue, out)?;
    }
    out.end_seq()
}
