//! A certificate's parts, written as JSON values.

ghost use Rattle.std.specs.Prelude.{[], ◌∷◌, map, ℤ, pos, OnOk};
ghost use Rattle.homeo_syntax.specs.Listed.{Listed};
ghost use Rattle.homeo_plan.specs.PlanView.{plain_clause};
ghost use Rattle.homeo_plan.specs.declared.templates.Clause.{Clause};
ghost use Rattle.serde_json.specs.Data.{Data};
ghost use Rattle.serde_json.specs.Events.{SendsValue};
ghost use Rattle.homeo_certificate.specs.Json.{whole_data, wholes_data, list_data, named, node_data, temp_data, compare_data};
ghost use Rattle.homeo_certificate.specs.Text.{delta_data, term_data, clause_data};
ghost use Rattle.homeo_cert.specs.inner.Sends.{SendsMember};
ghost use Rattle.homeo_certificate.specs.declared.nodes.Node.TheVariants.{Literal};

use homeo_certificate::Node;
use homeo_plan::{Clause, Delta, Term};
use homeo_syntax::{Compare, List, Temp};
use serde::{Serialize, Serializer};
use serde_json::Number;

/// What has a JSON value.
pub(crate) trait Written {
    /// What the value is.
    ghost json: { Self → Data };

    /// Writes the value.
    fn write<S: Serializer>(&self, out: &mut S) -> Result<(), S::Error>
        ensures { OnOk result (SendsValue (json self.now) (S.written out.old) (S.written out.new)) };
}

/// Writes a member of an object.
pub(crate) fn write_member<T: Written, S: Serializer>(
    key: &str,
    value: &T,
    out: &mut S,
) -> Result<(), S::Error>
    ensures { OnOk result (SendsMember key.now (T.Written.json value.now) (S.written out.old) (S.written out.new)) }
{
    out.key(key)?;
    value.write(out)
}

/// A list of values.
impl<T: Written> Written for &[T] {
    ghost json = { λ s. list_data (map T.Written.json s.now) };

    fn write<S: Serializer>(&self, out: &mut S) -> Result<(), S::Error> {
        out.begin_seq(Some(self.len()))?;
        for item in self.iter() {
            item.write(out)?;
        }
        out.end_seq()
    }
}

impl Written for u32 {
    ghost json = { λ n. whole_data (pos n) };

    fn write<S: Serializer>(&self, out: &mut S) -> Result<(), S::Error> {
        out.u64(*self as u64)
    }
}

impl Written for i64 {
    ghost json = { whole_data };

    fn write<S: Serializer>(&self, out: &mut S) -> Result<(), S::Error> {
        Number::from(*self).serialize(out)
    }
}

/// A number of 64 bits. No plan has a larger one.
impl Written for i128 {
    ghost json = { whole_data };

    fn write<S: Serializer>(&self, out: &mut S) -> Result<(), S::Error> {
        match Number::from_i128(*self) {
            Some(number) => number.serialize(out),
            None => Err(out.custom("more than 64 bits")),
        }
    }
}

impl Written for List<i128> {
    ghost json = { λ (l : Listed ℤ). wholes_data l.items };

    fn write<S: Serializer>(&self, out: &mut S) -> Result<(), S::Error> {
        self.as_slice().write(out)
    }
}

impl Written for Delta {
    ghost json = { delta_data };

    fn write<S: Serializer>(&self, out: &mut S) -> Result<(), S::Error> {
        out.begin_seq(Some(2))?;
        self.object.write(out)?;
        self.site.write(out)?;
        out.end_seq()
    }
}

impl Written for Term {
    ghost json = { term_data };

    fn write<S: Serializer>(&self, out: &mut S) -> Result<(), S::Error> {
        out.begin_seq(Some(3))?;
        self.delta.object.write(out)?;
        self.delta.site.write(out)?;
        self.factor.write(out)?;
        out.end_seq()
    }
}

impl Written for Clause {
    ghost json = { λ (c : Clause). clause_data (plain_clause c) };

    fn write<S: Serializer>(&self, out: &mut S) -> Result<(), S::Error> {
        out.begin_map(Some(2))?;
        write_member("slack", &self.slack, out)?;
        write_member("terms", &self.terms.as_slice(), out)?;
        out.end_map()
    }
}

impl Written for Node {
    ghost json = { node_data };

    #[tactic(auto, unfolding(homeo_certificate::specs::Key::definitions))]
    fn write<S: Serializer>(&self, out: &mut S) -> Result<(), S::Error> {
        match *self {
            Node::Skip => write_bare("skip", out),
            Node::Assign => write_bare("assign", out),
            Node::Write { object, site } => write_with_delta("write", object, site, out),
            Node::Print => write_bare("print", out),
            Node::Seq(n) => write_with_count("seq", n, out),
            Node::If(n) => write_with_count("if", n, out),
            Node::True => write_bare("true", out),
            Node::Not(n) => write_with_count("not", n, out),
            Node::Comparison(op) => write_compare(op, out),
            Node::Temp(t) => write_temp(t, out),
            Node::Literal(n) => write_literal(n, out),
            Node::Base(object) => write_with_count("base", object as u64, out),
            Node::Delta { object, site } => write_with_delta("delta", object, site, out),
            Node::Sum(n) => write_with_count("sum", n, out),
            Node::Product(n) => write_with_count("product", n, out),
            Node::Neg => write_bare("neg", out),
        }
    }
}

/// Writes a node without numbers.
fn write_bare<S: Serializer>(name: &str, out: &mut S) -> Result<(), S::Error>
    ensures { OnOk result (SendsValue (named name.now []) (S.written out.old) (S.written out.new)) }
{
    out.begin_seq(Some(1))?;
    out.str(name)?;
    out.end_seq()
}

/// Writes a node with one number.
fn write_with_count<S: Serializer>(name: &str, n: u64, out: &mut S) -> Result<(), S::Error>
    ensures { OnOk result (SendsValue (named name.now (pos n ∷ [])) (S.written out.old) (S.written out.new)) }
{
    out.begin_seq(Some(2))?;
    out.str(name)?;
    out.u64(n)?;
    out.end_seq()
}

/// Writes a node with an object and a site.
fn write_with_delta<S: Serializer>(
    name: &str,
    object: u32,
    site: u32,
    out: &mut S,
) -> Result<(), S::Error>
    ensures { OnOk result (SendsValue (named name.now (pos object ∷ pos site ∷ [])) (S.written out.old) (S.written out.new)) }
{
    out.begin_seq(Some(3))?;
    out.str(name)?;
    object.write(out)?;
    site.write(out)?;
    out.end_seq()
}

#[tactic(auto, unfolding(homeo_certificate::specs::Key::definitions))]
fn write_compare<S: Serializer>(op: Compare, out: &mut S) -> Result<(), S::Error>
    ensures { OnOk result (SendsValue (compare_data op) (S.written out.old) (S.written out.new)) }
{
    match op {
        Compare::Less => write_bare("<", out),
        Compare::LessEqual => write_bare("<=", out),
        Compare::Equal => write_bare("=", out),
    }
}

#[tactic(auto, unfolding(homeo_certificate::specs::Key::definitions))]
fn write_temp<S: Serializer>(t: Temp, out: &mut S) -> Result<(), S::Error>
    ensures { OnOk result (SendsValue (temp_data t) (S.written out.old) (S.written out.new)) }
{
    match t {
        Temp::Named(n) => write_with_count("named", n as u64, out),
        Temp::Fresh(n) => write_with_count("fresh", n as u64, out),
    }
}

/// Writes a literal.
#[tactic(auto, unfolding(homeo_certificate::specs::Key::definitions))]
fn write_literal<S: Serializer>(n: i64, out: &mut S) -> Result<(), S::Error>
    ensures { OnOk result (SendsValue (node_data (Literal n)) (S.written out.old) (S.written out.new)) }
{
    out.begin_seq(Some(2))?;
    out.str("lit")?;
    n.write(out)?;
    out.end_seq()
}
