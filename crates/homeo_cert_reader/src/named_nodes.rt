//! Nodes, read from JSON values by their names.

ghost use Rattle.std.specs.Prelude.{[], ◌∷◌, IfOk, option_map, map};
ghost use Rattle.serde_json.specs.Data.{string};
ghost use Rattle.serde_json.specs.View.{view};
ghost use Rattle.homeo_plan.specs.Each.{Each};
ghost use Rattle.homeo_certificate.specs.Json.{list_data, node_data};
ghost use Rattle.homeo_cert_reader.specs.Read.{IsRead};
ghost use Rattle.homeo_cert_reader.specs.inner.Reading.{IsBare};
ghost use Rattle.homeo_certificate.specs.NodeShapes.{NodeInShape};

use crate::deltas::delta_of;
use crate::extents::Extents;
use crate::items::{items, read_list};
use crate::numbers::{count, number_below, temp_number, whole};
use homeo_certificate::Node;
use homeo_syntax::{Compare, Memory, Temp};
use serde_json::Value;
use std::alloc::Global;

/// A node: a list of its name and its numbers.
pub(crate) fn read_node(value: &Value, extents: Extents) -> Option<Node>
    ensures { IsRead (NodeInShape extents.objects extents.sites) node_data (view value.now) result }
{
    let (name, numbers) = items(value)?.split_first()?;
    named(name.as_str()?, numbers, extents)
}

/// A node of this name with these numbers.
fn named(name: &str, numbers: &[Value], extents: Extents) -> Option<Node>
    ensures { IsRead (NodeInShape extents.objects extents.sites) node_data (list_data (string name.now ∷ map view numbers.now)) result }
{
    if numbers.len() == 0 {
        bare(name)
    } else if numbers.len() == 1 {
        with_number(name, &numbers[0], extents)
    } else if numbers.len() == 2 {
        with_delta(name, &numbers[0], &numbers[1], extents)
    } else {
        None
    }
}

/// A node without numbers.
#[tactic(auto, unfolding(homeo_certificate::specs::Key::definitions))]
fn bare(name: &str) -> Option<Node>
    ensures { IsBare name.now result }
{
    match name {
        "skip" => Some(Node::Skip),
        "assign" => Some(Node::Assign),
        "print" => Some(Node::Print),
        "true" => Some(Node::True),
        "<" => Some(Node::Comparison(Compare::Less)),
        "<=" => Some(Node::Comparison(Compare::LessEqual)),
        "=" => Some(Node::Comparison(Compare::Equal)),
        "neg" => Some(Node::Neg),
        _ => None,
    }
}

/// A node with one number.
#[tactic(auto, unfolding(homeo_certificate::specs::Key::definitions))]
fn with_number(name: &str, n: &Value, extents: Extents) -> Option<Node>
    ensures { IsRead (NodeInShape extents.objects extents.sites) node_data (list_data (string name.now ∷ view n.now ∷ [])) result }
{
    match name {
        "lit" => Some(Node::Literal(whole(n)?)),
        "base" => Some(Node::Base(number_below(n, extents.objects)?)),
        "named" => Some(Node::Temp(Temp::Named(temp_number(n)?))),
        "fresh" => Some(Node::Temp(Temp::Fresh(temp_number(n)?))),
        "seq" => Some(Node::Seq(count(n)?)),
        "if" => Some(Node::If(count(n)?)),
        "not" => Some(Node::Not(count(n)?)),
        "sum" => Some(Node::Sum(count(n)?)),
        "product" => Some(Node::Product(count(n)?)),
        _ => None,
    }
}

/// A node with an object and a site.
#[tactic(auto, unfolding(homeo_certificate::specs::Key::definitions))]
fn with_delta(name: &str, object: &Value, site: &Value, extents: Extents) -> Option<Node>
    ensures { IsRead (NodeInShape extents.objects extents.sites) node_data
        (list_data (string name.now ∷ view object.now ∷ view site.now ∷ [])) result }
{
    let delta = delta_of(object, site, extents)?;
    match name {
        "write" => Some(Node::Write {
            object: delta.object,
            site: delta.site,
        }),
        "delta" => Some(Node::Delta {
            object: delta.object,
            site: delta.site,
        }),
        _ => None,
    }
}

/// A list of nodes.
pub(crate) fn read_nodes(
    alloc: Global,
    value: &Value,
    extents: Extents,
) -> Result<Option<Vec<Node>>, Memory>
    ensures { IfOk result (λ o. IsRead (Each (NodeInShape extents.objects extents.sites)) (λ ns. list_data (map node_data ns)) (view value.now) (option_map (λ l. l.items) o)) }
{
    read_list(alloc, value, |item| Ok(read_node(item, extents)))
}
