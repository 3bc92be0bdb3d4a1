//! The history that stands in nodes.

ghost use Rattle.std.specs.Prelude.{◌≡◌, ◌∷◌, [], All, FitsSigned, map, length, IfOk};
ghost use Rattle.std.specs.Int.{w64};
ghost use Rattle.homeo_core.specs.Joined.{gathered};
ghost use Rattle.homeo_history.specs.HistoryView.{plain_entry, plain_segment, plain_closing, plain_round, plain_history};
ghost use Rattle.homeo_wire.specs.Read.{last_round, ran_in, rounds_left, sites_in, history_by, history_of};
ghost use Rattle.homeo_wire.specs.WireView.{plain_left, plain_journal};
ghost use Rattle.homeo_wire.specs.inner.Standing.{LastFits, CanRead};

use crate::node::{Left, Node};
use crate::states::copy_values;
use homeo_history::{Closing, Entry, History, Round, Segment};
use homeo_meaning::Database;
use homeo_round::add_deltas;
use homeo_syntax::{List, Memory};
use std::alloc::Global;

/// An equal entry.
#[tactic(auto, using(homeo_history::proofs::HistoryViews::history_views))]
fn copy_entry(alloc: Global, entry: &Entry) -> Result<Entry, Memory>
    ensures { IfOk result (λ e. plain_entry e ≡ plain_entry entry.now) }
{
    let prints = copy_values(alloc, entry.prints.as_slice())?;
    Ok(Entry {
        call: entry.call,
        prints,
    })
}

/// Equal entries.
#[tactic(auto, using(homeo_history::proofs::HistoryViews::history_views))]
fn copy_entries(alloc: Global, entries: &[Entry]) -> Result<Vec<Entry>, Memory>
    ensures { IfOk result (λ s. map plain_entry s.items ≡ map plain_entry entries.now) }
{
    let mut copies = Vec::new(alloc);
    for entry in entries {
        copies.push(copy_entry(alloc, entry)?)?;
    }
    Ok(copies)
}

/// An equal segment.
#[tactic(auto, using(homeo_history::proofs::HistoryViews::history_views))]
fn copy_segment(alloc: Global, segment: &Segment) -> Result<Segment, Memory>
    ensures { IfOk result (λ s. plain_segment s ≡ plain_segment segment.now) }
{
    let entries = copy_entries(alloc, segment.entries.as_slice())?;
    Ok(Segment {
        entries: List::from_vec(entries),
    })
}

/// An equal closing call.
#[tactic(auto, using(homeo_history::proofs::HistoryViews::history_views))]
fn copy_closing(alloc: Global, closing: &Closing) -> Result<Closing, Memory>
    ensures { IfOk result (λ c. plain_closing c ≡ plain_closing closing.now) }
{
    Ok(Closing {
        site: closing.site,
        entry: copy_entry(alloc, &closing.entry)?,
        broken: closing.broken,
    })
}

/// What a node ran in a round: nothing where it hasn't come to it.
#[tactic(auto, using(homeo_history::proofs::HistoryViews::history_views))]
fn ran_in(alloc: Global, node: &Node, round: usize) -> Result<Segment, Memory>
    ensures { IfOk result (λ s. plain_segment s ≡ ran_in round (plain_journal node.now)) }
{
    let left = node.left.as_slice();
    if round < left.len() {
        return copy_segment(alloc, &left[round].segment);
    }
    if round == left.len() {
        return copy_segment(alloc, node.site.segment());
    }
    Ok(Segment {
        entries: List::new(alloc),
    })
}

/// What each node ran in a round.
fn ran_by_all(alloc: Global, nodes: &[Node], round: usize) -> Result<List<Segment>, Memory>
    ensures { IfOk result (λ s. map plain_segment s.items ≡ map (ran_in round) (map plain_journal nodes.now)) }
{
    let mut segments = List::new(alloc);
    for node in nodes {
        segments.push(ran_in(alloc, node, round)?)?;
    }
    Ok(segments)
}

/// The greatest round of any node.
pub(crate) fn last_round(nodes: &[Node]) -> u64
    ensures { result ≡ last_round (map plain_journal nodes.now) }
{
    let mut last = 0;
    for node in nodes {
        let round = node.site.round();
        if round > last {
            last = round;
        }
    }
    last
}

/// The rounds that a node has left, each with what all nodes ran in it.
#[tactic(auto, using(homeo_history::proofs::HistoryViews::history_views))]
fn rounds_left(alloc: Global, nodes: &[Node], left: &[Left]) -> Result<List<Round>, Memory>
    ensures { IfOk result (λ r. map plain_round r.items ≡ rounds_left (map plain_journal nodes.now) 0 (map plain_left left.now)) }
{
    let mut rounds = List::new(alloc);
    for (i, one) in left.iter().enumerate() {
        let round = Round {
            base: copy_values(alloc, one.base.as_slice())?,
            segments: ran_by_all(alloc, nodes, i)?,
            closing: Some(copy_closing(alloc, &one.closing)?),
        };
        rounds.push(round)?;
    }
    Ok(rounds)
}

/// Adds a node's deltas to values, where the node is in this round.
#[tactic(auto, unfolding(crate::specs::Key::definitions))]
fn add_node(values: &mut [i64], node: &Node, round: u64)
    requires { All (FitsSigned w64) (gathered values.old (sites_in round (plain_journal node.now ∷ []))) }
    ensures { values.new ≡ gathered values.old (sites_in round (plain_journal node.now ∷ [])) }
{
    if node.site.round() == round {
        add_deltas(values, node.site.deltas());
    }
}

/// A base with the deltas of the nodes that are in a round.
fn last_values(alloc: Global, nodes: &[Node], round: u64, base: &[i64]) -> Result<Database, Memory>
    requires fits { LastFits base.now round (map plain_journal nodes.now) }
    ensures { IfOk result (λ d. d.items ≡ gathered base.now (sites_in round (map plain_journal nodes.now))) }
{
    let mut sum = Vec::from_slice(alloc, base)?;
    add_nodes(sum.as_mut_slice(), nodes, round);
    Ok(List::from_vec(sum))
}

/// Adds the deltas of the nodes that are in a round to values.
fn add_nodes(values: &mut [i64], nodes: &[Node], round: u64)
    requires { LastFits values.old round (map plain_journal nodes.now) }
    ensures { values.new ≡ gathered values.old (sites_in round (map plain_journal nodes.now)) }
{
    for node in nodes {
        add_node(values, node, round);
    }
}

/// The history by a node that is in the last round.
#[tactic(auto, using(homeo_history::proofs::HistoryViews::history_views))]
fn history_by(alloc: Global, nodes: &[Node], node: &Node) -> Result<History, Memory>
    requires rounds { length node.now.left.items ≡ node.now.site.state.round }
    requires base { node.now.base.items ≡ node.now.site.state.base }
    requires fits { LastFits node.now.site.state.base node.now.site.state.round (map plain_journal nodes.now) }
    ensures { IfOk result (λ h. plain_history h ≡ history_by (map plain_journal nodes.now) (plain_journal node.now)) }
{
    let left = node.left.as_slice();
    let base = node.base.as_slice();
    let closed = left.len();
    let mut rounds = rounds_left(alloc, nodes, left)?;
    let round = Round {
        base: copy_values(alloc, base)?,
        segments: ran_by_all(alloc, nodes, closed)?,
        closing: None,
    };
    rounds.push(round)?;
    let last = last_values(alloc, nodes, node.site.round(), base)?;
    Ok(History { rounds, last })
}

/// The history that stands in nodes.
///
/// # Errors
///
/// `Memory` when out of memory.
pub(crate) fn history_of(alloc: Global, nodes: &[Node]) -> Result<History, Memory>
    requires { CanRead nodes.now }
    ensures { IfOk result (λ h. plain_history h ≡ history_of (map plain_journal nodes.now)) }
{
    let last = last_round(nodes);
    for node in nodes {
        if node.site.round() == last {
            return history_by(alloc, nodes, node);
        }
    }
    Ok(History {
        rounds: List::new(alloc),
        last: List::new(alloc),
    })
}
