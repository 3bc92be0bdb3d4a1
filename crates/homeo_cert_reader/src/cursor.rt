//! Nodes that are read one after another.

ghost use Rattle.std.specs.Prelude.{◌≡◌, [], ◌∷◌, MatchOption};

use homeo_certificate::Node;
use std::marker::Model;

/// The nodes that are left to read.
#[derive(Drop)]
pub(crate) struct Nodes<'a> {
    left: &'a [Node],
}

impl<'a> Model for Nodes<'a> {
    ghost use Rattle.std.specs.Prelude.{List};
    ghost use Rattle.homeo_certificate.specs.declared.nodes.Node.{Node};

    ghost Value = { List Node };

    ghost view = { λ n. n.left.now };
}

impl<'a> Nodes<'a> {
    pub(crate) fn new(nodes: &'a [Node]) -> Nodes<'a>
        ensures { result ≡ nodes.now }
    {
        Nodes { left: nodes }
    }

    /// The next node, if there is one.
    pub(crate) fn next(&mut self) -> Option<Node>
        ensures { MatchOption result (self.old ≡ []) (λ n. self.old ≡ n ∷ self.new) }
    {
        let (first, rest) = self.left.split_first()?;
        self.left = rest;
        Some(*first)
    }
}
