//! The ids of nodes.

ghost use Rattle.std.specs.Prelude.{◌≡◌, ◌<◌, ◌^◌, suc, length, take, drop, option_map, slice_get, IfSome};
ghost use Rattle.homeo_process.specs.Driven.{place_of};

use homeo_syntax::Text;
use std::marker::Model;

/// The ids of all nodes, in the order of their sites, and which one a node is.
#[derive(Drop)]
pub(crate) struct Names {
    ids: Vec<Text>,
    own: u32,
}

impl Model for Names {
    ghost use Rattle.std.specs.Prelude.{◌<◌, ◌^◌, length};
    ghost use Rattle.homeo_process.specs.Driven as driven;

    ghost Value = { driven.Names };

    ghost view = { λ n. record { ids = n.ids.items; own = n.own } };

    ghost invariant = { λ n. (n.own < length n.ids.items) × (length n.ids.items < 2 ^ 32) };
}

impl Names {
    /// The ids of all nodes, and the site of one.
    pub(crate) fn of(ids: Vec<Text>, own: u32) -> Names
        requires there { own < length ids.items }
        requires few { length ids.items < 2 ^ 32 }
        ensures { result ≡ record { ids = ids.items; own = own } }
    {
        Names { ids, own }
    }

    /// The id of the node of a site.
    pub(crate) fn id(&self, site: u32) -> Option<&str>
        ensures { option_map (λ s. s.now) result ≡ slice_get self.now.ids site }
    {
        match self.ids.get(site as usize) {
            Some(id) => Some(id.as_str()),
            None => None,
        }
    }

    /// The id of the node.
    pub(crate) fn own(&self) -> Option<&str>
        ensures { option_map (λ s. s.now) result ≡ slice_get self.now.ids self.now.own }
    {
        self.id(self.own)
    }

    /// The ids of the nodes of lower sites.
    pub(crate) fn lower(&self) -> &[Text]
        ensures { result.now ≡ take self.now.own self.now.ids }
    {
        &self.ids[..self.own as usize]
    }

    /// The ids of the nodes of higher sites.
    pub(crate) fn higher(&self) -> &[Text]
        ensures { result.now ≡ drop (suc self.now.own) self.now.ids }
    {
        &self.ids[self.own as usize + 1..]
    }

    /// The site of the node of an id.
    pub(crate) fn site(&self, id: &str) -> Option<u32>
        ensures { result ≡ place_of id.now self.now.ids }
    {
        place_of(self.ids.as_slice(), id)
    }
}

/// The place of an id among ids.
pub(crate) fn place_of(ids: &[Text], id: &str) -> Option<u32>
    requires { length ids.now < 2 ^ 32 }
    ensures place { result ≡ place_of id.now ids.now }
    ensures there { IfSome result (λ place. place < length ids.now) }
{
    for (place, other) in ids.iter().enumerate() {
        if other.as_str() == id {
            return Some(place as u32);
        }
    }
    None
}
