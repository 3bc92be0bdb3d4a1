//! Terms over whole objects, as they stand for the deltas at all sites. The same come again and again, so the texts of some are kept.
#![tactic(auto, using(crate::proofs::TreatySteps::treaty_steps))]

ghost use Rattle.std.specs.Prelude.{◌≡◌, ◌<◌, ◌++◌, IsTrue, IfOk, IfSome, OnOk};
ghost use Rattle.homeo_syntax.specs.SourceView.{plain_workload};
ghost use Rattle.homeo_follow.specs.Expanded.{terms_from};
ghost use Rattle.homeo_print.specs.Names.{object_names};
ghost use Rattle.homeo_print.specs.Treaties.{terms_text};
ghost use Rattle.homeo_print.specs.inner.Clauses.{term_front, IsSpread};

use crate::append::{push_byte, push_bytes, push_number, push_wide};
use crate::objects::ObjectNames;
use homeo_plan::Term;
use homeo_syntax::{Memory, Workload};
use std::alloc::Global;
use std::marker::Model;

/// How long the front of a term may become before its memory grows.
const FRONT_ROOM: usize = 64;

/// How many texts are kept at most.
const MOST_KEPT: usize = 64;

/// A term over a whole object behind a space, up to the number of its site.
fn term_front(
    alloc: Global,
    w: &Workload,
    objects: &ObjectNames,
    term: Term,
) -> Result<Vec<u8>, Memory>
    requires named { objects.now ≡ object_names (plain_workload w.now) }
    ensures { IfOk result (λ front. front.items ≡ term_front (plain_workload w.now) term.delta.object term.factor) }
{
    let mut front = Vec::with_capacity(alloc, FRONT_ROOM)?;
    push_byte(&mut front, b' ')?;
    push_wide(&mut front, term.factor)?;
    push_byte(&mut front, b'*')?;
    push_bytes(&mut front, objects.get(term.delta.object as usize))?;
    push_byte(&mut front, b'@')?;
    Ok(front)
}

/// Appends a term over a whole object, as it stands for the object's deltas at so many sites: each behind a space.
fn push_term(
    out: &mut Vec<u8>,
    w: &Workload,
    objects: &ObjectNames,
    term: Term,
    sites: u32,
) -> Result<(), Memory>
    requires named { objects.now ≡ object_names (plain_workload w.now) }
    ensures { OnOk result (out.new.items
        ≡ out.old.items ++ terms_text (plain_workload w.now) (terms_from 0 sites term.delta.object term.factor)) }
{
    let front = term_front(*out.allocator(), w, objects, term)?;
    for site in 0..sites {
        push_bytes(out, front.as_slice())?;
        push_number(out, site as u64)?;
    }
    Ok(())
}

/// The term of an object of a name at so many sites, with its text.
#[derive(Drop)]
struct SpreadTerm {
    name: Vec<u8>,
    factor: i128,
    sites: u32,
    text: Vec<u8>,
}

impl Model for SpreadTerm {
    ghost use Rattle.std.specs.Prelude.{ℕ, List};
    ghost use Rattle.homeo_print.specs.inner.Clauses.{IsSpread};

    ghost Value = { List ℕ };

    ghost view = { λ t. t.text.items };

    ghost invariant = { λ t. IsSpread t.name.items t.factor t.sites t.text.items };
}

impl SpreadTerm {
    fn of(
        alloc: Global,
        w: &Workload,
        objects: &ObjectNames,
        term: Term,
        sites: u32,
    ) -> Result<SpreadTerm, Memory>
        requires named { objects.now ≡ object_names (plain_workload w.now) }
        ensures { IfOk result (λ t. t ≡ terms_text (plain_workload w.now) (terms_from 0 sites term.delta.object term.factor)) }
    {
        let mut text = Vec::new(alloc);
        push_term(&mut text, w, objects, term, sites)?;
        let name = Vec::from_slice(alloc, objects.get(term.delta.object as usize))?;
        Ok(SpreadTerm {
            name,
            factor: term.factor,
            sites,
            text,
        })
    }

    fn text(&self) -> &[u8]
        ensures { result.now ≡ self.now }
    {
        self.text.as_slice()
    }

    /// Whether it is the term of an object of this name, by this factor, at so many sites.
    fn is_of(&self, name: &[u8], factor: i128, sites: u32) -> bool
        ensures { IsTrue result → IsSpread name.now factor sites self.now }
    {
        self.factor == factor && self.sites == sites && self.name.as_slice() == name
    }
}

/// The terms that were pushed last, each at a place that its object and its sign tell, so that it is found at once.
#[derive(Drop)]
pub(crate) struct SpreadTerms {
    kept: Vec<Option<SpreadTerm>>,
}

impl SpreadTerms {
    pub(crate) fn new(alloc: Global) -> Result<SpreadTerms, Memory> {
        let mut kept = Vec::with_capacity(alloc, MOST_KEPT)?;
        for _ in 0..MOST_KEPT {
            kept.push(None)?;
        }
        Ok(SpreadTerms { kept })
    }

    /// Appends a term over a whole object, as `push_term` does.
    pub(crate) fn push(
        &mut self,
        out: &mut Vec<u8>,
        w: &Workload,
        objects: &ObjectNames,
        term: Term,
        sites: u32,
    ) -> Result<(), Memory>
        requires named { objects.now ≡ object_names (plain_workload w.now) }
        ensures { OnOk result (out.new.items
            ≡ out.old.items ++ terms_text (plain_workload w.now) (terms_from 0 sites term.delta.object term.factor)) }
    {
        let place = place_of(term);
        let name = objects.get(term.delta.object as usize);
        if let Some(text) = self.text_at(place, name, term.factor, sites) {
            return push_bytes(out, text);
        }
        let made = SpreadTerm::of(*out.allocator(), w, objects, term, sites)?;
        push_bytes(out, made.text())?;
        self.keep(place, made);
        Ok(())
    }

    /// The text at a place, where it is that of the term of an object of this name at so many sites.
    fn text_at(&self, place: usize, name: &[u8], factor: i128, sites: u32) -> Option<&[u8]>
        ensures { IfSome result (λ text. IsSpread name.now factor sites text.now) }
    {
        match self.kept.get(place) {
            Some(Some(kept)) => {
                if kept.is_of(name, factor, sites) {
                    Some(kept.text())
                } else {
                    None
                }
            }
            Some(None) | None => None,
        }
    }

    fn keep(&mut self, place: usize, term: SpreadTerm) {
        if place < self.kept.len() {
            self.kept[place] = Some(term);
        }
    }
}

/// Where a term is kept: most objects have terms by 1 and by -1.
fn place_of(term: Term) -> usize {
    let sign = if term.factor < 0 { 1 } else { 0 };
    (term.delta.object as usize * 2 + sign) % MOST_KEPT
}
