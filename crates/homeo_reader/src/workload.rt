//! The whole workload.

ghost use Rattle.std.specs.Prelude.{◌≡◌, Ok};
ghost use Rattle.homeo_syntax.specs.SourceView.{plain_schedule, plain_workload};
ghost use Rattle.homeo_reader.specs.inner.Reading.{Gives, same, number_is_read, offset_read};
ghost use Rattle.homeo_syntax.specs.Versions.{version_number};
ghost use Rattle.homeo_reader.specs.inner.Declarations.{next_name_read, names_read, schedule_read, next_weight_read, other_weights_read, weights_read, head_view, head_read, workload_read};

use crate::parser::{Fault, Parser, list_of};
use homeo_syntax::{Ident, Kind, List, Mark, Number, Text, Version, Workload};
use std::alloc::Global;

impl<'a> Parser<'a> {
    /// Takes this mark, and gives its offset.
    fn offset_of(&mut self, mark: Mark) -> Result<u64, Fault>
        ensures { Gives same result self.new.rest.now (offset_read mark self.old.rest.now) }
    {
        match self.rest.split_first() {
            Some((t, rest)) => {
                if t.kind == Kind::Fixed(mark) {
                    self.rest = rest;
                    Ok(t.offset)
                } else {
                    Err(Fault::Stuck)
                }
            }
            None => Err(Fault::Stuck),
        }
    }

    /// A name, if one comes next.
    #[tactic(auto, using(crate::proofs::DeclarationSteps::next_name_reads), unfolding(crate::specs::inner::Declarations::next_name_do, crate::specs::inner::Declarations::next_name_by))]
    fn next_name(&mut self) -> Option<Ident>
        ensures { next_name_read self.old.rest.now ≡ Ok (result, self.new.rest.now) }
    {
        match self.rest.split_first() {
            Some((t, rest)) => match t.kind {
                Kind::Name(name) => {
                    self.rest = rest;
                    Some(Ident {
                        name,
                        offset: t.offset,
                    })
                }
                _ => None,
            },
            None => None,
        }
    }

    /// The names, as many as come.
    fn names(&mut self, alloc: Global) -> Result<List<Ident>, Fault>
        ensures { Gives (λ l. l.items) result self.new.rest.now (names_read self.old.rest.now) }
    {
        let mut items = List::new(alloc);
        'more: while let Some(item) = self.next_name() {
            items.push(item)?;
        }
        Ok(items)
    }

    /// The schedule, if there is one.
    #[tactic(auto, using(crate::proofs::DeclarationSteps::schedule_reads, homeo_syntax::proofs::SourceViews::workload_views), unfolding(crate::specs::inner::Declarations::schedule_do))]
    fn schedule(&mut self, alloc: Global) -> Result<Option<List<Ident>>, Fault>
        ensures { Gives plain_schedule result self.new.rest.now (schedule_read self.old.rest.now) }
    {
        if self.takes(Mark::Schedule) {
            let clients = self.names(alloc)?;
            Ok(Some(clients))
        } else {
            Ok(None)
        }
    }

    /// Takes the number of a version.
    fn number_of(&mut self, version: Version) -> Result<(), Fault>
        ensures { Gives same result self.new.rest.now (number_is_read (version_number version) self.old.rest.now) }
    {
        match self.rest.split_first() {
            Some((t, rest)) => match t.kind {
                Kind::Number(n) if n == version.number() as i64 => {
                    self.rest = rest;
                    Ok(())
                }
                _ => Err(Fault::Stuck),
            },
            None => Err(Fault::Stuck),
        }
    }

    /// A weight after a comma, if one comes next.
    #[tactic(auto, using(crate::proofs::DeclarationSteps::next_weight_reads), unfolding(crate::specs::inner::Declarations::next_weight_do))]
    fn next_weight(&mut self) -> Result<Option<Number>, Fault>
        ensures { Gives same result self.new.rest.now (next_weight_read self.old.rest.now) }
    {
        if self.takes(Mark::Comma) {
            let weight = self.number()?;
            Ok(Some(weight))
        } else {
            Ok(None)
        }
    }

    /// The weights that go on with a list.
    fn other_weights(&mut self, alloc: Global) -> Result<Vec<Number>, Fault>
        ensures { Gives (λ v. v.items) result self.new.rest.now (other_weights_read self.old.rest.now) }
    {
        let mut items = Vec::new(alloc);
        'more: while let Some(item) = self.next_weight()? {
            items.push(item)?;
        }
        Ok(items)
    }

    /// The weights of the sites, which version 1 has none of.
    #[tactic(auto, using(crate::proofs::DeclarationSteps::weights_reads), unfolding(crate::specs::inner::Declarations::weights_do))]
    fn weights(&mut self, alloc: Global, version: Version) -> Result<List<Number>, Fault>
        ensures { Gives (λ l. l.items) result self.new.rest.now (weights_read version self.old.rest.now) }
    {
        match version {
            Version::First => Ok(List::new(alloc)),
            Version::Second => {
                self.expect(Mark::Weights)?;
                let first = self.number()?;
                let others = self.other_weights(alloc)?;
                list_of(first, others)
            }
        }
    }

    /// The number of sites and their weights, with what stands before.
    #[tactic(auto, using(crate::proofs::DeclarationSteps::head_reads), unfolding(crate::specs::inner::Declarations::head_do))]
    fn head(&mut self, alloc: Global, version: Version) -> Result<(Number, List<Number>), Fault>
        ensures { Gives head_view result self.new.rest.now (head_read version self.old.rest.now) }
    {
        self.expect(Mark::Workload)?;
        self.number_of(version)?;
        self.expect(Mark::Sites)?;
        let sites = self.number()?;
        let weights = self.weights(alloc, version)?;
        Ok((sites, weights))
    }

    /// A workload of this version with these names.
    #[tactic(auto, using(crate::proofs::DeclarationSteps::workload_reads, homeo_syntax::proofs::SourceViews::workload_views), unfolding(crate::specs::inner::Declarations::workload_do))]
    pub(crate) fn workload(
        &mut self,
        alloc: Global,
        version: Version,
        names: List<Text>,
    ) -> Result<Workload, Fault>
        ensures { Gives plain_workload result self.new.rest.now (workload_read version names.items self.old.rest.now) }
    {
        let (sites, weights) = self.head(alloc, version)?;
        let objects = self.objects(alloc)?;
        let relations = self.relations(alloc)?;
        let transactions = self.transactions(alloc, version)?;
        let clients = self.clients(alloc)?;
        let schedule = self.schedule(alloc)?;
        let end = self.offset_of(Mark::End)?;
        Ok(Workload {
            version: version.number(),
            names,
            sites,
            objects,
            relations,
            transactions,
            clients,
            schedule,
            end,
            weights,
        })
    }
}
