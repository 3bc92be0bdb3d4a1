//! What is known at a place of a transaction, and the rules of names there.

ghost use Rattle.std.specs.Prelude.{◌≡◌, replicate, IfOk, OnOk};
ghost use Rattle.homeo_meaning.specs.Bindings.{binding};
ghost use Rattle.homeo_meaning.specs.Occurrences.{at, DeclaresRow, TakesObject, TakesRelation, TakesValue, TakesField, NamesField, FillsFields, Assigns};
ghost use Rattle.homeo_rules.specs.inner.Deciding.{keep_all};
ghost use Rattle.homeo_meaning.specs.NameRules.{fault};
ghost use Rattle.homeo_meaning.specs.declared.rules.Local.TheVariants.{Absent};
ghost use Rattle.homeo_rules.specs.inner.Follow.{local_at, step};
ghost use Rattle.homeo_rules.specs.inner.InForce.{rows_of};
ghost use Rattle.homeo_rules.specs.inner.Params.{enter_param};
ghost use Rattle.homeo_rules.specs.inner.Plain.{named_fields};
ghost use Rattle.homeo_rules.specs.inner.Scopes.{scope_in};

use crate::deciding::at_name;
use crate::names::rows::Rows;
use crate::names::scope::Scope;
use crate::rules::fields::{check_field, check_insert};
use homeo_meaning::{Binding, Fault, Item, Local, Phase};
use homeo_syntax::{FieldValue, Ident, Memory};
use std::alloc::Global;
use std::marker::Model;

/// What each name is within the transaction so far, and the fault that decides so far.
#[derive(Drop)]
pub(crate) struct Checker {
    alloc: Global,
    locals: Vec<Local>,
    best: Option<Fault>,
}

impl Model for Checker {
    ghost use Rattle.homeo_rules.specs.inner.Follow.{Standing};

    ghost Value = { Standing };

    ghost view = { λ k. record { locals = k.locals.items; best = k.best } };
}

impl Checker {
    /// At the head of a transaction, with the fault that decides so far.
    pub(crate) fn start(alloc: Global, names: usize, best: Option<Fault>) -> Result<Checker, Memory>
        ensures { IfOk result (λ k. k ≡ record { locals = replicate names Absent; best = best }) }
    {
        let locals = vec![in alloc; Local::Absent; names]?;
        Ok(Checker {
            alloc,
            locals,
            best,
        })
    }

    pub(crate) fn best(&self) -> Option<Fault>
        ensures { result ≡ self.now.best }
    {
        self.best
    }

    fn local(&self, name: u32) -> Local
        ensures { result ≡ local_at self.now.locals name }
    {
        match self.locals.get(name as usize) {
            Some(local) => *local,
            None => Local::Absent,
        }
    }

    /// With a fault at a name.
    fn keep(&mut self, phase: Phase, x: Ident)
        ensures { self.new ≡ record { locals = self.old.locals; best = keep_all self.old.best (fault phase x) } }
    {
        self.best = at_name(self.best, phase, x);
    }

    /// What a name stands for here: a global name, or else a row variable, or else a local.
    #[tactic(auto, unfolding(homeo_meaning::specs::Key::definitions))]
    fn binding(&self, scope: &Scope<'_>, rows: &Rows<'_>, name: u32) -> Binding
        ensures { result ≡ binding (scope_in scope.now) (local_at self.now.locals) (rows_of rows.now) name }
    {
        match scope.item(name) {
            Some(item) => Binding::Item(item),
            None => match rows.relation_of(name) {
                Some(relation) => Binding::Row(relation),
                None => match self.local(name) {
                    Local::Absent => Binding::Unbound,
                    Local::Parameter => Binding::Parameter,
                    Local::Temporary => Binding::Temporary,
                },
            },
        }
    }

    #[tactic(auto, using(crate::proofs::Steps::steps))]
    pub(crate) fn declares_param(&mut self, scope: &Scope<'_>, x: Ident)
        ensures { self.new ≡ enter_param (scope_in scope.now) self.old x }
    {
        if scope.item(x.name).is_some() || self.local(x.name) == Local::Parameter {
            self.keep(Phase::Duplicate, x);
        }
        if let Some(local) = self.locals.get_mut(x.name as usize) {
            *local = Local::Parameter;
        }
    }

    #[tactic(auto, using(crate::proofs::Steps::steps))]
    pub(crate) fn declares_row(&mut self, scope: &Scope<'_>, rows: &Rows<'_>, x: Ident)
        ensures { self.new ≡ step (scope_in scope.now) self.old (at (rows_of rows.now) (DeclaresRow x)) }
    {
        match self.binding(scope, rows, x.name) {
            Binding::Unbound => {}
            _ => self.keep(Phase::Duplicate, x),
        }
    }

    #[tactic(auto, using(crate::proofs::Steps::steps))]
    pub(crate) fn takes_object(&mut self, scope: &Scope<'_>, rows: &Rows<'_>, x: Ident)
        ensures { self.new ≡ step (scope_in scope.now) self.old (at (rows_of rows.now) (TakesObject x)) }
    {
        match self.binding(scope, rows, x.name) {
            Binding::Unbound => self.keep(Phase::Unknown, x),
            Binding::Item(Item::Object(_)) => {}
            _ => self.keep(Phase::Kind, x),
        }
    }

    #[tactic(auto, using(crate::proofs::Steps::steps))]
    pub(crate) fn takes_relation(&mut self, scope: &Scope<'_>, rows: &Rows<'_>, x: Ident)
        ensures { self.new ≡ step (scope_in scope.now) self.old (at (rows_of rows.now) (TakesRelation x)) }
    {
        match self.binding(scope, rows, x.name) {
            Binding::Unbound => self.keep(Phase::Unknown, x),
            Binding::Item(Item::Relation(_)) => {}
            _ => self.keep(Phase::Kind, x),
        }
    }

    #[tactic(auto, using(crate::proofs::Steps::steps))]
    pub(crate) fn takes_field(
        &mut self,
        scope: &Scope<'_>,
        rows: &Rows<'_>,
        row: Ident,
        field: Ident,
    )
        ensures { self.new ≡ step (scope_in scope.now) self.old (at (rows_of rows.now) (TakesField row field)) }
    {
        match self.binding(scope, rows, row.name) {
            Binding::Unbound => self.keep(Phase::Unknown, row),
            Binding::Row(relation) => {
                self.best = check_field(scope, scope.item(relation), field, self.best);
            }
            _ => self.keep(Phase::Kind, row),
        }
    }

    #[tactic(auto, using(crate::proofs::Steps::steps))]
    pub(crate) fn names_field(
        &mut self,
        scope: &Scope<'_>,
        rows: &Rows<'_>,
        relation: Ident,
        field: Ident,
    )
        ensures { self.new ≡ step (scope_in scope.now) self.old (at (rows_of rows.now) (NamesField relation field)) }
    {
        self.best = check_field(scope, scope.item(relation.name), field, self.best);
    }

    #[tactic(auto, using(crate::proofs::Steps::steps))]
    pub(crate) fn fills_fields(
        &mut self,
        scope: &Scope<'_>,
        rows: &Rows<'_>,
        relation: Ident,
        fields: &[FieldValue],
    ) -> Result<(), Memory>
        ensures { OnOk result (self.new ≡ step (scope_in scope.now) self.old (at (rows_of rows.now) (FillsFields relation (named_fields fields.now)))) }
    {
        self.best = check_insert(self.alloc, scope, relation, fields, self.best)?;
        Ok(())
    }

    #[tactic(auto, using(crate::proofs::Steps::steps))]
    pub(crate) fn takes_value(&mut self, scope: &Scope<'_>, rows: &Rows<'_>, x: Ident)
        ensures { self.new ≡ step (scope_in scope.now) self.old (at (rows_of rows.now) (TakesValue x)) }
    {
        match self.binding(scope, rows, x.name) {
            Binding::Unbound => self.keep(Phase::Unknown, x),
            Binding::Parameter | Binding::Temporary => {}
            _ => self.keep(Phase::Kind, x),
        }
    }

    #[tactic(auto, using(crate::proofs::Steps::steps))]
    pub(crate) fn assigns(&mut self, scope: &Scope<'_>, rows: &Rows<'_>, t: Ident)
        ensures { self.new ≡ step (scope_in scope.now) self.old (at (rows_of rows.now) (Assigns t)) }
    {
        match self.binding(scope, rows, t.name) {
            Binding::Unbound => {
                if let Some(local) = self.locals.get_mut(t.name as usize) {
                    *local = Local::Temporary;
                }
            }
            Binding::Temporary => {}
            _ => self.keep(Phase::Kind, t),
        }
    }
}
