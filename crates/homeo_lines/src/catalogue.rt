//! What all lines about a workload share: its names.
#![tactic(auto, using(crate::proofs::Firsts::first_steps), unfolding(homeo_syntax::specs::Key::definitions, homeo_print::specs::Key::definitions))]

ghost use Rattle.std.specs.Prelude.{◌≡◌, ◌<◌, length, map, slice_get, option_map, IfOk, IsTrue};
ghost use Rattle.std.specs.Option.{option_copied};
ghost use Rattle.homeo_syntax.specs.SourceView.{plain_client, plain_call, plain_workload};
ghost use Rattle.homeo_plan.specs.Planned.{sites_of};
ghost use Rattle.homeo_print.specs.Names.{name_text, object_names, name_at};
ghost use Rattle.homeo_lines.specs.Named.{client_name, client_called, call_at, first_from, is_of, has_args, listed, listed_of};
ghost use Rattle.homeo_lines.specs.Written.{key_of};

use homeo_build::Compiled;
use homeo_core::clients::{client_count, site_count};
use homeo_meaning::{Accepted, CallId};
use homeo_print::ObjectNames;
use homeo_syntax::{Call, Client, Ident, Memory, Number};
use std::alloc::Global;
use std::marker::Model;
use std::sync::Arc;

/// A compiled workload with the names of its objects, which contracts see as the workload.
#[derive(Drop)]
pub struct Catalogue {
    compiled: Arc<Compiled>,
    objects: ObjectNames,
}

impl Model for Catalogue {
    ghost use Rattle.std.specs.Prelude.{◌≡◌};
    ghost use Rattle.std.specs.Coded.{codes};
    ghost use Rattle.homeo_syntax.specs.SourceView.{plain_workload};
    ghost use Rattle.homeo_syntax.specs.declared.workload.Workload.{Workload};
    ghost use Rattle.homeo_syntax.specs.contracts.workload.Workload.{the_row};
    ghost use Rattle.homeo_print.specs.Names.{object_names};

    ghost Value = { Workload };

    ghost coded = { Prim.hlevel (codes, the_row.coded) };

    ghost view = { λ c. c.compiled.value };

    ghost invariant = { λ c. c.objects ≡ object_names (plain_workload c.compiled.value) };
}

impl Catalogue {
    /// The catalogue of a workload.
    ///
    /// # Errors
    ///
    /// `Memory` when out of memory.
    pub fn of(alloc: Global, compiled: Arc<Compiled>) -> Result<Catalogue, Memory>
        ensures { IfOk result (λ c. c ≡ compiled.value) }
    {
        let objects = ObjectNames::of(alloc, compiled.workload().workload())?;
        Ok(Catalogue { compiled, objects })
    }

    /// The compiled workload, which is shared.
    ///
    /// # Errors
    ///
    /// `Memory` when it is shared too often.
    pub fn compiled(&self) -> Result<Arc<Compiled>, Memory>
        ensures { IfOk result (λ c. c.value ≡ self.now) }
    {
        Ok(Arc::try_clone(&self.compiled)?)
    }

    fn workload(&self) -> &Accepted
        ensures { plain_workload result.now ≡ plain_workload self.now }
    {
        self.compiled.workload()
    }

    /// How many sites there are, from 1 to 16.
    pub fn sites(&self) -> u32
        ensures { result ≡ sites_of (plain_workload self.now) }
    {
        site_count(self.workload())
    }

    /// How many objects there are.
    pub fn objects(&self) -> usize
        ensures { result ≡ length (object_names (plain_workload self.now)) }
    {
        self.objects.len()
    }

    /// The name of an object, which is empty where it is no text.
    pub(crate) fn object(&self, object: usize) -> &str
        ensures { result.now ≡ key_of (name_at (object_names (plain_workload self.now)) object) }
    {
        match std::str::from_utf8(self.objects.get(object)) {
            Ok(text) => text,
            Err(_) => "",
        }
    }

    /// The clients, in the order of their numbers.
    fn clients(&self) -> &[Client]
        ensures { map plain_client result.now ≡ (plain_workload self.now).clients }
    {
        self.workload().workload().clients.as_slice()
    }

    /// The text of a name, which is empty where there is no such name.
    fn name(&self, name: Ident) -> &str
        ensures { result.now ≡ name_text (plain_workload self.now) name }
    {
        match self
            .workload()
            .workload()
            .names
            .as_slice()
            .get(name.name as usize)
        {
            Some(text) => text.as_str(),
            None => "",
        }
    }

    fn client(&self, client: u32) -> Option<&Client>
        ensures { option_map (λ c. plain_client c.now) result ≡ slice_get (plain_workload self.now).clients client }
    {
        self.clients().get(client as usize)
    }

    /// The name of a client, which is empty where there is none.
    pub(crate) fn client_name(&self, client: u32) -> &str
        ensures { result.now ≡ client_name (plain_workload self.now) client }
    {
        match self.client(client) {
            Some(client) => self.name(client.name),
            None => "",
        }
    }

    /// The number of the first client that has this name.
    pub(crate) fn client_of(&self, name: &str) -> Option<u32>
        ensures { result ≡ client_called (plain_workload self.now) name.now }
    {
        // there are few clients
        let _count = client_count(self.workload());
        for (number, client) in self.clients().iter().enumerate() {
            if self.name(client.name) == name {
                return Some(number as u32);
            }
        }
        None
    }

    /// The call of a client by its place in the client's list, from 1, where the client is at this site.
    pub(crate) fn call_at(&self, site: u32, client: u32, seq: u64) -> Option<CallId>
        ensures { result ≡ call_at (plain_workload self.now) site client seq }
    {
        let listed = self.client(client)?;
        let calls = listed.calls.as_slice().len() as u64;
        if listed.site.value == i64::from(site) && 0 < seq && seq <= calls {
            Some(CallId { client, seq })
        } else {
            None
        }
    }

    /// The first call in the list of the client of this name that is of this transaction with these arguments.
    pub(crate) fn listed_of(&self, name: &str, transaction: &str, args: &[i64]) -> Option<CallId>
        ensures { result ≡ listed_of (plain_workload self.now) name.now transaction.now args.now }
    {
        self.listed(self.client_of(name)?, transaction, args)
    }

    /// The first call in a client's list that is of this transaction with these arguments.
    fn listed(&self, client: u32, transaction: &str, args: &[i64]) -> Option<CallId>
        ensures { result ≡ listed (plain_workload self.now) client transaction.now args.now }
    {
        let calls = self.client(client)?.calls.as_slice();
        let place = self.place_of(calls, transaction, args)?;
        Some(CallId { client, seq: place })
    }

    /// The place, from 1, of the first of the calls that is of this transaction with these arguments.
    fn place_of(&self, calls: &[Call], transaction: &str, args: &[i64]) -> Option<u64>
        ensures { result ≡ first_from (is_of (plain_workload self.now) transaction.now args.now) 1 (map plain_call calls.now) }
    {
        for (place, call) in calls.iter().enumerate() {
            if has_args(call.args.as_slice(), args) && self.name(call.name) == transaction {
                return Some(1 + place as u64);
            }
        }
        None
    }
}

/// Whether these are the arguments.
fn has_args(own: &[Number], args: &[i64]) -> bool
    ensures { result ≡ has_args own.now args.now }
{
    if own.len() != args.len() {
        return false;
    }
    for i in 0..own.len() {
        if own[i].value != args[i] {
            return false;
        }
    }
    true
}
