//! Clients and their calls.

ghost use Rattle.std.specs.Prelude.{option_map};
ghost use Rattle.homeo_syntax.specs.SourceView.{plain_call, plain_client};
ghost use Rattle.homeo_reader.specs.inner.Reading.{Gives, same};
ghost use Rattle.homeo_reader.specs.inner.Declarations.{call_views, client_views, first_argument_read, next_argument_read, other_arguments_read, arguments_read, invocation_read, first_invocation_read, next_invocation_read, other_invocations_read, invocations_read, calls_read, client_rest, next_client_read, clients_read};

use crate::parser::{Fault, Parser, list_of};
use homeo_syntax::{Call, Client, Kind, List, Mark, Number};
use std::alloc::Global;

impl<'a> Parser<'a> {
    /// An argument, if one comes next.
    #[tactic(auto, using(crate::proofs::DeclarationSteps::first_argument_reads), unfolding(crate::specs::inner::Declarations::first_argument_do, crate::specs::inner::Declarations::first_argument_by))]
    fn first_argument(&mut self) -> Result<Option<Number>, Fault>
        ensures { Gives same result self.new.rest.now (first_argument_read self.old.rest.now) }
    {
        match self.rest.split_first() {
            Some((t, _)) => match t.kind {
                Kind::Fixed(Mark::Minus) => {
                    let argument = self.signed()?;
                    Ok(Some(argument))
                }
                Kind::Number(value) if value >= 0 => {
                    let argument = self.signed()?;
                    Ok(Some(argument))
                }
                _ => Ok(None),
            },
            None => Ok(None),
        }
    }

    /// An argument after a comma, if one comes next.
    #[tactic(auto, using(crate::proofs::DeclarationSteps::next_argument_reads), unfolding(crate::specs::inner::Declarations::next_argument_do))]
    fn next_argument(&mut self) -> Result<Option<Number>, Fault>
        ensures { Gives same result self.new.rest.now (next_argument_read self.old.rest.now) }
    {
        if self.takes(Mark::Comma) {
            let argument = self.signed()?;
            Ok(Some(argument))
        } else {
            Ok(None)
        }
    }

    /// The arguments that go on with a list.
    fn other_arguments(&mut self, alloc: Global) -> Result<Vec<Number>, Fault>
        ensures { Gives (λ v. v.items) result self.new.rest.now (other_arguments_read self.old.rest.now) }
    {
        let mut items = Vec::new(alloc);
        'more: while let Some(item) = self.next_argument()? {
            items.push(item)?;
        }
        Ok(items)
    }

    /// The arguments of a call, which may be none.
    #[tactic(auto, using(crate::proofs::DeclarationSteps::arguments_reads), unfolding(crate::specs::inner::Declarations::arguments_do, crate::specs::inner::Declarations::after_first))]
    fn arguments(&mut self, alloc: Global) -> Result<List<Number>, Fault>
        ensures { Gives (λ l. l.items) result self.new.rest.now (arguments_read self.old.rest.now) }
    {
        match self.first_argument()? {
            Some(first) => {
                let others = self.other_arguments(alloc)?;
                list_of(first, others)
            }
            None => Ok(List::new(alloc)),
        }
    }

    /// Takes a call.
    #[tactic(auto, using(crate::proofs::DeclarationSteps::invocation_reads, homeo_syntax::proofs::SourceViews::workload_views), unfolding(crate::specs::inner::Declarations::invocation_do))]
    fn invocation(&mut self, alloc: Global) -> Result<Call, Fault>
        ensures { Gives plain_call result self.new.rest.now (invocation_read self.old.rest.now) }
    {
        let name = self.name()?;
        self.expect(Mark::Open)?;
        let args = self.arguments(alloc)?;
        self.expect(Mark::Close)?;
        Ok(Call { name, args })
    }

    /// A call, if one comes next.
    #[tactic(auto, using(crate::proofs::DeclarationSteps::first_invocation_reads), unfolding(crate::specs::inner::Declarations::first_invocation_do, crate::specs::inner::Declarations::first_invocation_by))]
    fn first_invocation(&mut self, alloc: Global) -> Result<Option<Call>, Fault>
        ensures { Gives (option_map plain_call) result self.new.rest.now (first_invocation_read self.old.rest.now) }
    {
        match self.rest.split_first() {
            Some((t, _)) => match t.kind {
                Kind::Name(_) => {
                    let call = self.invocation(alloc)?;
                    Ok(Some(call))
                }
                _ => Ok(None),
            },
            None => Ok(None),
        }
    }

    /// A call after a semicolon, if one comes next.
    #[tactic(auto, using(crate::proofs::DeclarationSteps::next_invocation_reads), unfolding(crate::specs::inner::Declarations::next_invocation_do))]
    fn next_invocation(&mut self, alloc: Global) -> Result<Option<Call>, Fault>
        ensures { Gives (option_map plain_call) result self.new.rest.now (next_invocation_read self.old.rest.now) }
    {
        if self.takes(Mark::Semicolon) {
            let call = self.invocation(alloc)?;
            Ok(Some(call))
        } else {
            Ok(None)
        }
    }

    /// The calls that go on with a list.
    fn other_invocations(&mut self, alloc: Global) -> Result<Vec<Call>, Fault>
        ensures { Gives (λ v. call_views v.items) result self.new.rest.now (other_invocations_read self.old.rest.now) }
    {
        let mut items = Vec::new(alloc);
        'more: while let Some(item) = self.next_invocation(alloc)? {
            items.push(item)?;
        }
        Ok(items)
    }

    /// A list of calls, which may be empty.
    #[tactic(auto, using(crate::proofs::DeclarationSteps::invocations_reads), unfolding(crate::specs::inner::Declarations::invocations_do, crate::specs::inner::Declarations::after_first))]
    fn invocations(&mut self, alloc: Global) -> Result<List<Call>, Fault>
        ensures { Gives (λ l. call_views l.items) result self.new.rest.now (invocations_read self.old.rest.now) }
    {
        match self.first_invocation(alloc)? {
            Some(first) => {
                let others = self.other_invocations(alloc)?;
                list_of(first, others)
            }
            None => Ok(List::new(alloc)),
        }
    }

    /// The calls of a client.
    #[tactic(auto, using(crate::proofs::DeclarationSteps::calls_reads), unfolding(crate::specs::inner::Declarations::calls_do))]
    fn calls(&mut self, alloc: Global) -> Result<List<Call>, Fault>
        ensures { Gives (λ l. call_views l.items) result self.new.rest.now (calls_read self.old.rest.now) }
    {
        self.expect(Mark::OpenBrace)?;
        let calls = self.invocations(alloc)?;
        self.expect(Mark::CloseBrace)?;
        Ok(calls)
    }

    /// What follows `client`.
    #[tactic(auto, using(homeo_syntax::proofs::SourceViews::workload_views), unfolding(crate::specs::inner::Declarations::client_rest))]
    fn client_after_word(&mut self, alloc: Global) -> Result<Client, Fault>
        ensures { Gives plain_client result self.new.rest.now (client_rest self.old.rest.now) }
    {
        let name = self.name()?;
        self.expect(Mark::At)?;
        let site = self.number()?;
        let calls = self.calls(alloc)?;
        Ok(Client { name, site, calls })
    }

    /// A client, if one comes next.
    #[tactic(auto, using(crate::proofs::DeclarationSteps::next_client_reads), unfolding(crate::specs::inner::Declarations::next_client_do))]
    fn next_client(&mut self, alloc: Global) -> Result<Option<Client>, Fault>
        ensures { Gives (option_map plain_client) result self.new.rest.now (next_client_read self.old.rest.now) }
    {
        if self.takes(Mark::Client) {
            let client = self.client_after_word(alloc)?;
            Ok(Some(client))
        } else {
            Ok(None)
        }
    }

    /// The clients, as many as come.
    pub(crate) fn clients(&mut self, alloc: Global) -> Result<List<Client>, Fault>
        ensures { Gives (λ l. client_views l.items) result self.new.rest.now (clients_read self.old.rest.now) }
    {
        let mut items = List::new(alloc);
        'more: while let Some(item) = self.next_client(alloc)? {
            items.push(item)?;
        }
        Ok(items)
    }
}
