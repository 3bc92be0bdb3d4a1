//! The lines that a node gives.

ghost use Rattle.std.specs.Prelude.{◌≡◌, ◌<◌, ◌^◌, ◌++◌, None, Some, length, option_map, OnOk};
ghost use Rattle.std.specs.List.{flat_map};
ghost use Rattle.homeo_live.specs.LiveView.{plain_packet};
ghost use Rattle.homeo_lines.specs.LineView.{plain_body};
ghost use Rattle.homeo_process.specs.Driven.{id_of, own_id, other_ids, sender, line_to, code_of, text_of, packet_to, lines_in, lines_of};
ghost use Rattle.homeo_process.specs.Taking.{Complains};
ghost use Rattle.homeo_process.specs.inner.Voices.{Appends};

use crate::names::Names;
use homeo_desk::{Output, To, Why};
use homeo_lines::{Body, Catalogue, FULL, Head, LATE, Wrong, write_line};
use homeo_live::Packet;
use homeo_syntax::{List, Memory, Text};
use std::alloc::Global;
use std::marker::Model;

/// What is needed for the lines that a node gives: the names of its workload, and once it has been told, the ids of all nodes and
/// which one it is.
#[derive(Drop)]
pub(crate) struct Voice {
    catalogue: Catalogue,
    names: Option<Names>,
}

impl Model for Voice {
    ghost use Rattle.std.specs.Coded.{codes};
    ghost use Rattle.homeo_syntax.specs.contracts.workload.Workload as workload;
    ghost use Rattle.homeo_process.specs.Driven as driven;

    ghost Value = { driven.Voice };

    ghost coded = { Prim.hlevel (codes, workload.the_row.coded) };

    ghost view = { λ v. record { work = v.catalogue; names = v.names } };
}

impl Voice {
    /// Before the node was told which one it is.
    pub(crate) fn new(catalogue: Catalogue) -> Voice
        ensures { result ≡ record { work = catalogue; names = None } }
    {
        Voice {
            catalogue,
            names: None,
        }
    }

    /// The names of the workload.
    pub(crate) fn catalogue(&self) -> &Catalogue
        ensures { result.now ≡ self.now.work }
    {
        &self.catalogue
    }

    /// The node is told the ids of all nodes, and which one it is.
    pub(crate) fn name(&mut self, ids: Vec<Text>, own: u32)
        requires there { own < length ids.items }
        requires few { length ids.items < 2 ^ 32 }
        ensures { self.new ≡ record { work = self.old.work; names = Some (record { ids = ids.items; own = own }) } }
    {
        self.names = Some(Names::of(ids, own));
    }

    /// The id of the node of a site.
    fn id(&self, site: u32) -> Option<&str>
        ensures { option_map (λ s. s.now) result ≡ id_of self.now.names site }
    {
        match &self.names {
            Some(names) => names.id(site),
            None => None,
        }
    }

    /// The id of the node.
    fn own(&self) -> Option<&str>
        ensures { option_map (λ s. s.now) result ≡ own_id self.now.names }
    {
        match &self.names {
            Some(names) => names.own(),
            None => None,
        }
    }

    /// The site of the node that sends a line.
    pub(crate) fn site_of(&self, head: &Head) -> Option<u32>
        ensures { result ≡ sender self.now.names head.now.from }
    {
        match (&self.names, &head.from) {
            (Some(names), Some(from)) => names.site(from.as_str()),
            _ => None,
        }
    }

    /// Gives a line.
    fn say(
        &self,
        alloc: Global,
        to: Option<&str>,
        body: &Body<'_>,
        out: &mut Vec<u8>,
    ) -> Result<(), Memory>
        ensures { OnOk result (out.new.items ≡ out.old.items ++ line_to self.now (option_map (λ s. s.now) to.entry) (plain_body body.now)) }
    {
        write_line(alloc, &self.catalogue, self.own(), to, body, out)
    }

    /// Gives a line to whom a line came from.
    pub(crate) fn reply(
        &self,
        alloc: Global,
        head: &Head,
        body: &Body<'_>,
        out: &mut Vec<u8>,
    ) -> Result<(), Memory>
        ensures { OnOk result (out.new.items ≡ out.old.items ++ line_to self.now head.now.from (plain_body body.now)) }
    {
        match &head.from {
            Some(from) => self.say(alloc, Some(from.as_str()), body, out),
            None => self.say(alloc, None, body, out),
        }
    }

    /// Says what is wrong with a line; but to a node only where its line asked for a reply, so that two nodes never answer each
    /// other's errors.
    pub(crate) fn fail(
        &self,
        alloc: Global,
        head: &Head,
        wrong: Wrong,
        out: &mut Vec<u8>,
    ) -> Result<(), Memory>
        ensures { OnOk result (Appends (Complains self.now head.now.from head.now.number wrong.code) out.old.items out.new.items) }
    {
        if head.number.is_none() && self.site_of(head).is_some() {
            return Ok(());
        }
        self.reply(alloc, head, &Body::Error(head.number, wrong), out)
    }

    /// Gives the lines of a desk's outputs.
    pub(crate) fn tell_all(
        &self,
        alloc: Global,
        outputs: List<Output>,
        out: &mut Vec<u8>,
    ) -> Result<(), Memory>
        ensures { OnOk result (out.new.items ≡ out.old.items ++ lines_of self.now outputs.items) }
    {
        for output in outputs.into_vec() {
            self.tell(alloc, output, out)?;
        }
        Ok(())
    }

    fn tell(&self, alloc: Global, output: Output, out: &mut Vec<u8>) -> Result<(), Memory>
        ensures { OnOk result (out.new.items ≡ out.old.items ++ lines_in self.now output) }
    {
        match output {
            Output::Packet(To::Site(site), packet) => {
                self.say(alloc, self.id(site), &Body::Packet(&packet), out)
            }
            Output::Packet(To::Others, packet) => self.tell_others(alloc, &packet, out),
            Output::Left(site, past) => self.say(alloc, self.id(site), &Body::Left(&past), out),
            Output::Answer(caller, answer) | Output::Again(caller, answer) => {
                self.say(alloc, Some(caller.as_str()), &Body::CallOk(&answer), out)
            }
            Output::Refusal(caller, number, why) => {
                let body = Body::Error(Some(number), wrong_of(why));
                self.say(alloc, Some(caller.as_str()), &body, out)
            }
        }
    }

    /// Gives a packet to all nodes but its own.
    fn tell_others(&self, alloc: Global, packet: &Packet, out: &mut Vec<u8>) -> Result<(), Memory>
        ensures { OnOk result (out.new.items ≡ out.old.items ++ flat_map (packet_to self.now (plain_packet packet.now)) (other_ids self.now.names)) }
    {
        let Some(names) = &self.names else {
            return Ok(());
        };
        self.tell_each(alloc, names.lower(), packet, out)?;
        self.tell_each(alloc, names.higher(), packet, out)
    }

    /// Gives a packet to these nodes.
    fn tell_each(
        &self,
        alloc: Global,
        ids: &[Text],
        packet: &Packet,
        out: &mut Vec<u8>,
    ) -> Result<(), Memory>
        ensures { OnOk result (out.new.items ≡ out.old.items ++ flat_map (packet_to self.now (plain_packet packet.now)) ids.now) }
    {
        for id in ids {
            self.say(alloc, Some(id.as_str()), &Body::Packet(packet), out)?;
        }
        Ok(())
    }
}

/// What is wrong with a request that is refused.
fn wrong_of(why: Why) -> Wrong
    ensures code { result.code ≡ code_of why }
    ensures text { result.text.now ≡ text_of why }
{
    match why {
        Why::Full => FULL,
        Why::Late => LATE,
    }
}
