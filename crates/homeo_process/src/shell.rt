//! Lines in, lines out.

ghost use Rattle.std.specs.Prelude.{◌≡◌, ◌<◌, ◌≤◌, ◌^◌, ℕ, List, None, option_map, length, IfOk, IfErr, IfSome, IsSome, OnOk};
ghost use Rattle.homeo_syntax.specs.SourceView.{plain_workload};
ghost use Rattle.homeo_plan.specs.Planned.{sites_of};
ghost use Rattle.homeo_lines.specs.LineView.{plain_state, plain_init, plain_message, plain_line};
ghost use Rattle.homeo_lines.specs.Read.{malformed};
ghost use Rattle.homeo_process.specs.Driven.{before_all};
ghost use Rattle.homeo_process.specs.Taking.{AreNames, BeginsAt, HasDesk, Waits, Does, line_limit};
ghost use Rattle.homeo_process.specs.inner.Shells.{Took};
ghost use Rattle.homeo_process.specs.inner.Voices.{Appends};

use crate::names::place_of;
use crate::serving::serve;
use crate::voice::Voice;
use homeo_build::compile::compile;
use homeo_desk::{Desk, DeskState};
use homeo_lines::{Body, Catalogue, Head, Init, Line, Message, NO_INIT, Wrong, malformed, read};
use homeo_meaning::Accepted;
use homeo_syntax::{Memory, Text};
use std::alloc::Global;
use std::marker::Model;
use std::sync::Arc;

/// The node of a workload, which is not begun until a line says which one it is.
#[derive(Drop)]
pub(crate) struct Shell {
    voice: Voice,
    desk: Option<Desk>,
}

impl Model for Shell {
    ghost use Rattle.std.specs.Coded.{codes};
    ghost use Rattle.homeo_syntax.specs.contracts.workload.Workload as workload;
    ghost use Rattle.homeo_process.specs.Driven.{Driven};

    ghost Value = { Driven };

    ghost coded = { Prim.hlevel (codes, workload.the_row.coded) };

    ghost view = { λ s. record { work = s.voice.work; names = s.voice.names; desk = s.desk } };
}

impl Shell {
    /// The shell of a workload before any line.
    ///
    /// # Errors
    ///
    /// `Memory` when out of memory.
    pub(crate) fn of(alloc: Global, w: Accepted) -> Result<Shell, Memory>
        ensures { IfOk result (λ shell. (shell ≡ before_all shell.work) × (plain_workload shell.work ≡ plain_workload w)) }
    {
        let compiled = Arc::new(alloc, compile(alloc, w)?)?;
        let catalogue = Catalogue::of(alloc, compiled)?;
        Ok(Shell {
            voice: Voice::new(catalogue),
            desk: None,
        })
    }

    /// Takes a line, without its newline, and appends the lines that it gives.
    ///
    /// # Errors
    ///
    /// `Memory` when out of memory. The shell is to be taken no more.
    pub(crate) fn take(
        &mut self,
        alloc: Global,
        bytes: &[u8],
        out: &mut Vec<u8>,
    ) -> Result<(), Memory>
        requires { length bytes.now ≤ line_limit }
        ensures { OnOk result (Took self.old bytes.now self.new out.old.items out.new.items) }
    {
        let line = read(alloc, self.voice.catalogue(), bytes)?;
        self.heed(alloc, line, out)
    }

    /// Says that a line was too long.
    ///
    /// # Errors
    ///
    /// `Memory` when out of memory. Some bytes may have been appended.
    pub(crate) fn refuse_long(&self, alloc: Global, out: &mut Vec<u8>) -> Result<(), Memory>
        ensures { (line : List ℕ) → line_limit < length line → OnOk result (Took self.now line self.now out.old.items out.new.items) }
    {
        let head = Head {
            from: None,
            number: None,
        };
        let wrong = malformed("the line is longer than 16 MiB");
        self.voice.fail(alloc, &head, wrong, out)
    }

    /// Does what a line says.
    fn heed(&mut self, alloc: Global, line: Line, out: &mut Vec<u8>) -> Result<(), Memory>
        ensures { OnOk result (Appends (Does self.old self.old.desk (plain_line line) self.new) out.old.items out.new.items) }
    {
        let Line { head, message } = line;
        match &mut self.desk {
            Some(desk) => serve(alloc, &self.voice, desk, head, message, out),
            None => self.wait(alloc, head, message, out),
        }
    }

    /// Does what a line says before the node has begun.
    fn wait(
        &mut self,
        alloc: Global,
        head: Head,
        message: Message,
        out: &mut Vec<u8>,
    ) -> Result<(), Memory>
        ensures { OnOk result (Appends (Waits self.old (plain_message message) head.from head.number self.new) out.old.items out.new.items) }
    {
        match message {
            Message::Init(init) => self.init(alloc, &head, init, out),
            Message::Wrong(wrong) => self.voice.fail(alloc, &head, wrong, out),
            _ => self.voice.fail(alloc, &head, NO_INIT, out),
        }
    }

    /// Begins the node that a line says that it is.
    fn init(
        &mut self,
        alloc: Global,
        head: &Head,
        init: Init,
        out: &mut Vec<u8>,
    ) -> Result<(), Memory>
        ensures { OnOk result (Appends (Waits self.old (plain_init init) head.now.from head.now.number self.new) out.old.items out.new.items) }
    {
        let Init { node, nodes, state } = init;
        let site = match self.site_in(&node, nodes.as_slice()) {
            Ok(site) => site,
            Err(wrong) => return self.voice.fail(alloc, head, wrong, out),
        };
        let Some(desk) = self.begun(alloc, site, state)? else {
            let wrong = malformed("no node of the text can have this state");
            return self.voice.fail(alloc, head, wrong, out);
        };
        self.desk = Some(desk);
        self.voice.name(nodes, site);
        self.voice
            .reply(alloc, head, &Body::InitOk(head.number), out)
    }

    /// The site of a node among all, where there are as many as sites.
    fn site_in(&self, node: &Text, nodes: &[Text]) -> Result<u32, Wrong>
        ensures site { IfOk result (AreNames (plain_workload self.now.work) node.now nodes.now) }
        ensures there { IfOk result (λ site. site < length nodes.now) }
        ensures few { IfOk result (λ _. length nodes.now < 2 ^ 32) }
        ensures wrong { IfErr result (λ wrong. wrong.code ≡ malformed) }
        ensures none { IfErr result (λ wrong. (site : ℕ) → AreNames (plain_workload self.now.work) node.now nodes.now site → ⊥) }
    {
        if nodes.len() != self.voice.catalogue().sites() as usize {
            return Err(malformed("the node_ids are not as many as the text has sites"));
        }
        match place_of(nodes, node.as_str()) {
            Some(site) => Ok(site),
            None => Err(malformed("the node_id is none of the node_ids")),
        }
    }

    /// The desk of a site, from this state on, where one is given and a desk of the site can have it.
    fn begun(
        &self,
        alloc: Global,
        site: u32,
        state: Option<DeskState>,
    ) -> Result<Option<Desk>, Memory>
        requires { site < sites_of (plain_workload self.now.work) }
        ensures begins { IfOk result (λ o. IfSome o (BeginsAt self.now.work site (option_map plain_state state))) }
        ensures has { HasDesk (plain_workload self.now.work) site (option_map plain_state state) → IfOk result IsSome }
    {
        let compiled = self.voice.catalogue().compiled()?;
        match state {
            None => Ok(Some(Desk::begin(alloc, compiled, site)?)),
            Some(state) => {
                if state.node.site != site {
                    return Ok(None);
                }
                Desk::begin_at(alloc, compiled, state)
            }
        }
    }
}
