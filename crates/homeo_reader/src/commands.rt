//! Commands and blocks.

ghost use Rattle.std.specs.Prelude.{◌<◌, [], ◌∷◌, option_map};
ghost use Rattle.homeo_syntax.specs.SourceView.{plain_command};
ghost use Rattle.homeo_reader.specs.inner.Reading.{Gives, with_front};
ghost use Rattle.homeo_reader.specs.inner.Commands.{command_views, block_view, abort_read, command_read, if_read, foreach_read, next_command_read, commands_read, block_read};

use crate::conditions::Visit;
use crate::parser::{Fault, Parser, append};
use homeo_syntax::{Command, Kind, List, Mark, Version};
use std::alloc::Global;

impl<'a> Parser<'a> {
    /// Takes `abort`, which begins no command of version 1.
    #[tactic(auto, using(homeo_syntax::proofs::SourceViews::command_views), unfolding(crate::specs::inner::Commands::abort_read))]
    fn abort(&mut self, version: Version) -> Result<Command, Fault>
        ensures { Gives plain_command result self.new.rest.now (abort_read version self.old.rest.now) }
    {
        match version {
            Version::First => Err(Fault::Stuck),
            Version::Second => {
                self.expect(Mark::Abort)?;
                Ok(Command::Abort)
            }
        }
    }

    /// Takes a command. Neither it nor what is in it goes deeper than the room.
    #[cycle(command)]
    #[tactic(auto, using(crate::proofs::CommandSteps::command_reads, homeo_syntax::proofs::SourceViews::command_views), unfolding(crate::specs::inner::Commands::command_do, crate::specs::inner::Commands::command_by))]
    fn command(&mut self, alloc: Global, version: Version, room: u32) -> Result<Command, Fault>
        requires { 0 < room }
        ensures { Gives plain_command result self.new.rest.now (command_read version room self.old.rest.now) }
    {
        let Some((t, rest)) = self.rest.split_first() else {
            return Err(Fault::Stuck);
        };
        match t.kind {
            Kind::Fixed(Mark::Skip) => {
                self.rest = rest;
                Ok(Command::Skip)
            }
            Kind::Fixed(Mark::Abort) => self.abort(version),
            Kind::Fixed(Mark::OpenBrace) => {
                let commands = self.block(alloc, version, room - 1)?;
                Ok(Command::Block { commands })
            }
            Kind::Name(_) if room > 1 => {
                let name = self.name()?;
                self.setting(alloc, name, room - 1)
            }
            Kind::Fixed(Mark::Write) if room > 1 => {
                self.rest = rest;
                self.expect(Mark::Open)?;
                let object = self.name()?;
                self.expect(Mark::Equal)?;
                let value = self.expr(alloc, room - 1)?;
                self.expect(Mark::Close)?;
                Ok(Command::Write { object, value })
            }
            Kind::Fixed(Mark::Print) if room > 1 => {
                self.rest = rest;
                self.expect(Mark::Open)?;
                let value = self.expr(alloc, room - 1)?;
                self.expect(Mark::Close)?;
                Ok(Command::Print { value })
            }
            Kind::Fixed(Mark::If) if room > 1 => {
                self.rest = rest;
                self.choice_after_if(alloc, version, room - 1)
            }
            Kind::Fixed(Mark::Foreach) if room > 1 => {
                self.rest = rest;
                self.body_after_foreach(alloc, version, room - 1)
            }
            Kind::Fixed(Mark::Insert) if room > 1 => {
                self.rest = rest;
                self.insert_after_word(alloc, room - 1)
            }
            Kind::Fixed(Mark::Delete) if room > 1 => {
                self.rest = rest;
                self.delete_after_word(alloc, room - 1)
            }
            Kind::Fixed(Mark::Update) if room > 1 => {
                self.rest = rest;
                self.update_after_word(alloc, room - 1)
            }
            _ => Err(Fault::Stuck),
        }
    }

    /// Takes a command, in a box: where what comes behind it is at fault, that is dropped in one step.
    #[cycle(command)]
    fn boxed_command(
        &mut self,
        alloc: Global,
        version: Version,
        room: u32,
    ) -> Result<Box<Command>, Fault>
        requires { 0 < room }
        ensures { Gives (λ b. plain_command b.value) result self.new.rest.now (command_read version room self.old.rest.now) }
    {
        let command = self.command(alloc, version, room)?;
        Ok(Box::new(alloc, command)?)
    }

    /// What follows `if`.
    #[cycle(command)]
    #[tactic(auto, using(homeo_syntax::proofs::SourceViews::command_views), unfolding(crate::specs::inner::Commands::if_read))]
    fn choice_after_if(
        &mut self,
        alloc: Global,
        version: Version,
        room: u32,
    ) -> Result<Command, Fault>
        requires { 0 < room }
        ensures { Gives plain_command result self.new.rest.now (if_read version room self.old.rest.now) }
    {
        let test = self.cond(alloc, room)?;
        self.expect(Mark::Then)?;
        let yes = self.boxed_command(alloc, version, room)?;
        self.expect(Mark::Else)?;
        let no = self.boxed_command(alloc, version, room)?;
        Ok(Command::If { test, yes, no })
    }

    /// What follows `foreach`.
    #[cycle(command)]
    #[tactic(auto, using(homeo_syntax::proofs::SourceViews::command_views), unfolding(crate::specs::inner::Commands::foreach_read))]
    fn body_after_foreach(
        &mut self,
        alloc: Global,
        version: Version,
        room: u32,
    ) -> Result<Command, Fault>
        requires { 0 < room }
        ensures { Gives plain_command result self.new.rest.now (foreach_read version room self.old.rest.now) }
    {
        let Visit {
            name,
            relation,
            test,
        } = self.visit(alloc, room)?;
        let body = self.block(alloc, version, room)?;
        let test = Box::new(alloc, test)?;
        Ok(Command::Foreach {
            row: name,
            relation,
            test,
            body,
        })
    }

    /// A command after a semicolon, if one comes next.
    #[cycle(command)]
    #[tactic(auto, using(crate::proofs::CommandSteps::next_command_reads), unfolding(crate::specs::inner::Commands::next_command_do))]
    fn next_command(
        &mut self,
        alloc: Global,
        version: Version,
        room: u32,
    ) -> Result<Option<Command>, Fault>
        requires { 0 < room }
        ensures { Gives (option_map plain_command) result self.new.rest.now (next_command_read version room self.old.rest.now) }
    {
        if self.takes(Mark::Semicolon) {
            let command = self.command(alloc, version, room)?;
            Ok(Some(command))
        } else {
            Ok(None)
        }
    }

    /// A command, and those that go on with its list.
    #[cycle(command)]
    fn commands(
        &mut self,
        alloc: Global,
        version: Version,
        room: u32,
        first: Command,
    ) -> Result<Vec<Command>, Fault>
        requires { 0 < room }
        ensures { Gives (λ v. command_views v.items) result self.new.rest.now (with_front (plain_command first ∷ []) (commands_read version room self.old.rest.now)) }
    {
        let mut items = Vec::new(alloc);
        append(&mut items, first)?;
        'more: while let Some(item) = self.next_command(alloc, version, room)? {
            items.push(item)?;
        }
        Ok(items)
    }

    /// A block, which is empty where no phrase may go deeper.
    #[cycle(command)]
    #[tactic(auto, using(crate::proofs::CommandSteps::block_reads), unfolding(crate::specs::inner::Commands::block_do, homeo_syntax::specs::Key::definitions))]
    pub(crate) fn block(
        &mut self,
        alloc: Global,
        version: Version,
        room: u32,
    ) -> Result<List<Command>, Fault>
        ensures { Gives block_view result self.new.rest.now (block_read version room self.old.rest.now) }
    {
        self.expect(Mark::OpenBrace)?;
        if self.takes(Mark::CloseBrace) {
            return Ok(List::new(alloc));
        }
        if room == 0 {
            return Err(Fault::Stuck);
        }
        let first = self.command(alloc, version, room)?;
        let mut commands = self.commands(alloc, version, room, first)?;
        self.expect(Mark::CloseBrace)?;
        commands.shrink_to_fit();
        Ok(List::from_vec(commands))
    }
}
