//! Commands that set temporaries, fields and slots.

ghost use Rattle.std.specs.Prelude.{◌<◌, option_map};
ghost use Rattle.homeo_syntax.specs.SourceView.{plain_field, plain_command};
ghost use Rattle.homeo_reader.specs.inner.Reading.{Gives};
ghost use Rattle.homeo_reader.specs.inner.Commands.{field_views, setting_read, field_setting_rest, row_setting_rest, field_value_read, next_field_value_read, other_field_values_read, field_values_read, insert_read, delete_read, update_read};

use crate::conditions::Visit;
use crate::parser::{Fault, Parser, list_of};
use homeo_syntax::{Command, FieldValue, Ident, Kind, List, Mark};
use std::alloc::Global;

impl<'a> Parser<'a> {
    /// The command that sets what begins with this name.
    #[tactic(auto, using(crate::proofs::CommandSteps::setting_reads, homeo_syntax::proofs::SourceViews::command_views), unfolding(crate::specs::inner::Commands::setting_do, crate::specs::inner::Commands::setting_by))]
    pub(crate) fn setting(
        &mut self,
        alloc: Global,
        name: Ident,
        room: u32,
    ) -> Result<Command, Fault>
        requires { 0 < room }
        ensures { Gives plain_command result self.new.rest.now (setting_read room name self.old.rest.now) }
    {
        match self.rest.split_first() {
            Some((t, rest)) => match t.kind {
                Kind::Fixed(Mark::Assign) => {
                    self.rest = rest;
                    let value = self.expr(alloc, room)?;
                    Ok(Command::Assign {
                        target: name,
                        value,
                    })
                }
                Kind::Fixed(Mark::OpenBracket) => {
                    self.rest = rest;
                    self.field_setting_after_bracket(alloc, name, room)
                }
                Kind::Fixed(Mark::Dot) => {
                    self.rest = rest;
                    self.row_setting_after_dot(alloc, name, room)
                }
                _ => Err(Fault::Stuck),
            },
            None => Err(Fault::Stuck),
        }
    }

    /// What follows a relation that is set and `[`.
    #[tactic(auto, using(homeo_syntax::proofs::SourceViews::command_views), unfolding(crate::specs::inner::Commands::field_setting_rest))]
    fn field_setting_after_bracket(
        &mut self,
        alloc: Global,
        relation: Ident,
        room: u32,
    ) -> Result<Command, Fault>
        requires { 0 < room }
        ensures { Gives plain_command result self.new.rest.now (field_setting_rest room relation self.old.rest.now) }
    {
        let index = self.expr(alloc, room)?;
        self.expect(Mark::CloseBracket)?;
        self.expect(Mark::Dot)?;
        let field = self.name()?;
        self.expect(Mark::Assign)?;
        let value = self.expr(alloc, room)?;
        let index = Box::new(alloc, index)?;
        let value = Box::new(alloc, value)?;
        Ok(Command::SetField {
            relation,
            index,
            field,
            value,
        })
    }

    /// What follows a row that is set and `.`.
    #[tactic(auto, using(homeo_syntax::proofs::SourceViews::command_views), unfolding(crate::specs::inner::Commands::row_setting_rest))]
    fn row_setting_after_dot(
        &mut self,
        alloc: Global,
        row: Ident,
        room: u32,
    ) -> Result<Command, Fault>
        requires { 0 < room }
        ensures { Gives plain_command result self.new.rest.now (row_setting_rest room row self.old.rest.now) }
    {
        let field = self.name()?;
        self.expect(Mark::Assign)?;
        let value = self.expr(alloc, room)?;
        let value = Box::new(alloc, value)?;
        Ok(Command::SetRow { row, field, value })
    }

    /// A field with its value.
    #[tactic(auto, using(crate::proofs::CommandSteps::field_value_reads, homeo_syntax::proofs::SourceViews::command_views), unfolding(crate::specs::inner::Commands::field_value_do))]
    fn field_value(&mut self, alloc: Global, room: u32) -> Result<FieldValue, Fault>
        requires { 0 < room }
        ensures { Gives plain_field result self.new.rest.now (field_value_read room self.old.rest.now) }
    {
        let field = self.name()?;
        self.expect(Mark::Equal)?;
        let value = self.expr(alloc, room)?;
        Ok(FieldValue { field, value })
    }

    /// A field after a comma, if one comes next.
    #[tactic(auto, using(crate::proofs::CommandSteps::next_field_value_reads), unfolding(crate::specs::inner::Commands::next_field_value_do))]
    fn next_field_value(&mut self, alloc: Global, room: u32) -> Result<Option<FieldValue>, Fault>
        requires { 0 < room }
        ensures { Gives (option_map plain_field) result self.new.rest.now (next_field_value_read room self.old.rest.now) }
    {
        if self.takes(Mark::Comma) {
            let field = self.field_value(alloc, room)?;
            Ok(Some(field))
        } else {
            Ok(None)
        }
    }

    /// The fields that go on with a list.
    fn other_field_values(&mut self, alloc: Global, room: u32) -> Result<Vec<FieldValue>, Fault>
        requires { 0 < room }
        ensures { Gives (λ v. field_views v.items) result self.new.rest.now (other_field_values_read room self.old.rest.now) }
    {
        let mut items = Vec::new(alloc);
        'more: while let Some(item) = self.next_field_value(alloc, room)? {
            items.push(item)?;
        }
        Ok(items)
    }

    /// The fields of a slot with their values.
    #[tactic(auto, using(crate::proofs::CommandSteps::field_values_reads), unfolding(crate::specs::inner::Commands::field_values_do))]
    fn field_values(&mut self, alloc: Global, room: u32) -> Result<List<FieldValue>, Fault>
        requires { 0 < room }
        ensures { Gives (λ l. field_views l.items) result self.new.rest.now (field_values_read room self.old.rest.now) }
    {
        let first = self.field_value(alloc, room)?;
        let others = self.other_field_values(alloc, room)?;
        list_of(first, others)
    }

    /// What follows `insert`.
    #[tactic(auto, using(homeo_syntax::proofs::SourceViews::command_views), unfolding(crate::specs::inner::Commands::insert_read))]
    pub(crate) fn insert_after_word(&mut self, alloc: Global, room: u32) -> Result<Command, Fault>
        requires { 0 < room }
        ensures { Gives plain_command result self.new.rest.now (insert_read room self.old.rest.now) }
    {
        let relation = self.name()?;
        self.expect(Mark::Open)?;
        let fields = self.field_values(alloc, room)?;
        self.expect(Mark::Close)?;
        self.expect(Mark::Into)?;
        let into = self.name()?;
        Ok(Command::Insert {
            relation,
            fields,
            into,
        })
    }

    /// What follows `delete`.
    #[tactic(auto, using(homeo_syntax::proofs::SourceViews::command_views), unfolding(crate::specs::inner::Commands::delete_read))]
    pub(crate) fn delete_after_word(&mut self, alloc: Global, room: u32) -> Result<Command, Fault>
        requires { 0 < room }
        ensures { Gives plain_command result self.new.rest.now (delete_read room self.old.rest.now) }
    {
        let Visit {
            name,
            relation,
            test,
        } = self.visit(alloc, room)?;
        Ok(Command::Delete {
            row: name,
            relation,
            test,
        })
    }

    /// What follows `update`.
    #[tactic(auto, using(crate::proofs::CommandSteps::field_of_view, crate::proofs::CommandSteps::value_of_view, homeo_syntax::proofs::SourceViews::command_views), unfolding(crate::specs::inner::Commands::update_read))]
    pub(crate) fn update_after_word(&mut self, alloc: Global, room: u32) -> Result<Command, Fault>
        requires { 0 < room }
        ensures { Gives plain_command result self.new.rest.now (update_read room self.old.rest.now) }
    {
        let Visit {
            name,
            relation,
            test,
        } = self.visit(alloc, room)?;
        self.expect(Mark::Set)?;
        let FieldValue { field, value } = self.field_value(alloc, room)?;
        let test = Box::new(alloc, test)?;
        let value = Box::new(alloc, value)?;
        Ok(Command::Update {
            row: name,
            relation,
            test,
            field,
            value,
        })
    }
}
