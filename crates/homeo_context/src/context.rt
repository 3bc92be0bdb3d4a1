//! What stands fixed while a phrase is run.

ghost use Rattle.std.specs.Prelude.{◌≡◌, map};
ghost use Rattle.homeo_meaning.specs.Schema.{declared_range};
ghost use Rattle.homeo_meaning.specs.Context.{object, slots, fields};
ghost use Rattle.homeo_meaning.specs.Meaning.{argument_or};
ghost use Rattle.homeo_context.specs.Slots.{plain_slot, plain_spot, slots_of, IsCounted, IsNumbered};
ghost use Rattle.homeo_context.specs.Contexts.{rows_of, plain_context};

use crate::arguments::{Argument, argument_or};
use crate::declarations::Declarations;
use crate::slots::{Slot, Slots};
use crate::spot::Spot;
use std::alloc::Global;

/// The rows in force, the innermost first.
#[derive(Clone, Copy)]
pub enum BoundRows<'a> {
    /// None: a row is then past so many objects.
    Outside {
        objects: usize,
    },
    Inside {
        name: u32,
        slot: Slot<'a>,
        outer: &'a BoundRows<'a>,
    },
}

/// Where memory is taken, the declarations, the arguments and the rows in force.
#[derive(Clone, Copy)]
pub struct Context<'a> {
    pub alloc: Global,
    pub declared: &'a Declarations,
    pub arguments: &'a [Argument],
    pub rows: &'a BoundRows<'a>,
}

/// The slot of a row: where none of the name is in force, one past all objects.
#[tactic(auto, unfolding(homeo_meaning::specs::Key::definitions))]
pub fn find_row<'a>(rows: &BoundRows<'a>, name: u32) -> Slot<'a>
    ensures { plain_slot result ≡ rows_of rows.now name }
{
    match rows {
        BoundRows::Outside { objects } => Slot {
            number: 0,
            used: *objects,
            fields: &[],
        },
        BoundRows::Inside {
            name: row,
            slot,
            outer,
        } => {
            if *row == name {
                *slot
            } else {
                find_row(outer, name)
            }
        }
    }
}

impl<'a> Context<'a> {
    pub fn new(
        alloc: Global,
        declared: &'a Declarations,
        arguments: &'a [Argument],
        rows: &'a BoundRows<'a>,
    ) -> Context<'a>
        ensures declared { result.declared.now ≡ declared.now }
        ensures arguments { result.arguments.now ≡ arguments.now }
        ensures rows { result.rows.now ≡ rows.now }
    {
        Context {
            alloc,
            declared,
            arguments,
            rows,
        }
    }

    /// The slot of a row.
    #[tactic(auto, unfolding(homeo_meaning::specs::Key::definitions))]
    pub fn row(&self, name: u32) -> Slot<'a>
        ensures { plain_slot result ≡ (plain_context self.now).rows name }
    {
        find_row(self.rows, name)
    }

    /// The same with other rows in force.
    pub fn with<'b>(&self, rows: &'b BoundRows<'b>) -> Context<'b>
    where
        'a: 'b,
        ensures declared { result.declared.now ≡ self.now.declared.now }
        ensures arguments { result.arguments.now ≡ self.now.arguments.now }
        ensures rows { result.rows.now ≡ rows.now }
    {
        Context {
            alloc: self.alloc,
            declared: self.declared,
            arguments: self.arguments,
            rows,
        }
    }

    /// A parameter's argument, or else the other value.
    #[tactic(auto, unfolding(homeo_meaning::specs::Key::definitions))]
    pub fn argument_or(&self, name: u32, other: i64) -> i64
        ensures { result ≡ argument_or ((plain_context self.now).arguments name) other }
    {
        argument_or(self.arguments, name, other)
    }

    /// The object of a name.
    #[tactic(auto, unfolding(homeo_meaning::specs::Key::definitions))]
    pub fn object(&self, name: u32) -> Spot
        ensures { plain_spot result ≡ object (plain_context self.now) name }
    {
        self.declared.spot(name)
    }

    /// The slots of the relation of a name.
    #[tactic(auto, unfolding(homeo_meaning::specs::Key::definitions))]
    pub fn relation(&self, name: u32) -> Slots<'a>
        ensures slots { slots_of result ≡ slots (plain_context self.now) name }
        ensures fields { map declared_range result.fields.now ≡ fields (plain_context self.now) name }
        ensures counted { IsCounted result }
        ensures numbered { IsNumbered result }
    {
        self.declared.relation(name)
    }
}
