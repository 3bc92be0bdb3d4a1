//! Declarations, found by their names.

ghost use Rattle.std.specs.Prelude.{◌≡◌, map};
ghost use Rattle.homeo_meaning.specs.Schema.{declared_range};
ghost use Rattle.homeo_meaning.specs.Context.{spot};
ghost use Rattle.homeo_meaning.specs.Meaning.{is_within};
ghost use Rattle.homeo_context.specs.Slots.{plain_spot};

use homeo_syntax::RangeDecl;

/// The place of a declaration in its list, and its bounds.
#[derive(Clone, Copy)]
pub struct Spot {
    /// The number of declarations where there is none of the name.
    pub place: usize,
    /// 0 where there is none.
    pub lo: i64,
    /// 0 where there is none.
    pub hi: i64,
}

impl Spot {
    /// Whether a value is within the bounds.
    #[tactic(auto, unfolding(homeo_meaning::specs::Key::definitions))]
    pub fn admits(self, v: i64) -> bool
        ensures { result ≡ is_within (plain_spot self) v }
    {
        self.lo <= v && v <= self.hi
    }
}

/// The field of a name: where there is none, the number of fields, and the bounds 0 and 0.
pub fn find_field(fields: &[RangeDecl], name: u32) -> Spot
    ensures { plain_spot result ≡ spot (map declared_range fields.now) name }
{
    for place in 0..fields.len() {
        let field = fields[place];
        if field.name.name == name {
            return Spot {
                place,
                lo: field.lo.value,
                hi: field.hi.value,
            };
        }
    }
    Spot {
        place: fields.len(),
        lo: 0,
        hi: 0,
    }
}
