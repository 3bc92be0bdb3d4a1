//! The row variables in force.

ghost use Rattle.std.specs.Prelude.{◌≡◌};
ghost use Rattle.homeo_meaning.specs.Bindings.{row_relation};
ghost use Rattle.homeo_rules.specs.inner.InForce.{rows_of};

/// The row variables that hold a place, the innermost first, each with the name of the relation that it goes over.
#[derive(Clone, Copy)]
pub(crate) enum Rows<'a> {
    Outside,
    Inside {
        row: u32,
        relation: u32,
        outer: &'a Rows<'a>,
    },
}

impl Rows<'_> {
    /// The relation that the innermost row variable of a name goes over.
    pub(crate) fn relation_of(&self, name: u32) -> Option<u32>
        ensures { result ≡ row_relation (rows_of self.now) name }
    {
        match self {
            Rows::Outside => None,
            Rows::Inside {
                row,
                relation,
                outer,
            } => {
                if *row == name {
                    Some(*relation)
                } else {
                    outer.relation_of(name)
                }
            }
        }
    }
}
