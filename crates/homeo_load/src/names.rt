//! The names of a load.

ghost use Rattle.std.specs.Prelude.{◌≡◌, map, IfOk};
ghost use Rattle.homeo_load.specs.Load.{load_names};

use homeo_syntax::{List, Memory, Text};
use std::alloc::Global;

/// The names in the order of their numbers: those of the objects, of the transactions with the parameter between the first two,
/// and of the clients.
const NAMES: [&str; 25] = [
    "c0", "c1", "c2", "c3", "c4", "c5", "c6", "c7", "add0", "n", "add1", "add2", "add3", "add4",
    "add5", "add6", "add7", "w0", "w1", "w2", "w3", "w4", "w5", "w6", "w7",
];

/// Copies of texts.
fn copies(alloc: Global, texts: &[&str]) -> Result<List<Text>, Memory>
    ensures { IfOk result (λ l. l.items ≡ map (λ text. text.now) texts.now) }
{
    let mut copies = List::new(alloc);
    for text in texts {
        copies.push(Text::of(alloc, text)?)?;
    }
    Ok(copies)
}

/// The names of a load.
pub(crate) fn names(alloc: Global) -> Result<List<Text>, Memory>
    ensures { IfOk result (λ l. l.items ≡ load_names) }
{
    copies(alloc, &NAMES)
}
