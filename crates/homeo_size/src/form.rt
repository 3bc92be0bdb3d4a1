//! How large an L form is.

ghost use Rattle.std.specs.Prelude.{◌≡◌, map, IfOk};
ghost use Rattle.homeo_syntax.specs.LowView.{plain_lcommand};
ghost use Rattle.homeo_size.specs.Measured.{IsMeasure};
ghost use Rattle.homeo_size.specs.inner.Parts.{unwritten};

use crate::extent::{Extent, unwritten};
use crate::extents::Extents;
use crate::layout::Layout;
use crate::measures::Measure;
use homeo_meaning::Window;
use homeo_syntax::{LCommand, Memory};
use std::alloc::Global;

/// The extents of the objects where a call begins.
fn first_extents(alloc: Global, weights: &[u64], sites: u64) -> Result<Vec<Extent>, Memory>
    ensures { IfOk result (λ objects. objects.items ≡ map (unwritten sites) weights.now) }
{
    let objects = weights
        .iter()
        .map(|weight| unwritten(sites, *weight))
        .collect(alloc)?;
    Ok(objects)
}

/// Measures the L form of a call of what is laid out, on so many sites.
///
/// # Errors
///
/// `Memory` where memory is wanting, and of a form that writes a delta, which no call's form does.
pub fn measure(
    alloc: Global,
    form: &LCommand,
    layout: &Layout,
    sites: u64,
) -> Result<Measure, Memory>
    ensures { IfOk result (IsMeasure layout.now sites (plain_lcommand form.now)) }
{
    let mut extents = Extents {
        objects: first_extents(alloc, layout.weights(), sites)?,
        named: Window::new(alloc),
        fresh: Window::new(alloc),
        log: Vec::new(alloc),
        absent: unwritten(sites, 1),
    };
    extents.command(alloc, form, sites)
}
