//! What acceptance finds of a workload on the way.

use homeo_syntax::{LCommand, List};

/// Which ground call each call of a workload is, and the L forms of the ground calls, once for each transaction with arguments.
#[derive(Drop)]
pub struct Findings {
    /// By client, the place of each of its calls among the ground calls.
    pub calls: Vec<Vec<usize>>,
    /// The L forms, over whole objects, each where it is first called.
    pub forms: List<LCommand>,
    /// The place of each ground call's L form.
    pub places: Vec<usize>,
}
