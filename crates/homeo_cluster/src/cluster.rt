//! Sites behind locks.

ghost use Rattle.std.specs.Prelude.{◌≡◌, vec_len};
ghost use Rattle.homeo_plan.specs.Planned.{sites_of};

use crate::book::Book;
use crate::cell::SiteCell;
use crate::frame::Frame;
use crate::naming::ClusterNaming;
use std::sync::Mutex;

/// The sites of a program, each behind a lock of its own, and the closed rounds behind one more (Roy et al., SIGMOD 2015). A call
/// that keeps its site's treaty takes the lock of its site alone; one that breaks it takes the book's and then all others', in
/// the order of the sites' numbers.
#[derive(Drop)]
pub struct Cluster<N: ClusterNaming> {
    pub(crate) frame: Frame<N>,
    pub(crate) book: Mutex<Book<N>>,
    pub(crate) sites: Vec<Mutex<SiteCell<N>>>,
    ghost count: { vec_len sites ≡ sites_of N.workload },
}
