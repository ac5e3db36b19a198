//! Independence by processes that are said to be apart.
ghost use Rattle.std.specs.Prelude.{◌≡◌};
ghost use Rattle.independence.specs.Parting.{listed, apart_by_processes, ByPairs, ByList};
ghost use Rattle.independence.specs.Laws.{processes_irreflexive, processes_symmetric, processes_bounded};

use crate::relation::{Independence, Relation};
use tables::events::EventTable;

/// Two events are independent if their processes differ and stand among the pairs, in either order.
#[derive(Clone, Copy)]
pub struct Apart<'a> {
    events: &'a EventTable<'a>,
    pairs: &'a [(usize, usize)],
}

impl<'a> Apart<'a> {
    /// The rule by pairs of process numbers of the table, as `read_apart` gives them.
    pub fn new(events: &'a EventTable<'a>, pairs: &'a [(usize, usize)]) -> Apart<'a>
        ensures table { result.events.now ≡ events.now }
        ensures pairs { result.pairs.now ≡ pairs.now }
        ensures meaning { ByPairs events.now.entries pairs.now (apart_by_processes result.events.now.entries result.pairs.now) }
        ensures said { ByList events.now.text.now events.now.entries pairs.now (apart_by_processes result.events.now.entries result.pairs.now) }
    {
        Apart { events, pairs }
    }

    fn lists(&self, p: usize, q: usize) -> bool
        ensures { result ≡ listed p q self.now.pairs.now }
    {
        self.pairs.contains(&(p, q)) || self.pairs.contains(&(q, p))
    }
}

impl<'a> Relation for Apart<'a> {
    ghost relation = { λ x. apart_by_processes x.events.now.entries x.pairs.now };

    ghost irreflexive = { λ x. processes_irreflexive x.pairs.now x.events.now.entries };

    ghost symmetric = { λ x. processes_symmetric x.pairs.now x.events.now.entries };

    ghost bounded = { λ x. processes_bounded x.pairs.now x.events.now.entries x.events.now.text.now x.events.now.exact };
}

impl<'a> Independence for Apart<'a> {
    fn independent(&self, a: usize, b: usize) -> bool {
        match (self.events.process(a), self.events.process(b)) {
            (Some(p), Some(q)) => p != q && self.lists(p, q),
            _ => false,
        }
    }
}
