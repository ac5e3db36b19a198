//! Independence by the cells that events read and write.
ghost use Rattle.std.specs.Prelude.{◌≡◌, refl};
ghost use Rattle.independence.specs.Footprint.{disturbs, clash_on, clash, apart_by_cells, ByRecords};
ghost use Rattle.independence.specs.Laws.{cells_irreflexive, cells_symmetric, cells_bounded};

use crate::relation::{Independence, Relation};
use tables::events::EventTable;
use tables::row::Access;

/// Two events are independent if neither writes a cell that the other reads or writes.
#[derive(Clone, Copy)]
pub struct Footprints<'a> {
    events: &'a EventTable<'a>,
}

impl<'a> Footprints<'a> {
    /// The rule by the cells that the table lists.
    pub fn new(events: &'a EventTable<'a>) -> Footprints<'a>
        ensures table { result.events.now ≡ events.now }
        ensures meaning { ByRecords events.now.text.now events.now.entries (apart_by_cells result.events.now.entries) }
    {
        Footprints { events }
    }

    // Event a writes the cell, and b writes or reads it.
    fn disturbs(&self, a: usize, b: usize, cell: usize) -> bool
        ensures { result ≡ disturbs self.now.events.now.entries a b cell }
    {
        let table = self.events;
        table.lists(a, Access::Write, cell)
            && (table.lists(b, Access::Write, cell) || table.lists(b, Access::Read, cell))
    }

    fn clash_on(&self, a: usize, b: usize, cell: usize) -> bool
        ensures { result ≡ clash_on self.now.events.now.entries a b cell }
    {
        self.disturbs(a, b, cell) || self.disturbs(b, a, cell)
    }

    fn clash(&self, a: usize, b: usize) -> bool
        ensures { result ≡ clash self.now.events.now.entries a b }
    {
        (0..self.events.cells().len()).any(|cell| self.clash_on(a, b, cell))
    }
}

impl<'a> Relation for Footprints<'a> {
    ghost relation = { λ x. apart_by_cells x.events.now.entries };

    ghost irreflexive = { λ x a. cells_irreflexive x.events.now.entries a a refl };

    ghost symmetric = { λ x a b. cells_symmetric x.events.now.entries a b };

    ghost bounded = { λ x a b. cells_bounded x.events.now.entries a b x.events.now.text.now x.events.now.exact };
}

impl<'a> Independence for Footprints<'a> {
    fn independent(&self, a: usize, b: usize) -> bool {
        let events = self.events.events().len();
        a < events && b < events && a != b && !self.clash(a, b)
    }
}
