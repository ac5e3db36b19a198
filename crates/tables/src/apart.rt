//! Reads an apart list: which processes may run apart.
ghost use Rattle.std.specs.Prelude.{◌≡◌, ◌<◌, ◌≤◌, length, take, IfOk, All};
ghost use Rattle.ordered.specs.Lists.{members};
ghost use Rattle.tables.specs.Folding.{records_from};
ghost use Rattle.tables.specs.Listing.{Apart};
ghost use Rattle.tables.specs.Pairing.{as_pair, with_pair, add_pair, apart_list, counted, stored, OfFew};
ghost use Rattle.tables.specs.Telling.{leaving};

use crate::events::EventTable;
use crate::fault::{ApartFault, NamesFault};
use crate::header::open_headed;
use lines::fault::LinesFault;
use lines::field::Field;
use lines::reader::Records;
use ordered::{Full, OrderedList};

/// The longest apart list, in bytes.
pub const APART_LIMIT: usize = 8192;

/// As many pairs as 16 processes have.
pub const PAIR_LIMIT: usize = 120;

fn as_pair(p: usize, q: usize) -> (usize, usize)
    ensures { result ≡ as_pair p q }
{
    if p < q { (p, q) } else { (q, p) }
}

// The pairs of an apart list, over a store that has a place for each pair there may be.
#[derive(Drop)]
struct Pairs<'s> {
    list: OrderedList<'s, (usize, usize)>,
    ghost few: { All OfFew (members list) },
    ghost room: { length list.store.now ≡ 120 },
}

impl Pairs<'_> {
    // The store has a place for every pair, so the list is never full.
    fn add(&mut self, p: usize, q: usize, place: usize) -> Result<(), NamesFault>
        requires left { p < 16 }
        requires right { q < 16 }
        ensures { leaving result (members self.new.list) ≡ with_pair place p q (members self.old.list) }
    {
        if p == q {
            return Err(NamesFault::WithItself(place));
        }
        match self.list.add(as_pair(p, q)) {
            Ok(true) => Ok(()),
            Ok(false) => Err(NamesFault::Again(place)),
            Err(Full) => unreachable(),
        }
    }

    fn add_record(
        &mut self,
        events: &EventTable<'_>,
        text: &[u8],
        fields: [Field; 2],
    ) -> Result<(), NamesFault>
        ensures { leaving result (members self.new.list) ≡ add_pair events.now.text.now events.now.entries text.now fields (members self.old.list) }
    {
        let [left, right] = fields;
        let processes = events.processes();
        let p = processes.known(text, left)?;
        let q = processes.known(text, right)?;
        self.add(p, q, right.start)
    }

    // Adds the pairs of the records that are left.
    fn read(
        &mut self,
        events: &EventTable<'_>,
        mut records: Records<'_, 2>,
    ) -> Result<(), NamesFault>
        ensures { leaving result (members self.new.list) ≡ records_from 2 (add_pair events.now.text.now events.now.entries records.entry.text.now) records.entry.text.now records.entry.position.place (members self.old.list) }
    {
        let text = records.text();
        while let Some(fields) = records.next_record()? {
            self.add_record(events, text, fields)?;
        }
        Ok(())
    }
}

/// Puts the pairs, in rising order and the lower number of each first, at the front of the store, and says how many there are.
pub fn read_apart(
    events: &EventTable<'_>,
    text: &[u8],
    store: &mut [(usize, usize)],
) -> Result<usize, ApartFault>
    ensures answers { result ≡ counted (apart_list (length store.old) events.now.text.now events.now.entries text.now) }
    ensures puts { store.new ≡ stored (apart_list (length store.old) events.now.text.now events.now.entries text.now) store.old }
    ensures within { IfOk result (λ n. n ≤ length store.old) }
    ensures lists { IfOk result (λ n. Apart events.now.text.now events.now.entries text.now (take n store.new)) }
{
    if text.len() > APART_LIMIT {
        return Err(ApartFault::from(LinesFault::TooLong));
    }
    if store.len() < PAIR_LIMIT {
        return Err(ApartFault::ShortStore);
    }
    let records = open_headed(text, APART_LIMIT, &[b"left", b"right"])?;
    // The store is left alone until the whole list is read.
    let mut found = [(0, 0); PAIR_LIMIT];
    let mut pairs = Pairs {
        list: OrderedList::new(&mut found),
    };
    pairs.read(events, records)?;
    let members = pairs.list.members();
    let count = members.len();
    store[0..count].copy_from_slice(members);
    Ok(count)
}
