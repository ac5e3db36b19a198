ghost use Rattle.std.specs.Prelude.{◌≡◌, ◌≤◌, ◌||◌, ◌⊎◌, ◌↔◌, [], length, take, drop, Decides, MatchResult, OnOk};
ghost use Rattle.std.specs.List.Sorted.{IsStrictlySortedBy, IsStrictlySortedBy-prop};
ghost use Rattle.std.specs.BTreeSet.{insert_key};
ghost use Rattle.std.specs.Set.{is_member};
ghost use Rattle.ordered.specs.Insertion.{by_content, same_content, Holds, Placed};

use crate::full::Full;
use crate::order::TotalOrder;
use crate::place::insert_at;

/// The members are the first of the store, each before the next, so that no two have the same content.
#[derive(Drop)]
pub struct OrderedList<'s, E: TotalOrder> {
    store: &'s mut [E],
    len: usize,
    pub ghost within: { len ≤ length store.now },
    pub ghost rising: { IsStrictlySortedBy (by_content E.TotalOrder.content E.TotalOrder.order) (take len store.now) } by { IsStrictlySortedBy-prop (by_content E.TotalOrder.content E.TotalOrder.order) (take len store.now) },
}

impl<'s, E: TotalOrder + Drop> OrderedList<'s, E> {
    ghost use Rattle.ordered.specs.Lists.{members, spare, answer, taken};

    /// An empty list; what is added to it goes to the front of the store.
    pub fn new(store: &'s mut [E]) -> Self
        ensures lent { result.store.ghost_name ≡ store.entry.ghost_name }
        ensures kept { spare result ≡ store.old }
        ensures empty { members result ≡ [] }
    {
        OrderedList { store, len: 0 }
    }

    /// How many members the store has room for.
    pub fn capacity(&self) -> usize
        ensures { result ≡ length self.now.store.now }
    {
        self.store.len()
    }

    /// How many members there are: as many as stand at the front of the store.
    pub fn len(&self) -> usize
        ensures count { result ≡ length (members self.now) }
        ensures first { members self.now ≡ take result self.now.store.now }
    {
        self.members().len()
    }

    /// The members, in rising order.
    pub fn members(&self) -> &[E]
        ensures all { result.now ≡ members self.now }
        ensures rises { IsStrictlySortedBy (by_content E.TotalOrder.content E.TotalOrder.order) result.now }
    {
        &self.store[..self.len]
    }

    /// Whether a member has the content of x.
    pub fn contains(&self, x: &E) -> bool
        ensures exact { result ≡ is_member (same_content E.TotalOrder.content E.TotalOrder.order) (members self.now) x.now }
        ensures decides { Decides result (Holds E.TotalOrder.content (E.TotalOrder.content x.now) (members self.now)) }
    {
        self.search(x).is_ok()
    }

    /// Whether x was new. A full store refuses what is new, and then nothing has changed.
    pub fn add(&mut self, x: E) -> Result<bool, Full>
        ensures lent { self.new.store.ghost_name ≡ self.old.store.ghost_name }
        ensures answers { result ≡ answer (same_content E.TotalOrder.content E.TotalOrder.order) x self.old }
        ensures exact { MatchResult result (λ _. members self.new ≡ insert_key (by_content E.TotalOrder.content E.TotalOrder.order) (members self.old) x) (λ _. self.new ≡ self.old) }
        ensures rest { spare self.new ≡ drop (taken result) (spare self.old) }
        ensures room { length self.new.store.now ≡ length self.old.store.now }
        ensures holds { OnOk result ((a : E.TotalOrder.Content) → Holds E.TotalOrder.content a (members self.new) ↔ (Holds E.TotalOrder.content a (members self.old) ⊎ (E.TotalOrder.content x ≡ a))) }
        ensures found { OnOk result ((q : E) → is_member (same_content E.TotalOrder.content E.TotalOrder.order) (members self.new) q ≡ (is_member (same_content E.TotalOrder.content E.TotalOrder.order) (members self.old) q || same_content E.TotalOrder.content E.TotalOrder.order q x)) }
    {
        match self.search(&x) {
            Ok(_) => Ok(false),
            Err(place) => {
                if self.len == self.capacity() {
                    return Err(Full);
                }
                insert_at(self.store, self.len, place, x);
                self.len += 1;
                Ok(true)
            }
        }
    }

    // Where one of its content is, or where x would go.
    fn search(&self, x: &E) -> Result<usize, usize>
        ensures { Placed (same_content E.TotalOrder.content E.TotalOrder.order) (by_content E.TotalOrder.content E.TotalOrder.order) x.now (members self.now) result }
    {
        self.members().binary_search_by(|y| y.compare(x))
    }
}
