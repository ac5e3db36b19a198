//! The next set: the derivatives of all members, in an ordered list over a store that is a place short of too many.
ghost use Rattle.std.specs.Prelude.{◌≡◌, false, length, take, IfOk};
ghost use Rattle.ordered.specs.Lists.{members as listed};
ghost use Rattle.derivatives.specs.Steps.{next_of};
ghost use Rattle.expressions.specs.Model.{model, models};
ghost use Rattle.sets.specs.Sets.{insert, insert_each, sorted, wide, SameMembers};
ghost use Rattle.sets.specs.Refusals.{Becomes, members_of};

use crate::refusal::SetRefusal;
use crate::set::{ExprSet, MOST_MEMBERS, MOST_SYMBOLS};
use derivatives::Step;
use expressions::Expr;
use independence::relation::Independence;
use ordered::OrderedList;

// A set in the making, over a store that has a place for each member there may be. The list is borrowed, since
// what it leaves in the store is known only where it is let go by itself; so each method keeps both references.
#[derive(Drop)]
struct Growing<'l, 's> {
    list: &'l mut OrderedList<'s, Expr>,
    ghost room: { length list.now.store.now ≡ 32 },
    ghost narrow: { wide (models (listed list.now)) ≡ false },
}

impl Growing<'_, '_> {
    // What is too large is refused before the list is touched.
    fn add(&mut self, e: Expr) -> Result<(), SetRefusal>
        ensures added { Becomes result (λ _. models (listed self.new.list.now)) (insert (model e) (models (listed self.old.list.now))) }
        ensures lent { (self.new.list.ghost_name ≡ self.old.list.ghost_name) × (self.new.list.now.store.ghost_name ≡ self.old.list.now.store.ghost_name) }
    {
        if !e.fits(MOST_SYMBOLS) {
            return Err(SetRefusal::TooWide);
        }
        self.list.add(e)?;
        Ok(())
    }

    fn add_all(&mut self, es: Vec<Expr>) -> Result<(), SetRefusal>
        ensures added { Becomes result (λ _. models (listed self.new.list.now)) (insert_each (models es.items) (models (listed self.old.list.now))) }
        ensures lent { (self.new.list.ghost_name ≡ self.old.list.ghost_name) × (self.new.list.now.store.ghost_name ≡ self.old.list.now.store.ghost_name) }
    {
        for e in es {
            self.add(e)?;
        }
        Ok(())
    }

    // The derivatives of one member at a time, so that no others wait in memory.
    fn add_derivatives<I: Independence>(
        &mut self,
        step: &Step<'_, I>,
        members: &[Expr],
    ) -> Result<(), SetRefusal>
        ensures added { Becomes result (λ _. models (listed self.new.list.now)) (insert_each (next_of I.Relation.relation step.now (models members.now)) (models (listed self.old.list.now))) }
        ensures lent { (self.new.list.ghost_name ≡ self.old.list.ghost_name) × (self.new.list.now.store.ghost_name ≡ self.old.list.now.store.ghost_name) }
    {
        for member in members {
            self.add_all(step.derivatives(member)?)?;
        }
        Ok(())
    }
}

/// All derivatives of the members by the step's event, in order and each once.
#[tactic(auto, using(crate::proofs::Sorting::sorted_rises))]
pub fn next_set<I: Independence>(
    step: &Step<'_, I>,
    members: &[Expr],
) -> Result<ExprSet, SetRefusal>
    ensures exact { Becomes result members_of (sorted (next_of I.Relation.relation step.now (models members.now))) }
    ensures same { IfOk result (λ s. SameMembers (members_of s) (next_of I.Relation.relation step.now (models members.now))) }
{
    let members = in_order(step, members)?;
    Ok(ExprSet { members })
}

// The derivatives in order and each once.
fn in_order<I: Independence>(step: &Step<'_, I>, members: &[Expr]) -> Result<Vec<Expr>, SetRefusal>
    ensures { Becomes result (λ v. models v.items) (sorted (next_of I.Relation.relation step.now (models members.now))) }
{
    let mut store = Vec::new(step.heap);
    store.resize_with(MOST_MEMBERS, || Expr::Zero)?;
    let count = fill(step, members, store.as_mut_slice())?;
    store.truncate(count);
    Ok(store)
}

// The number of the derivatives when each counts once; they then stand in order at the beginning of the store.
fn fill<I: Independence>(
    step: &Step<'_, I>,
    members: &[Expr],
    store: &mut [Expr],
) -> Result<usize, SetRefusal>
    requires { length store.old ≡ 32 }
    ensures { Becomes result (λ n. models (take n store.new)) (sorted (next_of I.Relation.relation step.now (models members.now))) }
{
    let mut list = OrderedList::new(store);
    let mut set = Growing { list: &mut list };
    set.add_derivatives(step, members)?;
    Ok(list.len())
}
