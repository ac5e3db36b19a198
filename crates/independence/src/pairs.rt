//! All pairs of independent events.
ghost use Rattle.std.specs.Prelude.{◌≡◌, ◌+◌, ◌-◌, ◌<◌, ◌++◌, IfOk, OnOk};
ghost use Rattle.independence.specs.Pairing.{event_limit, pairs_of, related, independent_pairs, Exactly};

use crate::relation::Independence;
use std::alloc::{AllocError, Global};
use tables::events::EVENT_LIMIT;

// Adds the pairs of an event with the later ones that are independent of it.
fn add_pairs_of<I: Independence>(
    rule: &I,
    a: usize,
    pairs: &mut Vec<(usize, usize)>,
) -> Result<(), AllocError>
    requires { a < 64 }
    ensures { OnOk result (pairs.new.items ≡ pairs.old.items ++ related (I.Relation.relation rule.now) (pairs_of a (a + 1) (event_limit - (a + 1)))) }
{
    for b in a + 1..EVENT_LIMIT {
        if rule.independent(a, b) {
            pairs.push((a, b))?;
        }
    }
    Ok(())
}

/// Each pair has the lower number first, and the pairs rise by their first and then their second number.
pub fn independent_pairs<I: Independence>(
    heap: Global,
    rule: &I,
) -> Result<Vec<(usize, usize)>, AllocError>
    ensures list { IfOk result (λ v. v.items ≡ independent_pairs (I.Relation.relation rule.now)) }
    ensures exactly { IfOk result (λ v. Exactly (I.Relation.relation rule.now) v.items) }
{
    let mut pairs = Vec::new(heap);
    for a in 0..EVENT_LIMIT {
        add_pairs_of(rule, a, &mut pairs)?;
    }
    Ok(pairs)
}
