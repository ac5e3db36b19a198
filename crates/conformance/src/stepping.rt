use crate::reading::{EVENTS, table};
use derivatives::Step;
use expressions::{Expr, cat, event, star, sum};
use independence::footprints::Footprints;
use sets::{any_nullable, matches, next_set};
use std::alloc::Global;
use std::slice;
use std::test::Fail;

fn one(number: usize) -> Result<Expr, Fail> {
    event(number).ok_or_else(|| Fail::new("no event"))
}

// The one event and then the other.
fn both(heap: Global, first: usize, second: usize) -> Result<Expr, Fail> {
    Ok(cat(heap, one(first)?, one(second)?)?)
}

#[test]
fn clones(rt: HostRuntime) -> Result<(), Fail> {
    let heap = rt.alloc();
    let e = sum(heap, star(heap, both(heap, 0, 1)?)?, one(2)?)?;
    assert_eq!(rt; e.clone()?, e);
    Ok(())
}

#[test]
fn steps(rt: HostRuntime) -> Result<(), Fail> {
    let heap = rt.alloc();
    let events = table(heap, EVENTS)?;
    let rule = Footprints::new(&events);
    let step = Step {
        heap,
        rule: &rule,
        event: 1,
    };
    let e = both(heap, 0, 1)?;
    assert_eq!(rt; step.keep(&one(0)?)?, one(0)?);
    assert_eq!(rt; step.keep(&e)?, Expr::Zero);
    assert_eq!(rt; step.derivatives(&e)?.as_slice(), slice::from_ref(&one(0)?));
    assert_eq!(rt;
        step.all_derivatives(slice::from_ref(&e))?.as_slice(),
        slice::from_ref(&one(0)?)
    );
    Ok(())
}

#[test]
fn words_by_sets(rt: HostRuntime) -> Result<(), Fail> {
    let heap = rt.alloc();
    let events = table(heap, EVENTS)?;
    let rule = Footprints::new(&events);
    let e = both(heap, 0, 1)?;
    let first = Step {
        heap,
        rule: &rule,
        event: 1,
    };
    let second = Step {
        heap,
        rule: &rule,
        event: 0,
    };
    let Ok(set) = next_set(&first, slice::from_ref(&e)) else {
        return Err(Fail::new("no set"));
    };
    assert_eq!(rt; set.members(), slice::from_ref(&one(0)?));
    let Ok(set) = next_set(&second, set.members()) else {
        return Err(Fail::new("no set"));
    };
    assert!(rt; any_nullable(set.members()));
    assert!(rt; matches(heap, &e, &[0, 1])?);
    assert!(rt; !matches(heap, &e, &[1, 0])?);
    Ok(())
}
