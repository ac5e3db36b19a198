//! How many derivatives and next sets are built in a second. What was built is on standard output and always the same; the
//! figures are on standard error.
#![tactic(auto)]

use crate::measure::Stopwatch;
use crate::shapes::{chain, events_text, rounds, stars};
use anyhow::anyhow;
use derivatives::Step;
use expressions::Expr;
use independence::footprints::Footprints;
use independence::relation::Independence;
use sets::next_set;
use std::slice;
use tables::events::EventTable;

mod measure;
mod shapes;

// How often each thing is done.
const TIMES: u32 = 2000;

// How many the last of many turns built; how long they took is reported.
fn timed<F: FnMut() -> anyhow::Result<usize>>(
    rt: &HostRuntime,
    what: &str,
    mut build: F,
) -> anyhow::Result<usize>
    requires { F.IsAlwaysCallable build }
{
    let mut built = 0;
    let watch = Stopwatch::start(rt)?;
    for _ in 0..TIMES {
        built = build()?;
    }
    watch.report(rt, what, TIMES)?;
    Ok(built)
}

fn time_derivatives<I: Independence>(
    rt: &HostRuntime,
    what: &str,
    step: &Step<'_, I>,
    e: &Expr,
) -> anyhow::Result<()> {
    let built = timed(rt, what, || Ok(step.derivatives(e)?.len()))?;
    println!(rt; "{what}: {built} derivatives")?;
    Ok(())
}

fn time_next_set<I: Independence>(
    rt: &HostRuntime,
    what: &str,
    step: &Step<'_, I>,
    members: &[Expr],
) -> anyhow::Result<()> {
    let built = timed(rt, what, || {
        let set = next_set(step, members).map_err(|_| anyhow!("the next set was refused"))?;
        Ok(set.members().len())
    })?;
    println!(rt; "{what}: {} members, next {built}", members.len())?;
    Ok(())
}

fn step_by<'a, I: Independence>(rt: &HostRuntime, rule: &'a I, event: usize) -> Step<'a, I> {
    Step {
        heap: rt.alloc(),
        rule,
        event,
    }
}

// A small protocol, (e0, e1)*, and the set that it alone makes.
fn small<I: Independence>(rt: &HostRuntime, rule: &I) -> anyhow::Result<()> {
    let step = step_by(rt, rule, 1);
    let e = rounds(rt.alloc())?;
    time_derivatives(rt, "small protocol, derivatives", &step, &e)?;
    time_next_set(rt, "small protocol, next set", &step, slice::from_ref(&e))
}

// 32 members: what is left of 32 stars of one event after that event, and the next set of these.
fn wide<I: Independence>(rt: &HostRuntime, rule: &I) -> anyhow::Result<()> {
    let step = step_by(rt, rule, 0);
    let e = stars(rt.alloc(), 32)?;
    let set = next_set(&step, slice::from_ref(&e)).map_err(|_| anyhow!(
        "the first set was refused"
    ))?;
    time_next_set(rt, "32 stars, next set", &step, set.members())
}

// How the cost of a derivative grows with the size: chains of events, by the last, which is independent of all others.
fn growth<I: Independence>(rt: &HostRuntime, rule: &I) -> anyhow::Result<()> {
    let cases = [
        ("29 symbols, by the last event", 15, 14),
        ("59 symbols, by the last event", 30, 29),
        ("119 symbols, by the last event", 60, 59),
        ("119 symbols, by the first event", 60, 0),
    ];
    for (what, events, event) in cases {
        let e = chain(rt.alloc(), events)?;
        time_derivatives(rt, what, &step_by(rt, rule, event), &e)?;
    }
    Ok(())
}

// Under the rule that every two different events are independent.
fn run(rt: &HostRuntime) -> anyhow::Result<()> {
    let text = events_text(rt.alloc())?;
    let table = EventTable::read(rt.alloc(), text.as_bytes()).map_err(|_| anyhow!(
        "the event table was refused"
    ))?;
    let rule = Footprints::new(&table);
    small(rt, &rule)?;
    wide(rt, &rule)?;
    growth(rt, &rule)
}

fn main(rt: HostRuntime) -> anyhow::Result<()> {
    run(&rt)
}
