//! Holds the decision by sets of expressions to a search through all exchanges, on small expressions and words.
#![tactic(auto)]

use crate::pairs::Pairs;
use crate::shapes::expressions;
use crate::tally::{Tally, compared};
use crate::words::words;

mod exchanges;
mod pairs;
mod plain;
mod shapes;
mod tally;
mod words;

fn run(rt: &HostRuntime) -> anyhow::Result<()> {
    let exprs = expressions(rt.alloc())?;
    let words = words(rt.alloc())?;
    println!(rt; "{} expressions, {} words", exprs.len(), words.len())?;
    for low in [false, true] {
        for outer in [false, true] {
            for high in [false, true] {
                let rule = Pairs { low, outer, high };
                let found = compared(rt.alloc(), &rule, exprs.as_slice(), words.as_slice())?;
                show(rt, &rule, &found)?;
            }
        }
    }
    Ok(())
}

fn show(rt: &HostRuntime, rule: &Pairs, found: &Tally) -> anyhow::Result<()> {
    println!(rt;
        "0-1 {}, 0-2 {}, 1-2 {}: {} in the closure, {} of them plain; {} too wide, {} wrong",
        rule.low, rule.outer, rule.high, found.inside, found.plain, found.too_wide, found.wrong
    )?;
    Ok(())
}

fn main(rt: HostRuntime) -> anyhow::Result<()> {
    run(&rt)
}
