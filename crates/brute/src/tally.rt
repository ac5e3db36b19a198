use crate::exchanges::reachable;
use crate::pairs::Pairs;
use crate::plain::is_word;
use anyhow::anyhow;
use derivatives::Step;
use expressions::Expr;
use sets::{SetRefusal, any_nullable, next_set};
use std::alloc::Global;
use std::slice;

/// How often a word was in the closure of an expression, or a word of it, and how the sets decided.
#[derive(Clone, Copy, Default)]
pub struct Tally {
    pub inside: u64,
    pub plain: u64,
    pub too_wide: u64,
    pub wrong: u64,
}

/// How the sets decide each word of each expression, held to the search.
pub fn compared(
    heap: Global,
    rule: &Pairs,
    exprs: &[Expr],
    words: &[Vec<usize>],
) -> anyhow::Result<Tally> {
    let mut found = Tally::default();
    for word in words {
        let reached = reachable(heap, rule, word)?;
        for e in exprs {
            let inside = reached.iter().any(|reached| is_word(e, reached));
            count(&mut found.inside, inside);
            count(&mut found.plain, is_word(e, word));
            match decide(heap, rule, slice::from_ref(e), word) {
                Ok(decided) => count(&mut found.wrong, decided != inside),
                Err(SetRefusal::TooWide) => count(&mut found.too_wide, true),
                Err(SetRefusal::Memory) => return Err(anyhow!("no memory")),
            }
        }
    }
    Ok(found)
}

fn count(counter: &mut u64, more: bool) {
    *counter = counter.saturating_add(u64::from(more));
}

// By the sets after each beginning of the word, of which only the last is kept.
fn decide(
    heap: Global,
    rule: &Pairs,
    members: &[Expr],
    word: &[usize],
) -> Result<bool, SetRefusal> {
    let after = |members: &[Expr], event: usize| next_set(&Step { heap, rule, event }, members);
    let Some((first, rest)) = word.split_first() else {
        return Ok(any_nullable(members));
    };
    let mut set = after(members, *first)?;
    for event in rest {
        set = after(set.members(), *event)?;
    }
    Ok(any_nullable(set.members()))
}
