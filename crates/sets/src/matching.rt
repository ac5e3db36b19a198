//! Plain matching of words, which is the matching of traces where no events are independent.
ghost use Rattle.std.specs.Prelude.{◌≡◌, [], IfOk, Decides};
ghost use Rattle.traces.specs.Words.{never};
ghost use Rattle.traces.specs.Expressions.{Matches};
ghost use Rattle.traces.specs.Derivatives.{next};
ghost use Rattle.expressions.specs.Model.{model, models};
ghost use Rattle.sets.specs.Distinct.{append_each};

use crate::distinct::append_each;
use crate::nullable::any_nullable;
use derivatives::Step;
use expressions::Expr;
use independence::never::Never;
use std::alloc::{AllocError, Global};

/// Whether the word is a word of the expression.
pub fn matches(heap: Global, e: &Expr, word: &[usize]) -> Result<bool, AllocError>
    ensures { IfOk result (λ answer. Decides answer (Matches (model e.now) word.now)) }
{
    let mut members = vec![in heap; e.clone()?]?;
    for event in word {
        let step = Step {
            heap,
            rule: &Never,
            event: *event,
        };
        members = advance(&step, &members)?;
    }
    Ok(any_nullable(&members))
}

// All derivatives of the members, each once. They are made for one member at a time, so that no others wait in memory.
fn advance(step: &Step<'_, Never>, members: &[Expr]) -> Result<Vec<Expr>, AllocError>
    ensures { IfOk result (λ v. models v.items ≡ append_each (next never step.now.event (models members.now)) []) }
{
    let mut out = Vec::new(step.heap);
    for member in members {
        append_each(&mut out, step.derivatives(member)?)?;
    }
    Ok(out)
}
