use expressions::{Expr, cat, event, star, sum};
use std::alloc::{AllocError, Global};

fn leaf(number: usize) -> Expr {
    event(number).unwrap_or(Expr::Zero)
}

// A small expression of three events in each shape.
fn shapes(heap: Global, [a, b, c]: [usize; 3]) -> Result<Vec<Expr>, AllocError> {
    let (a, b, c) = (|| leaf(a), || leaf(b), || leaf(c));
    Ok(vec![in heap;
        sum(heap, a(), cat(heap, b(), c())?)?,
        cat(heap, a(), cat(heap, b(), c())?)?,
        cat(heap, sum(heap, a(), b())?, c())?,
        cat(heap, a(), star(heap, sum(heap, b(), c())?)?)?,
        cat(heap, star(heap, a())?, cat(heap, b(), c())?)?,
        star(heap, cat(heap, a(), cat(heap, b(), c())?)?)?,
        star(heap, sum(heap, a(), cat(heap, b(), c())?)?)?,
        cat(heap, star(heap, cat(heap, a(), b())?)?, star(heap, c())?)?,
        star(heap, cat(heap, sum(heap, a(), b())?, star(heap, c())?)?)?,
        cat(heap, star(heap, a())?, sum(heap, star(heap, b())?, c())?)?,
    ]?)
}

const ORDERS: [[usize; 3]; 6] = [
    [0, 1, 2],
    [0, 2, 1],
    [1, 0, 2],
    [1, 2, 0],
    [2, 0, 1],
    [2, 1, 0],
];

/// Every shape, of the events 0, 1 and 2 in each order.
pub fn expressions(heap: Global) -> Result<Vec<Expr>, AllocError> {
    let mut all = Vec::new(heap);
    for events in ORDERS {
        all.extend(shapes(heap, events)?)?;
    }
    Ok(all)
}
