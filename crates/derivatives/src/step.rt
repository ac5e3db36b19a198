use std::alloc::Global;

/// One event, taken under a rule of independence; what comes of it lies in the heap.
#[derive(Clone, Copy)]
pub struct Step<'a, I> {
    pub heap: Global,
    pub rule: &'a I,
    pub event: usize,
}
