use std::alloc::{AllocError, Global};

const MOST_EVENTS: usize = 5;

/// All words of the events 0, 1 and 2 with at most five events.
pub fn words(heap: Global) -> Result<Vec<Vec<usize>>, AllocError> {
    let mut all = vec![in heap; Vec::new(heap)]?;
    for _ in 0..MOST_EVENTS {
        all = empty_and_longer(heap, all.as_slice())?;
    }
    Ok(all)
}

// The empty word, and each of the words with one more event.
fn empty_and_longer(heap: Global, words: &[Vec<usize>]) -> Result<Vec<Vec<usize>>, AllocError> {
    let mut all = vec![in heap; Vec::new(heap)]?;
    for word in words {
        for event in 0..3 {
            let mut longer = word.clone()?;
            longer.push(event)?;
            all.push(longer)?;
        }
    }
    Ok(all)
}
