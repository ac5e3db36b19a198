use crate::pairs::Pairs;
use independence::relation::Independence;
use std::alloc::{AllocError, Global};

// So many exchanges make any order of five events of any other.
const MOST_EXCHANGES: usize = 10;

/// Every word that exchanges of neighbouring independent events make of the word.
pub fn reachable(
    heap: Global,
    rule: &Pairs,
    word: &[usize],
) -> Result<Vec<Vec<usize>>, AllocError> {
    let mut words = vec![in heap; word.to_vec(heap)?]?;
    let mut done = 0;
    for _ in 0..MOST_EXCHANGES {
        // Only what the last round found can make new words.
        let found = words.get(done..).unwrap_or_default().to_vec(heap)?;
        done = words.len();
        for word in found {
            add_exchanged(rule, &word, &mut words)?;
        }
    }
    Ok(words)
}

// Adds what one exchange makes of the word, unless it is among the words.
fn add_exchanged(
    rule: &Pairs,
    word: &Vec<usize>,
    words: &mut Vec<Vec<usize>>,
) -> Result<(), AllocError> {
    for (i, [a, b]) in word.array_windows::<2>().enumerate() {
        if rule.independent(*a, *b) {
            let mut other = word.clone()?;
            other.swap(i, i + 1);
            if !words.contains(&other) {
                words.push(other)?;
            }
        }
    }
    Ok(())
}
