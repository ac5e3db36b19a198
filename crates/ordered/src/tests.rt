ghost use Rattle.std.specs.Prelude.{ℕ};
ghost use Rattle.ordered.specs.Numbers.{number_order, numbers_same, numbers_total};

use super::*;
use std::cmp::Ordering;
use std::process::Abort;

// Kept by the time alone, though tasks of one time are not equal.
#[derive(Clone, Copy, PartialEq, Eq, Debug)]
struct Task {
    due: usize,
    name: usize,
}

impl TotalOrder for Task {
    ghost Content = { ℕ };

    ghost content = { λ t. t.due };

    ghost order = { number_order };

    ghost same = { numbers_same };

    ghost converse = { λ a b. numbers_total.antisymm b a };

    ghost transitive = { numbers_total.trans };

    fn compare(&self, other: &Task) -> Ordering {
        self.due.compare(&other.due)
    }
}

fn adds(
    rt: &impl Abort,
    what: &str,
    store: &mut [(usize, usize)],
    steps: &[((usize, usize), Result<bool, Full>)],
    members: &[(usize, usize)],
) {
    let mut list = OrderedList::new(store);
    for &(pair, answer) in steps {
        assert_eq!(rt; list.add(pair), answer, "{what}");
    }
    assert_eq!(rt; list.members(), members, "{what}");
}

#[test]
fn adding(rt: HostRuntime) {
    adds(&rt, "an empty store", &mut [], &[((1, 2), Err(Full))], &[]);
    adds(
        &rt,
        "by the first number and then the second, until the store is full",
        &mut [(0, 0); 3],
        &[
            ((2, 1), Ok(true)),
            ((1, 9), Ok(true)),
            ((2, 1), Ok(false)),
            ((1, 2), Ok(true)),
            ((3, 0), Err(Full)),
            ((1, 9), Ok(false)),
        ],
        &[(1, 2), (1, 9), (2, 1)],
    );
}

#[test]
fn adding_by_a_part(rt: HostRuntime) {
    let mut store = [Task { due: 0, name: 0 }; 3];
    let mut list = OrderedList::new(&mut store);
    let late = Task { due: 9, name: 1 };
    let soon = Task { due: 2, name: 2 };
    assert_eq!(rt; list.add(late), Ok(true));
    assert_eq!(rt; list.add(soon), Ok(true));
    assert_eq!(rt; list.add(Task { due: 9, name: 3 }), Ok(false));
    assert_eq!(rt; list.members(), [soon, late].as_slice());
    assert!(rt; list.contains(&Task { due: 2, name: 4 }));
}
