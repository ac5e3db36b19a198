//! How room is made for an element at its place.
ghost use Rattle.std.specs.Prelude.{◌≡◌, ◌+◌, ◌<◌, ◌≤◌, ◌∷◌, ◌++◌, length, take, drop};

// Puts x in at p among the first len, which grow by one place. What lies past that is left alone.
pub(crate) fn insert_at<E: Drop>(store: &mut [E], len: usize, p: usize, x: E)
    requires { (len < length store.old) × (p ≤ len) }
    ensures front { take (len + 1) store.new ≡ take p (take len store.old) ++ x ∷ drop p (take len store.old) }
    ensures rest { drop (len + 1) store.new ≡ drop (len + 1) store.old }
{
    store[len] = x;
    store[p..len + 1].rotate_right(1);
}
