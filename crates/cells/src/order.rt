// The sooner and the later of two times.
ghost use Rattle.std.specs.Prelude.{◌≡◌, Bool};
ghost use Rattle.cells.specs.Firsts.{first, at_or_after};

use times::time::Time;

// Of two things, each of which may be missing, the one that comes first by an order.
fn first_by<A: Copy, F: FnOnce(A, A) -> bool>(order: F, a: Option<A>, b: Option<A>) -> Option<A>
    requires { F.IsAlwaysCallable order }
    ensures { (by : A → A → Bool) → ((x y : A) (r : Bool) → F.post order x y r → r ≡ by x y) → result ≡ first by a b }
{
    match (a, b) {
        (None, b) => b,
        (a, None) => a,
        (Some(x), Some(y)) => { if order(x, y) { a } else { b } }
    }
}

// The sooner of two times, each of which may be missing.
pub fn sooner_of<T: Time>(a: Option<T>, b: Option<T>) -> Option<T>
    ensures { result ≡ first T.kind.at_or_before a b }
{
    first_by(|a, b| a.at_or_before(b), a, b)
}

// The later of two times, each of which may be missing.
pub fn later_of<T: Time>(a: Option<T>, b: Option<T>) -> Option<T>
    ensures { result ≡ first (at_or_after T.kind) a b }
{
    first_by(|a, b| b.at_or_before(a), a, b)
}
