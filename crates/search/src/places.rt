// Buffers that take what a list gives, place by place.
ghost use Rattle.std.specs.Prelude.{◌≡◌, ◌≤◌, ◌++◌, length, map, drop};

// Writes what the function gives for each element into the first places; further places stay.
pub fn map_into<A: Copy, B: Copy, F: Fn(A) -> B>(from: &[A], f: F, into: &mut [B])
    requires callable { F.IsAlwaysCallable f }
    requires room { length from.now ≤ length into.old }
    ensures { (by : A → B) → ((x : A) (y : B) → F.post f x y → y ≡ by x) → into.new ≡ map by from.now ++ drop (length from.now) into.old }
{
    // By index: no invariant of a loop over `into.iter_mut().zip(from)` can say what the loop has written.
    for (i, x) in from.iter().enumerate() {
        into[i] = f(*x);
    }
}
