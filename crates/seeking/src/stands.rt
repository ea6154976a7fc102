// What the searches come to, for every kind of time.
ghost use Rattle.seeking.specs.Stands.{SeekStands, WorstStands};

use times::time::Time;

// The search of a network shows the first late vector, or nothing exactly where there is none; the search for the worst
// shows the greatest settle time and the first vector that reaches it.
pub fn searching<T: Time>()
    ensures seek { SeekStands T.kind }
    ensures worst { WorstStands T.kind }
{}
