// What the searches come to.
ghost use Rattle.search.specs.Search.{SearchStands};
ghost use Rattle.search.specs.Turns.{TurnsStand};
ghost use Rattle.search.specs.Worst.{WorstStands};

// The search finds the first vector that passes, or nothing exactly where there is none, in 1 to 2^(k+1) - 1 looks; the
// loop of single looks is the search; the search for the worst finds the first vector of the greatest time.
pub fn searching<T>()
    ensures first { SearchStands }
    ensures turns { TurnsStand }
    ensures worst { WorstStands T }
{}
