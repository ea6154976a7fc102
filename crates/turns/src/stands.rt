// What is proved of runs of calls by themselves.
ghost use Rattle.turns.specs.Runs.{AfterOnce};

// The calls so far determine the plain study.
pub fn determined<T>()
    ensures { AfterOnce T }
{}
