// What is proved of settle times and latest times, for every kind of time.
ghost use Rattle.settling.specs.Latest.{RulesGiveLatest, LatestBounds, LatestExact, CutHidesNone, UncutIsFound};
ghost use Rattle.settling.specs.Settle.{RulesGiveSettled, ShorterSettlesNoLater};

use times::time::Time;

// Lines settle in one way only, and shorter delays settle them no later, to the same values.
pub fn settling<T: Time>()
    ensures once { RulesGiveSettled T.kind }
    ensures shorter { ShorterSettlesNoLater T.kind }
{}

// Latest times follow from their rules, bound the settle times, and are exact where everything is decided; a cut
// setting hides no late vector, and a whole setting that is not cut is one.
pub fn bounding<T: Time>()
    ensures once { RulesGiveLatest T.kind }
    ensures bounds { LatestBounds T.kind }
    ensures exact { LatestExact T.kind }
    ensures cuts { CutHidesNone T.kind }
    ensures found { UncutIsFound T.kind }
{}
