// The two rules by which the plain gates settle.
ghost use Rattle.gates.specs.Rules.{PlainOutputs, PlainAssigns, PlainGatesSettle};

use times::time::Time;

// What is proved of the plain family, for every kind of time.
pub fn plain_gates<T: Time>()
    ensures outputs { PlainOutputs }
    ensures assigns { PlainAssigns }
    ensures settle { PlainGatesSettle T.kind }
{}
