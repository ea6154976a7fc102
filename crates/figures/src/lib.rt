// Worked examples, as one list with one proof.
#![tactic(auto)]

ghost use Rattle.figures.specs.Figures.{FiguresHold};

// Every figure of the list is as the definitions say.
pub fn figures_hold()
    ensures { FiguresHold }
{}
