// What a sheet is, as a text, and what is said of a text. The reader stands in a crate above.
#![tactic(auto)]

ghost use Rattle.sheets.specs.Verdicts.{OneVerdict};

// A text has one verdict at most: its forms, or the number and the place of its refusal.
pub fn one_verdict()
    ensures { OneVerdict }
{}
