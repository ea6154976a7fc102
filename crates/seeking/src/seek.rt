// The search for a vector that settles a line to a value at or after a bound.
ghost use Rattle.std.specs.Prelude.{◌≡◌, ◌≤◌, not, length};
ghost use Rattle.lines.specs.Limits.{max_inputs};
ghost use Rattle.lines.specs.Lines.{inputs};
ghost use Rattle.settling.specs.Latest.{cut};
ghost use Rattle.search.specs.Search.{undecided};
ghost use Rattle.seeking.specs.Seeking.{seek_search};
ghost use Rattle.seeking.specs.Outcomes.{LookedFor};

use crate::aim::Target;
use search::walk::{next_open, pass};
use settling::latest::Latest;
use times::time::Time;

// Whether a latest time is there and at or after a bound.
fn reaches<T: Time>(late: Option<T>, bound: T) -> bool
    ensures { result ≡ not (cut T.kind bound late) }
{
    late.is_some_and(|late| bound.at_or_before(late))
}

// What a search comes to: the line's settle time under the vector found, or none, and how many settings were tested.
#[derive(Clone, Copy)]
pub struct Looked<T> {
    pub found: Option<T>,
    pub looks: u32,
}

impl Target<'_> {
    // The search from the ties. Where it finds a vector, the setting decides every input so; else it is the ties again.
    pub fn look_for<T: Time>(
        self,
        value: bool,
        bound: T,
        setting: &mut [Option<bool>],
        work: &mut [Latest<T>],
    ) -> Looked<T>
        requires inputs { length self.network.ties.now ≡ inputs self.network.lines.now }
        requires few { undecided self.network.ties.now ≤ max_inputs }
        requires start { setting.old ≡ self.network.ties.now }
        requires room { length self.network.lines.now ≤ length work.old }
        ensures { LookedFor T.kind self.entry.network.lines.now self.entry.network.ties.now self.entry.line (seek_search T.kind self.entry.network.lines.now self.entry.network.ties.now self.entry.line value bound) setting.new result.found result.looks }
    {
        let mut looks: u32 = 0;
        'looking: loop {
            looks += 1;
            let late = self.latest_at(value, setting, work);
            if reaches(late, bound) {
                let Some(next) = next_open(setting) else {
                    return Looked { found: late, looks };
                };
                setting[next] = Some(false);
            } else if !pass(self.network.ties, setting) {
                return Looked { found: None, looks };
            }
        }
    }
}
