// The search for a line's greatest settle time.
ghost use Rattle.std.specs.Prelude.{◌≡◌, ◌≤◌, length};
ghost use Rattle.lines.specs.Lines.{inputs};
ghost use Rattle.search.specs.Search.{undecided, vector};
ghost use Rattle.search.specs.Worst.{best_of, promising, worst_from};
ghost use Rattle.seeking.specs.Seeking.{latest_of_both};

use crate::aim::Target;
use search::places::map_into;
use search::walk::next_open;
use settling::latest::Latest;
use times::time::Time;

// Whether a latest time is after the worst so far.
fn is_promising<T: Time>(late: Option<T>, best: Option<T>) -> bool
    ensures { result ≡ promising T.kind.at_or_before late best }
{
    late.is_some_and(|late| best.is_none_or(|best| !late.at_or_before(best)))
}

// Keeps the vector of a setting that decides every input.
fn keep(setting: &[Option<bool>], at: &mut [bool])
    requires { length at.old ≡ length setting.now }
    ensures { at.new ≡ vector setting.now }
{
    map_into(setting, |input| input.unwrap_or(false), at);
}

impl Target<'_> {
    // The worst from a setting on, given the worst so far; its vector is kept beside it. The setting is left as it was.
    pub fn worst_of<T: Time>(
        self,
        setting: &mut [Option<bool>],
        best: Option<T>,
        at: &mut [bool],
        work: &mut [Latest<T>],
    ) -> Option<T>
        requires inputs { length setting.old ≡ inputs self.network.lines.now }
        requires kept { length at.old ≡ inputs self.network.lines.now }
        requires room { length self.network.lines.now ≤ length work.old }
        ensures restored { setting.new ≡ setting.old }
        ensures worst { best_of result at.new ≡ worst_from T.kind.at_or_before (latest_of_both T.kind self.entry.network.lines.now self.entry.network.ties.now self.entry.line) (undecided setting.old) setting.old (best_of best at.old) }
    {
        let late = self.latest_of_both(setting, work);
        if !is_promising(late, best) {
            return best;
        }
        let Some(next) = next_open(setting) else {
            keep(setting, at);
            return late;
        };
        setting[next] = Some(false);
        let zero = self.worst_of(setting, best, at, work);
        setting[next] = Some(true);
        let one = self.worst_of(setting, zero, at, work);
        setting[next] = None;
        one
    }
}
