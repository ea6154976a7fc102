// Latest times brought up to date when the setting is another.
ghost use Rattle.std.specs.Prelude.{◌≡◌, ℕ, ◌≤◌, length, Decides};
ghost use Rattle.lines.specs.Limits.{max_lines};
ghost use Rattle.lines.specs.Lines.{inputs, LawfulDriver};
ghost use Rattle.settling.specs.Settle.{tied_by};
ghost use Rattle.settling.specs.Latest.{in_setting, Under, Worked, stays};

use crate::latest::Latest;
use crate::tied::Tied;
use lines::limits::MAX_LINES;
use lines::line::{Driver, Line};
use times::time::Time;

// Whether two times, each of which may be missing, are the same, by their order: a kind of time has no
// equality of its own, and to ask for one would ask more of every kind.
fn is_same_time<T: Time>(a: Option<T>, b: Option<T>) -> bool
    ensures { Decides result (a ≡ b) }
{
    match (a, b) {
        (None, None) => true,
        (Some(a), Some(b)) => a.at_or_before(b) && b.at_or_before(a),
        _ => false,
    }
}

// Whether a line's latest times are the same.
fn is_same<T: Time>(a: Latest<T>, b: Latest<T>) -> bool
    ensures { Decides result (a ≡ b) }
{
    is_same_time(a.zero, b.zero) && is_same_time(a.one, b.one)
}

// Whether the line has the latest times that it had: it is a cell's, and no line at a pin of it has changed.
fn has_stayed(line: Line, number: usize, changed: &[bool]) -> bool
    requires driver { (count : ℕ) × LawfulDriver count number line.driver }
    requires below { number ≤ length changed.now }
    ensures { result ≡ stays changed.now line.driver }
{
    match line.driver {
        Driver::Input => false,
        Driver::Output(cell) => cell.pins[..cell.count].iter().all(|line| !changed[*line]),
    }
}

impl Tied<'_> {
    // Brings the latest times of the lines below a number from one setting to another: only inputs, and cells with a changed
    // line at a pin, are worked out again. There is one place for each input in the setting.
    pub fn latest_again<T: Time>(
        self,
        upto: usize,
        setting: &[Option<bool>],
        work: &mut [Latest<T>],
    )
        requires short { length self.lines.now ≤ max_lines }
        requires upto { upto ≤ length self.lines.now }
        requires setting { inputs self.lines.now ≤ length setting.now }
        requires room { length self.lines.now ≤ length work.old }
        requires worked { Worked T.kind (tied_by self.ties.now) self.lines.now upto work.old }
        ensures { Under T.kind (tied_by self.entry.ties.now) self.entry.lines.now upto (in_setting setting.now) work.new }
    {
        // for the most lines that there can be, since this can want no memory
        let mut changed = [false; MAX_LINES];
        for (number, line) in self.lines[..upto].iter().enumerate() {
            if !has_stayed(*line, number, &changed) {
                let times = self.line_latest(*line, number, setting, work);
                changed[number] = !is_same(work[number], times);
                work[number] = times;
            }
        }
    }
}
