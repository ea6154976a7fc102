// The latest times of one line under a setting.
ghost use Rattle.std.specs.Prelude.{◌≡◌, ◌≤◌, length};
ghost use Rattle.lines.specs.Lines.{inputs};
ghost use Rattle.seeking.specs.Seeking.{line_latest, latest_time, latest_of_both};

use crate::aim::Target;
use cells::order::later_of;
use settling::latest::Latest;
use times::time::Time;

impl Target<'_> {
    // The line's latest times under a setting; the work places are left free.
    fn latest_of<T: Time>(self, setting: &[Option<bool>], work: &mut [Latest<T>]) -> Latest<T>
        requires inputs { inputs self.network.lines.now ≤ length setting.now }
        requires room { length self.network.lines.now ≤ length work.old }
        ensures { result ≡ line_latest T.kind self.entry.network.lines.now self.entry.network.ties.now self.entry.line setting.now }
    {
        self.network.latest_times(setting, work);
        work[self.line]
    }

    // The line's latest time at a value under a setting; the work places are left free.
    pub fn latest_at<T: Time>(
        self,
        value: bool,
        setting: &[Option<bool>],
        work: &mut [Latest<T>],
    ) -> Option<T>
        requires inputs { inputs self.network.lines.now ≤ length setting.now }
        requires room { length self.network.lines.now ≤ length work.old }
        ensures { result ≡ latest_time T.kind self.entry.network.lines.now self.entry.network.ties.now self.entry.line value setting.now }
    {
        self.latest_of(setting, work).at(value)
    }

    // The line's latest time at either value under a setting; the work places are left free.
    pub fn latest_of_both<T: Time>(
        self,
        setting: &[Option<bool>],
        work: &mut [Latest<T>],
    ) -> Option<T>
        requires inputs { inputs self.network.lines.now ≤ length setting.now }
        requires room { length self.network.lines.now ≤ length work.old }
        ensures { result ≡ latest_of_both T.kind self.entry.network.lines.now self.entry.network.ties.now self.entry.line setting.now }
    {
        let latest = self.latest_of(setting, work);
        later_of(latest.zero, latest.one)
    }
}
