// A study as the settling and the searches see it.
ghost use Rattle.std.specs.Prelude.{◌≡◌, ◌<◌, vec_len};
ghost use Rattle.study.specs.Standing.{plain_of};

use crate::study::Study;
use seeking::aim::Target;
use settling::tied::Tied;

impl<T> Study<T> {
    // The lines with the ties of their inputs.
    pub(crate) fn tied(&self) -> Tied<'_>
        ensures lines { result.lines.now ≡ (plain_of self.now).lines }
        ensures ties { result.ties.now ≡ (plain_of self.now).ties }
    {
        Tied {
            lines: &self.lines,
            ties: &self.ties[..self.inputs],
        }
    }

    // One of the lines, to be searched for.
    pub(crate) fn target(&self, line: usize) -> Target<'_>
        requires { line < vec_len self.now.lines }
        ensures lines { result.network.lines.now ≡ (plain_of self.now).lines }
        ensures ties { result.network.ties.now ≡ (plain_of self.now).ties }
        ensures line { result.line ≡ line }
    {
        Target {
            network: self.tied(),
            line,
        }
    }
}
