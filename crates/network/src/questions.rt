// What a network tells of its lines. A draft tells some of it too, by functions of its own: they are two types, so that no
// line can be added to a network, and each function is one expression.
ghost use Rattle.std.specs.Prelude.{◌≡◌, ◌<◌, length, None, slice_index_or};
ghost use Rattle.lines.specs.Lines.{inputs};
ghost use Rattle.network.specs.Drafts.{sealed};
ghost use Rattle.network.specs.Sketches.{name_bytes, line_named, FirstLine};

use crate::naming::find_line;
use crate::network::Network;
use names::name::Name;

impl Network {
    // The number of lines.
    pub fn line_count(&self) -> usize
        ensures { result ≡ length (sealed self.now).lines }
    {
        self.lines.len()
    }

    // The number of inputs, which are the lines below it.
    pub fn input_count(&self) -> usize
        ensures { result ≡ inputs (sealed self.now).lines }
    {
        self.inputs
    }

    // The name of a line, if there is such a line and it has one.
    pub fn name_of(&self, line: usize) -> Option<Name>
        ensures { name_bytes result ≡ slice_index_or (sealed self.now).names line None }
    {
        self.names.get(line).copied().flatten()
    }

    // The number of the first line of that name.
    pub fn line_named(&self, name: &[u8]) -> Option<usize>
        ensures value { result ≡ line_named 0 name.now (sealed self.now).names }
        ensures first { FirstLine (sealed self.now).names name.now result }
    {
        find_line(&self.names, name)
    }
}
