// What a search aims at: a line of a network with its ties.
ghost use Rattle.std.specs.Prelude.{◌<◌, length};

use settling::tied::Tied;

// The network with its ties, and the number of the line. The setting and the work places change at each look, so they stay
// parameters: lent in a struct, each change would have to show again that they are as long as the network.
#[derive(Clone, Copy)]
pub struct Target<'a> {
    pub network: Tied<'a>,
    pub line: usize,
    ghost present: { line < length network.lines.now },
}
