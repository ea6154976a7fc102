// Lines found by their names.
ghost use Rattle.std.specs.Prelude.{◌≡◌, map, None};
ghost use Rattle.network.specs.Sketches.{name_bytes, line_named};

use names::is_same_word;
use names::name::Name;

// The number of the first line of that name.
pub(crate) fn find_line(names: &[Option<Name>], name: &[u8]) -> Option<usize>
    ensures { result ≡ line_named 0 name.now (map name_bytes names.now) }
{
    // by `as_ref`: each name is looked at where it stands, and not copied
    names.iter().position(|kept| kept
        .as_ref()
        .is_some_and(|own| is_same_word(name, own.as_bytes())))
}
