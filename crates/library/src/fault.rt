// The refusal of a library.
ghost use Rattle.std.specs.Prelude.{◌≡◌};
ghost use Rattle.library.specs.Refusals.{number};

// Why no library is made of entries: the first bad one, by its number, counted from 0.
#[derive(Clone, Copy, Debug, PartialEq, Eq)]
pub struct LibraryFault {
    pub entry: usize,
}

impl LibraryFault {
    // The number of the refusal.
    pub fn number(self) -> u8
        ensures { result ≡ number self }
    {
        15
    }
}
