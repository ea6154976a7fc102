// What an entry of a library is.
use names::name::Name;

// The table of the cells of that name with so many pins. The name may be an unlawful one of at most eight bytes;
// one with more, which is unlawful too, cannot be kept.
#[derive(Clone, Copy)]
pub struct Entry {
    pub name: Name,
    pub pins: usize,
    pub table: u16,
}
