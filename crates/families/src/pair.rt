// Two families as one.
ghost use Rattle.std.specs.Prelude.{◌≡◌, length, get_or, take, drop};
ghost use Rattle.families.specs.Tables.{paired};
ghost use Rattle.families.specs.Pairs.{pair_lawful};

use crate::family::Family;
use names::is_star;

// A word that begins with a star goes to the second family without that star, every other word to the first.
#[derive(Drop)]
pub struct Pair<A, B> {
    pub first: A,
    pub second: B,
}

impl<A: Family, B: Family> Family for Pair<A, B> {
    ghost assigns = { λ pair. paired (A.Family.assigns pair.first) (B.Family.assigns pair.second) };

    ghost lawful = { λ family. pair_lawful _ _ (A.Family.lawful family.first) (B.Family.lawful family.second) };

    fn table(&self, word: &[u8], pins: usize) -> Option<u16> {
        match word {
            [first, rest @ ..] if is_star(*first) => self.second.table(rest, pins),
            _ => self.first.table(word, pins),
        }
    }
}
