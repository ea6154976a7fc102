// The plain family of cells.
ghost use Rattle.gates.specs.Gates.{plain_tables};
ghost use Rattle.std.proofs.Common.{rules};

use crate::gate::Gate;
use families::family::Family;

// The family whose cell words are the eight gates.
#[derive(Clone, Copy)]
pub struct Plain;

impl Family for Plain {
    ghost assigns = { λ _. plain_tables };

    ghost lawful = { Prim.search rules };

    fn table(&self, word: &[u8], pins: usize) -> Option<u16> {
        Gate::named(word)?.table(pins)
    }
}
