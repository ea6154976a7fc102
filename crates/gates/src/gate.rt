// The plain gates.
ghost use Rattle.std.specs.Prelude.{◌≡◌};
ghost use Rattle.std.specs.List.{find};
ghost use Rattle.names.specs.Names.{same_word};
ghost use Rattle.gates.specs.Gates.{gate_word, gate_named, gate_table};

use names::is_same_word;

// A plain gate: buf and not have one pin, the others two to four.
#[derive(Clone, Copy, Debug, PartialEq, Eq)]
pub enum Gate {
    // The pin.
    Buf,
    // The opposite of the pin.
    Not,
    // Every pin is 1.
    And,
    // The opposite of And.
    Nand,
    // Some pin is 1.
    Or,
    // The opposite of Or.
    Nor,
    // An odd number of pins are 1.
    Xor,
    // The opposite of Xor.
    Xnor,
}

// Every gate.
const GATES: [Gate; 8] = [
    Gate::Buf,
    Gate::Not,
    Gate::And,
    Gate::Nand,
    Gate::Or,
    Gate::Nor,
    Gate::Xor,
    Gate::Xnor,
];

impl Gate {
    // The cell word that names it.
    fn word(self) -> &'static [u8]
        ensures { result.now ≡ gate_word self }
    {
        match self {
            Gate::Buf => b"buf",
            Gate::Not => b"not",
            Gate::And => b"and",
            Gate::Nand => b"nand",
            Gate::Or => b"or",
            Gate::Nor => b"nor",
            Gate::Xor => b"xor",
            Gate::Xnor => b"xnor",
        }
    }

    // The first of some gates that a cell word names.
    fn first_named(gates: &[Gate], word: &[u8]) -> Option<Gate>
        ensures { result ≡ find (λ gate. same_word word.now (gate_word gate)) gates.now }
    {
        gates
            .iter()
            .copied()
            .find(|gate| is_same_word(word, gate.word()))
    }

    // The gate that a cell word names, if any.
    pub fn named(word: &[u8]) -> Option<Gate>
        ensures { result ≡ gate_named word.now }
    {
        Gate::first_named(&GATES, word)
    }

    // The table of the gate with so many pins, if it can have them.
    pub fn table(self, pins: usize) -> Option<u16>
        ensures { result ≡ gate_table self pins }
    {
        match (self, pins) {
            (Gate::Buf, 1) => Some(0x2),
            (Gate::Not, 1) => Some(0x1),
            (Gate::And, 2) => Some(0x8),
            (Gate::And, 3) => Some(0x80),
            (Gate::And, 4) => Some(0x8000),
            (Gate::Nand, 2) => Some(0x7),
            (Gate::Nand, 3) => Some(0x7f),
            (Gate::Nand, 4) => Some(0x7fff),
            (Gate::Or, 2) => Some(0xe),
            (Gate::Or, 3) => Some(0xfe),
            (Gate::Or, 4) => Some(0xfffe),
            (Gate::Nor, 2 | 3 | 4) => Some(0x1),
            (Gate::Xor, 2) => Some(0x6),
            (Gate::Xor, 3) => Some(0x96),
            (Gate::Xor, 4) => Some(0x6996),
            (Gate::Xnor, 2) => Some(0x9),
            (Gate::Xnor, 3) => Some(0x69),
            (Gate::Xnor, 4) => Some(0x9669),
            _ => None,
        }
    }
}
