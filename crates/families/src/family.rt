// What a family is.
ghost use Rattle.std.specs.Prelude.{◌≡◌};
ghost use Rattle.families.specs.Tables.{Tables, LawfulTables};

// A family of cells: one table, or nothing, for each cell word and number of pins.
pub trait Family {
    // What it assigns.
    ghost assigns: { Self → Tables };

    // The table for a word and a number of pins.
    fn table(&self, word: &[u8], pins: usize) -> Option<u16>
        ensures { result ≡ assigns self.now word.now pins };

    // Nothing outside 1 to 4 pins, and no bit past the rows.
    ghost lawful: { (family : Self) → LawfulTables (assigns family) };
}
