// The readers of a sheet's parts. Each moves the reader over its part and keeps the words of it, or says where no sheet is possible.
ghost use Rattle.std.specs.Prelude.{◌≡◌, ℕ, ◌+◌, ◌<◌, ◌≤◌, List, [], ◌∷◌, ◌++◌, length, codes, Ok, Err, MatchResult};
ghost use Rattle.sheets.specs.Sheet.{Name, CellWord, Delay};
ghost use Rattle.sheets.specs.Words.{SheetWord, closes};
ghost use Rattle.sheets.specs.Recogniser.{Item, bytes_then, most_open};
ghost use Rattle.grammar.specs.Readers.{at, WordKept};
ghost use Rattle.grammar.specs.declared.fault.GrammarFault.TheVariants.{Broken};
ghost use Rattle.grammar.specs.Readings.{rest, Took, NextIs, NotHere, Stops, Fails, WordRead, head_items, HeadRead, CellRead, PinRead, PinsRead, start_items, StartRead, end_items, EndRead, input_items, line_items, NoForms, FormRead, AllRead};
ghost use Rattle.grammar.specs.Views.{opened, view, views};

use crate::fault::GrammarFault;
use crate::read::MAX_DEPTH;
use crate::reader::Reader;
use crate::scan::{byte_len, cell_word_len, delay_len, name_len};
use crate::word::{Opening, Word};

impl<'a> Reader<'a> {
    // What is not read yet.
    fn rest(&self) -> &'a [u8]
        ensures { result.now ≡ rest (at self.now) }
    {
        &self.sheet[self.place..]
    }

    // Whether this is the next byte.
    fn next_is(&self, byte: u8) -> bool
        ensures { NextIs byte (at self.now) result }
    {
        self.rest().first() == Some(&byte)
    }

    // Keeps the word that is made of the next bytes, as many as were found, and moves past them; or breaks where none could go on.
    fn word<F: FnOnce(&'a [u8], usize) -> Word<'a>>(
        &mut self,
        found: Result<usize, usize>,
        make: F,
    ) -> Result<(), GrammarFault>
        requires there { MatchResult found (λ len. (1 ≤ len) × (self.old.place + len ≤ length self.old.sheet.now)) (λ most. self.old.place + most ≤ length self.old.sheet.now) }
        requires made { F.IsAlwaysCallable make }
        ensures { MatchResult result (λ _. (len : ℕ) × (found ≡ Ok len) × WordKept (λ part place word. F.post make part place word) len (at self.old) (at self.new)) (λ f. (most : ℕ) × (found ≡ Err most) × (f ≡ Broken (self.old.place + most))) }
    {
        let place = self.place;
        let len = found.map_err(|most| GrammarFault::Broken {
            place: place + most,
        })?;
        let word = make(&self.rest()[..len], place);
        self.words.push_reserved(word);
        self.place += len;
        Ok(())
    }

    // This byte, which is no word.
    fn expect(&mut self, byte: u8) -> Result<(), GrammarFault>
        ensures { MatchResult result (λ _. Took (byte ∷ []) [] (at self.old) (at self.new)) (λ f. NotHere byte (at self.old) f) }
    {
        if !self.next_is(byte) {
            return Err(GrammarFault::Broken { place: self.place });
        }
        self.place += 1;
        Ok(())
    }

    // An opening bracket.
    fn opening(&mut self, opens: Opening) -> Result<(), GrammarFault>
        ensures { MatchResult result (λ _. Took (codes "(") (opened opens (codes "(") self.old.place ∷ []) (at self.old) (at self.new)) (λ f. NotHere 40 (at self.old) f) }
    {
        self.word(byte_len(self.rest(), b'('), |part, place| {
            Word::Open(opens, part, place)
        })
    }

    // A closing bracket.
    fn close(&mut self) -> Result<(), GrammarFault>
        ensures { MatchResult result (λ _. Took (codes ")") (closes self.old.place ∷ []) (at self.old) (at self.new)) (λ f. NotHere 41 (at self.old) f) }
    {
        self.word(byte_len(self.rest(), b')'), Word::Close)
    }

    fn name(&mut self) -> Result<(), GrammarFault>
        ensures { MatchResult result (λ _. WordRead Name Item.name SheetWord.name (at self.old) (at self.new)) (λ f. Fails (λ s. Item.name ∷ s) (at self.old) f) }
    {
        self.word(name_len(self.rest()), Word::Name)
    }

    fn cell_word(&mut self) -> Result<(), GrammarFault>
        ensures { MatchResult result (λ _. WordRead CellWord (Item.word 7) SheetWord.cell_word (at self.old) (at self.new)) (λ f. Fails (λ s. Item.word 7 ∷ s) (at self.old) f) }
    {
        self.word(cell_word_len(self.rest()), Word::CellWord)
    }

    fn delay(&mut self) -> Result<(), GrammarFault>
        ensures { MatchResult result (λ _. WordRead Delay Item.delay SheetWord.delay (at self.old) (at self.new)) (λ f. Fails (λ s. Item.delay ∷ s) (at self.old) f) }
    {
        self.word(delay_len(self.rest()), Word::Delay)
    }

    // The cell word and the delay of a cell.
    fn head(&mut self) -> Result<(), GrammarFault>
        ensures { MatchResult result (λ _. HeadRead (at self.old) (at self.new)) (λ f. Fails head_items (at self.old) f) }
    {
        self.cell_word()?;
        self.expect(b' ')?;
        self.delay()
    }

    // A cell, with room for so many cells in one another.
    #[cycle(cell_pin_pins)]
    fn cell(&mut self, room: usize) -> Result<(), GrammarFault>
        ensures { MatchResult result (λ _. CellRead room (at self.old) (at self.new)) (λ f. Stops (λ s. Item.cell ∷ s) room (at self.old) f) }
    {
        let at = self.place;
        self.opening(Opening::Cell)?;
        if room == 0 {
            return Err(GrammarFault::TooDeep { place: at });
        }
        self.head()?;
        self.expect(b' ')?;
        self.pin(room - 1)?;
        self.pins(room - 1, 3)
    }

    // A pin: a name or again a cell.
    #[cycle(cell_pin_pins)]
    fn pin(&mut self, room: usize) -> Result<(), GrammarFault>
        ensures { MatchResult result (λ _. PinRead room (at self.old) (at self.new)) (λ f. Stops (λ s. Item.pin ∷ s) room (at self.old) f) }
    {
        if self.next_is(b'(') {
            self.cell(room)
        } else {
            self.name()
        }
    }

    // At most so many pins more, each after a space, and the closing bracket.
    #[cycle(cell_pin_pins)]
    fn pins(&mut self, room: usize, more: usize) -> Result<(), GrammarFault>
        ensures { MatchResult result (λ _. PinsRead room more (at self.old) (at self.new)) (λ f. Stops (λ s. Item.pins more ∷ s) (room + 1) (at self.old) f) }
    {
        if self.next_is(b')') {
            return self.close();
        }
        if more == 0 {
            return Err(GrammarFault::Broken { place: self.place });
        }
        self.expect(b' ')?;
        self.pin(room)?;
        self.pins(room, more - 1)
    }

    // These bytes, which are no word.
    fn literal(&mut self, bytes: &[u8]) -> Result<(), GrammarFault>
        ensures { MatchResult result (λ _. Took bytes.now [] (at self.old) (at self.new)) (λ f. Fails (bytes_then bytes.now) (at self.old) f) }
    {
        for b in bytes {
            self.expect(*b)?;
        }
        Ok(())
    }

    // The start of a form: its opening bracket, its word and its name, and the space after it.
    fn form_start(&mut self, opens: Opening, word: &[u8]) -> Result<(), GrammarFault>
        ensures { MatchResult result (λ _. StartRead opens word.now (at self.old) (at self.new)) (λ f. Fails (start_items word.now) (at self.old) f) }
    {
        self.opening(opens)?;
        self.literal(word)?;
        self.name()?;
        self.expect(b' ')
    }

    // The end of a form on its line.
    fn form_end(&mut self) -> Result<(), GrammarFault>
        ensures { MatchResult result (λ _. EndRead (at self.old) (at self.new)) (λ f. Stops end_items most_open (at self.old) f) }
    {
        self.close()?;
        self.expect(b'\n')
    }

    fn input_form(&mut self) -> Result<(), GrammarFault>
        ensures { MatchResult result (λ _. FormRead (at self.old) (at self.new)) (λ f. Stops input_items most_open (at self.old) f) }
    {
        self.form_start(Opening::Input, b"input ")?;
        self.delay()?;
        self.form_end()
    }

    fn line_form(&mut self) -> Result<(), GrammarFault>
        ensures { MatchResult result (λ _. FormRead (at self.old) (at self.new)) (λ f. Stops line_items most_open (at self.old) f) }
    {
        self.form_start(Opening::Line, b"line ")?;
        self.cell(MAX_DEPTH)?;
        self.form_end()
    }

    // A form on its line, where something is left to read.
    fn form(&mut self) -> Result<(), GrammarFault>
        requires { self.old.place < length self.old.sheet.now }
        ensures { MatchResult result (λ _. FormRead (at self.old) (at self.new)) (λ f. NoForms (at self.old) f) }
    {
        match self.rest() {
            [_, b'l', ..] => self.line_form(),
            _ => self.input_form(),
        }
    }

    // All forms: the words of the whole sheet.
    pub(crate) fn forms(mut self) -> Result<Vec<Word<'a>>, GrammarFault>
        ensures { MatchResult result (λ words. AllRead (at self.entry) (views words.items)) (λ f. NoForms (at self.entry) f) }
    {
        while self.place < self.sheet.len() {
            self.form()?;
        }
        Ok(self.words)
    }
}
