// Sheets read into a draft.
ghost use Rattle.std.specs.Prelude.{◌≡◌};
ghost use Rattle.network.specs.Drafts.{sketch};
ghost use Rattle.network.specs.Sketches.{empty};
ghost use Rattle.grammar.specs.Views.{views};
ghost use Rattle.drawing.specs.Drawing.{then, sealable};
ghost use Rattle.drawing.specs.Faults.{answered};
ghost use Rattle.drawing.specs.Fits.{FitAll};
ghost use Rattle.drawing.specs.Naming.{NamedByForms};
ghost use Rattle.drawing.specs.Pictures.{blank, drawn_by};
ghost use Rattle.drawing.specs.Reading.{SheetRead, OnlyAnswer};

use crate::fault::{SheetFault, at};
use crate::pen::{Pen, Stack};
use families::family::Family;
use grammar::room::Room;
use grammar::word::Word;
use names::name::Name;
use network::draft::Draft;

// Draws the words, one after another, into an empty draft.
fn draw_words<F: Family>(draft: &mut Draft, family: &F, words: &[Word]) -> Result<(), SheetFault>
    requires blank { sketch draft.old ≡ empty }
    requires fit { FitAll (F.Family.assigns family.now) blank (views words.now) }
    ensures { drawn_by (F.Family.assigns family.now) (views words.now) ≡ answered result (sketch draft.new) }
{
    let mut pen = Pen {
        stack: Stack::new(),
        name: Name::of(b""),
    };
    for word in words {
        pen.draw_word(draft, family, *word)?;
    }
    Ok(())
}

// Draws the words of a sheet that ends at that place, where the draft can then be sealed.
fn draw_sealable<F: Family>(
    draft: &mut Draft,
    family: &F,
    words: &[Word],
    end: usize,
) -> Result<(), SheetFault>
    requires blank { sketch draft.old ≡ empty }
    requires fit { FitAll (F.Family.assigns family.now) blank (views words.now) }
    ensures { then (drawn_by (F.Family.assigns family.now) (views words.now)) (sealable end) ≡ answered result (sketch draft.new) }
{
    draw_words(draft, family, words)?;
    at(draft.check_seal(), end)?;
    Ok(())
}

// Reads a sheet into the draft, which it empties first, and again where it refuses the sheet.
// The grammar is checked over the whole sheet before anything is drawn.
pub fn read_sheet<'a, F: Family>(
    draft: &mut Draft,
    family: &F,
    room: Room<'a>,
    sheet: &'a [u8],
) -> Result<(), SheetFault>
    ensures read { SheetRead (F.Family.assigns family.now) sheet.now result (sketch draft.new) }
    ensures only { OnlyAnswer (F.Family.assigns family.now) sheet.now (answered result (sketch draft.new)) }
    ensures names { NamedByForms sheet.now result (sketch draft.new) }
{
    draft.clear();
    let words = room.read(sheet)?;
    let drawn = draw_sealable(draft, family, words.as_slice(), sheet.len());
    if drawn.is_err() {
        draft.clear();
    }
    drawn
}
