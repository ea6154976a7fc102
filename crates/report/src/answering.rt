// A sheet answered: from its bytes to the bytes that are printed.
ghost use Rattle.std.specs.Prelude.{◌≡◌, IfOk};
ghost use Rattle.network.specs.Drafts.{sketch};
ghost use Rattle.network.specs.Sketches.{empty};
ghost use Rattle.report.specs.Answers.{Answered};

use crate::desk::Desk;
use crate::forms::Forms;
use crate::plan::Plan;
use crate::text::Text;
use drawing::read::read_sheet;
use families::family::Family;
use grammar::room::Room;
use lines::limits::MAX_LINES;
use network::draft::Draft;
use runs::room::Room as Replies;
use std::alloc::{AllocError, Global};

impl<'a> Desk<'a> {
    // Asks for the memory. Only this call can meet want of it.
    pub fn new(heap: Global) -> Result<Desk<'a>, AllocError>
        ensures { IfOk result (λ desk. sketch desk.draft ≡ empty) }
    {
        let room = Room::new(heap)?;
        let draft = Draft::new(heap)?;
        let plan = Plan::new(heap)?;
        let ceilings = vec![in heap; None; 2 * MAX_LINES]?;
        let replies = Replies::reserve(heap, MAX_LINES)?;
        let text = Text::new(heap)?;
        let forms = Forms {
            plan,
            ceilings,
            replies,
            text,
        };
        Ok(Desk { room, draft, forms })
    }

    // The answer to a sheet that is drawn with the family.
    pub fn answer<F: Family>(self, family: &F, sheet: &'a [u8]) -> Vec<u8>
        ensures { Answered (F.Family.assigns family.now) sheet.now result.items }
    {
        let Desk {
            room,
            mut draft,
            forms,
        } = self;
        let text = match read_sheet(&mut draft, family, room, sheet) {
            Err(fault) => {
                let mut text = forms.text;
                text.push_refused(fault.number(), fault.place());
                text
            }
            Ok(()) => forms.answer(draft.seal()),
        };
        text.bytes
    }
}
