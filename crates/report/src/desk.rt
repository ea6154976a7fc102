// The memory for the answer to one sheet.
use crate::forms::Forms;
use grammar::room::Room;
use network::draft::Draft;

// Room for the words of a sheet, for its lines, and for the answer of its line forms.
#[derive(Drop)]
pub struct Desk<'a> {
    pub(crate) room: Room<'a>,
    pub(crate) draft: Draft,
    pub(crate) forms: Forms,
}
