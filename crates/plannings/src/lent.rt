use crate::kept::Kept;
use rows::rows::Rows;

// The memory that is lent to a planning, and what is kept besides. Between two writes of a call it is not ready for the next one,
// so no field here says that it is: the calls ask for it, and the type of the planning around it keeps it.
#[derive(Drop)]
pub struct Lent<'a> {
    pub rows: Rows<'a>,
    pub kept: Kept,
}
