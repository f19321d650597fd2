// One pattern in one document: cursors on posting lists, position predicates, the least match, and
// testing given positions.
//
// `test` has no `requires`; what it answers is an equation with a definition of `specs/`. The others
// serve the crates above, on a volume that they have checked (`volume::Volume`) and a plan over it:
// cursors and their moves, the order of a pattern's variables (`rarest_first`), its least match in a
// document (`match_from`), the start of a position's paragraph (`para_near`, by an `OpenDocument`),
// and `jump`, `put_row` and `in_document`.
#![tactic(auto)]

mod answers;
mod cursor;
mod least;
mod paragraphs;
mod predicates;
mod rarest;
mod store;
mod testing;

pub use answers::TestError;
pub use cursor::{Cursor, Document, OpenDocument, Reached, list_cursor, starts_of};
pub use least::{jump, match_from};
pub use paragraphs::{Blocks, ParaInBlock, blocks_of, para_near};
pub use rarest::rarest_first;
pub use store::put_row;
pub use testing::{in_document, test};
