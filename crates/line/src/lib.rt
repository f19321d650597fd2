// Typed lines (02, N5), read: `read` stores the rows of a line and gives how many words they are, or
// says by a `ReadError` why there are none.
//
// It has no `requires`. What it answers, and each lent word afterwards, is an equation with a
// definition of `specs/`.
#![tactic(auto)]

mod answers;
mod figure;
mod reader;
mod reading;
mod steps;

pub use answers::ReadError;
pub use reader::read;
