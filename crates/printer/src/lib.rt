// Typed lines (02, N5), written: `write` gives the line of a plan, with no round bracket that could
// be dropped.
//
// It has no `requires`. What it answers, and each lent byte afterwards, is an equation with a
// definition of `specs/`.
#![tactic(auto)]

mod answers;
mod bytes;
mod patterns;
mod trees;
mod writer;

pub use answers::WriteError;
pub use writer::write;
