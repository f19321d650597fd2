// Typed lines (02, N5 and N9): `specs/` has their grammar, their text and what they say, and `proofs/` the
// laws. The code has the words of the grammar alone.
#![tactic(auto)]

mod tokens;

pub use tokens::{Connective, Word};
