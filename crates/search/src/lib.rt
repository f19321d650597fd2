// Searching a volume by a plan: testing given positions of a pattern, and listing the true
// documents.
//
// `test` and `list` have no `requires`; what each one answers, and each word that `list` leaves in
// the lent buffer, is an equation with a definition of `specs/`. That every search by `list` is
// right as a whole is demand 3 in `specs/Demands.antt`.
//
// `list` is one forward pass: `setup` places a cursor for each variable. `walk::visit` brings each
// pattern to the next document in which it can be found (`align`) and settles it there
// (`matcher::match_from`). `listing` asks the plan's answer for the patterns found
// (`plan::answer_of`), and `rows` writes the row of a true document into the buffer.
#![tactic(auto)]

mod align;
mod answers;
mod listing;
mod rows;
mod setup;
mod walk;

pub use answers::{ListError, Listing};
pub use listing::list;
pub use matcher::{TestError, test};
