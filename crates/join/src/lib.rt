// Joining two volumes into one (02: double bill).
//
// `join` has no `requires`. It gives the number of blocks of the joined volume, or a `JoinError`;
// what it answers and what it leaves in the lent output are equations with definitions of `specs/`.
// Each volume is checked once. `docs` finds their documents from the first and the last posting of
// each list; a volume without a posting has none. The joined volume is then made block by block:
// `reading` brings the next words of its stream from the two volumes (`sources`) into a buffer of
// one block, and the writer of `volume` stores them (`volume::put_made`).
#![tactic(auto)]

mod answers;
mod docs;
mod joining;
mod reading;
mod sources;

pub use answers::JoinError;
pub use joining::join;
