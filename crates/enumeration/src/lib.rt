// Every match of a pattern in one document, in order.
//
// `matches` has no `requires`; what it answers, with the match that it names, and each word that it
// leaves in the lent buffer are equations with definitions of `specs/`. That calls one after
// another, each from the match that the last one names, write every match once and in order is
// `Enumerates` in `specs/Demands.antt`.
//
// No product of positions is walked. `walk` has what the search for the matches reads
// (`PatternInDocument`), and where it has come to (`Walk`). `attempts` looks for the least match
// that is in no variable below its bound and has its first variables at their bounds
// (`matcher::match_from`). It brings the rarest variable there first: an attempt ends at the first
// one that has no such position. Where there is no match, `next` moves the bounds on, as an
// odometer carries. `enumerate` writes match by match.
#![tactic(auto)]

mod answers;
mod attempts;
mod enumerate;
mod next;
mod walk;

pub use answers::{MatchError, Matches};
pub use enumerate::matches;
