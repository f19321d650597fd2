// Query plans: rows of four words over the lists of a volume. `check` gives the number of a plan's
// patterns and variables or says why it is refused, `Query::open` keeps a volume and a plan that are
// accepted, `pattern_rows` gives a pattern's own rows, and `code_of` gives the number and the place
// of a refusal.
//
// None of them has a `requires`, nor has `pattern_span`. What each function answers is an equation
// with a definition of `specs/`. `row_at`, `list_at`, `predicate_at`, `lay_out` and `answer_of` serve
// the crates above, on a plan that they have checked, and so does `is_voice`, on any row.
#![tactic(auto)]

mod answers;
mod checking;
mod codes;
mod kinds;
mod limits;
mod outline;
mod query;
mod reading;
mod row;
mod showing;
mod stack;
mod state;

pub use answers::{Fault, Refusal, Sizes};
pub use checking::check;
pub use codes::code_of;
pub use limits::{
    LEAST_UNIT, MOST_FOUND_SETS, MOST_PATTERN_VARS, MOST_PATTERNS, MOST_VARS, MOST_WORDS, row_words,
};
pub use outline::{Outline, lay_out};
pub use query::Query;
pub use reading::{is_voice, list_at, predicate_at};
pub use row::{Kind, Operator, Predicate, Row, row_at};
pub use showing::{Span, pattern_rows, pattern_span};
pub use stack::answer_of;
