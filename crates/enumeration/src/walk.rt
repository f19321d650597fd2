// What the search for the matches of a pattern in a document reads, and where it has come to.
use matcher::{Cursor, Document};
use plan::{MOST_PATTERN_VARS, Outline, Query};

// A pattern of an accepted plan and a document: what each step of the search reads. What holds of
// it is `SoughtIn`, which gives a turn for each variable: no proposition, and so no ghost field.
#[derive(Clone, Copy)]
pub struct PatternInDocument<'a> {
    pub query: Query<'a>,
    // Where the pattern lies in the plan.
    pub outline: Outline,
    pub document: Document,
    // The variables, each once: the order in which they are brought to their bounds.
    pub order: [usize; MOST_PATTERN_VARS],
    // For each variable a cursor on its list, at the first posting in the document or a later one.
    pub firsts: [Cursor; MOST_PATTERN_VARS],
}

// Where the search has come to, for each variable.
#[derive(Drop)]
pub struct Walk {
    // Its bound: the matches that are left do not come before these positions.
    pub lows: [u32; MOST_PATTERN_VARS],
    // A place in its list, with no posting of the document at its bound or behind in front of it.
    pub marks: [Cursor; MOST_PATTERN_VARS],
    // Its cursor, and the position at which that stands.
    pub here: [Cursor; MOST_PATTERN_VARS],
    pub positions: [u32; MOST_PATTERN_VARS],
    // Where the start of its paragraph was found last.
    pub paras: [usize; MOST_PATTERN_VARS],
}
