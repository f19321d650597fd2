// What the conditions of a typed line are made of, and what joins its answers.

// What a condition begins with: one letter for each kind of condition.
#[derive(Clone, Copy, Debug, PartialEq, Eq)]
pub enum Word {
    // `n`: NEAR
    Near,
    // `b`: BEFORE
    Before,
    // `t`: SAME TITLE
    Same,
    // `s`: SPAN
    Span,
    // `a`: APART
    Apart,
}

// What joins two answers: one byte for each.
#[derive(Clone, Copy, Debug, PartialEq, Eq)]
pub enum Connective {
    // `&`: BOTH
    And,
    // `|`: EITHER
    Or,
    // `!`: FIRST NOT SECOND
    AndNot,
}
