// The rows of a plan.
ghost use Rattle.std.specs.Prelude.{◌≡◌, false, ◌<◌, ◌≤◌};
ghost use Rattle.plan.specs.Limits.{last_kind};
ghost use Rattle.plan.specs.Rows.{row_count, row_of, row_at, form_wrong_at};

use super::limits::LEAST_UNIT;

// A position predicate (01: condition) on the variables of a pattern, which are numbered from 0.
#[derive(Clone, Copy, Debug, PartialEq, Eq)]
pub enum Predicate {
    // NEAR: at most `limit` positions lie between a and b.
    Distance {
        a: u32,
        b: u32,
        limit: u32,
    },
    // BEFORE: a stands in front of b.
    Ordered {
        a: u32,
        b: u32,
    },
    // SAME TITLE: a and b stand in one paragraph.
    Samepara {
        a: u32,
        b: u32,
    },
    // SPAN: all variables stand within `limit` positions.
    Window {
        limit: u32,
    },
    // APART: a stands in front of b, with `least` to `most` positions between them, both counted in;
    // a `most` of 65,535 sets no upper end.
    Proximity {
        a: u32,
        b: u32,
        least: u16,
        most: u16,
    },
}

// What makes one answer of several.
#[derive(Clone, Copy, Debug, PartialEq, Eq)]
pub enum Operator {
    Both,
    Either,
    FirstNotSecond,
    // AT LEAST: `least` or more of the top `of` answers.
    AtLeast { least: u32, of: u32 },
}

#[derive(Clone, Copy, Debug, PartialEq, Eq)]
pub enum Kind {
    // A variable (01: voice) over this list.
    Voice(u32),
    Condition(Predicate),
    // The end of a pattern (01: figure).
    End,
    Operator(Operator),
}

#[derive(Clone, Copy, Debug, PartialEq, Eq)]
pub struct Row {
    pub kind: Kind,
}

// The row of four words, of a kind that there is. Document 01 numbers the kinds (`kind_of` of
// `specs/Rows.antt`). A `TryFrom` would test the form of each row again where it is known.
pub fn row_of(kind: u32, a: u32, b: u32, c: u32) -> Row
    requires le_kind { 1 ≤ kind }
    requires kind_le_last_kind { kind ≤ last_kind }
    ensures { result ≡ row_of kind a b c }
{
    let kind = match kind {
        1 => Kind::Voice(a),
        2 => Kind::Condition(Predicate::Distance { a, b, limit: c }),
        3 => Kind::Condition(Predicate::Ordered { a, b }),
        4 => Kind::Condition(Predicate::Samepara { a, b }),
        5 => Kind::Condition(Predicate::Window { limit: c }),
        6 => Kind::End,
        7 => Kind::Operator(Operator::Both),
        8 => Kind::Operator(Operator::Either),
        9 => Kind::Operator(Operator::FirstNotSecond),
        10 => Kind::Condition(Predicate::Proximity {
            a,
            b,
            least: (c / LEAST_UNIT) as u16,
            most: (c % LEAST_UNIT) as u16,
        }),
        11 => Kind::Operator(Operator::AtLeast { least: a, of: b }),
        _ => unreachable!(),
    };
    Row { kind }
}

// Row i of a plan, whose form is right.
pub fn row_at(plan: &[u32], i: usize) -> Row
    requires i_bound { i < row_count plan.now }
    requires i_value { form_wrong_at plan.now i ≡ false }
    ensures { result ≡ row_at plan.now i }
{
    let at = 4 * i;
    row_of(plan[at], plan[at + 1], plan[at + 2], plan[at + 3])
}
