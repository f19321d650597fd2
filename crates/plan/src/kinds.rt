// The words that rows of each kind use.
ghost use Rattle.std.specs.Prelude.{◌≡◌, ℕ, ◌≤◌};
ghost use Rattle.plan.specs.Limits.{last_kind};
ghost use Rattle.plan.specs.Rows.{kind_of, uses_of, misused, pair_wrong, form_wrong};
ghost use Rattle.plan.specs.Rows as rows;

use super::limits::{LAST_KIND, LEAST_TAKEN, MOST_TAKEN};
use super::row::{Kind, Operator, Predicate, row_of};

// Whether a, b and c are used, and the range of c; 0 to 0 where c is not used.
#[derive(Clone, Copy, Debug, PartialEq, Eq)]
pub struct Uses {
    pub a: bool,
    pub b: bool,
    pub c: bool,
    pub least: u32,
    pub most: u32,
}

// What the kinds use: nothing, a alone, and a and b.
const NOTHING: Uses = Uses {
    a: false,
    b: false,
    c: false,
    least: 0,
    most: 0,
};

const A: Uses = Uses { a: true, ..NOTHING };

const A_AND_B: Uses = Uses { b: true, ..A };

// All three words, with these ranges of c.
const NEAR: Uses = Uses {
    c: true,
    most: 65535,
    ..A_AND_B
};

const APART: Uses = Uses {
    most: u32::MAX,
    ..NEAR
};

// c alone.
const SPAN: Uses = Uses {
    c: true,
    least: 1,
    most: 65536,
    ..NOTHING
};

// Of each kind, in order.
const KINDS: [Uses; LAST_KIND as usize] = [
    A, // 1 VOICE
    NEAR, // 2 NEAR
    A_AND_B, // 3 BEFORE
    A_AND_B, // 4 SAME TITLE
    SPAN, // 5 SPAN
    NOTHING, // 6 END
    NOTHING, // 7 BOTH
    NOTHING, // 8 EITHER
    NOTHING, // 9 FIRST NOT SECOND
    APART, // 10 APART
    A_AND_B, // 11 AT LEAST
];

// What rows of a kind use.
fn used_by(kind: u32) -> Uses
    requires le_kind { 1 ≤ kind }
    requires kind_le_last_kind { kind ≤ last_kind }
    ensures { (a b c : ℕ) → result ≡ uses_of (kind_of kind a b c) }
{
    KINDS[kind as usize - 1]
}

// Whether a word that is not used is not 0.
fn stray(used: bool, word: u32) -> bool
    ensures { result ≡ rows.stray used word }
{
    !used && word != 0
}

// Whether the words are not as a kind uses them: one that is not used is not 0, or c is out of its
// range.
#[tactic(auto, unfolding(crate::specs::Rows::misused))]
fn misused(used: Uses, a: u32, b: u32, c: u32) -> bool
    ensures { result ≡ misused used a b c }
{
    stray(used.a, a) || stray(used.b, b) || stray(used.c, c) || c < used.least || used.most < c
}

// Whether the numbers that a row carries do not fit each other: the least of APART exceeds its most,
// or AT LEAST asks for none, for more than it takes, or takes fewer than two or more than eight.
fn pair_wrong(kind: Kind) -> bool
    ensures { result ≡ pair_wrong kind }
{
    match kind {
        Kind::Condition(Predicate::Proximity { least, most, .. }) => most < least,
        Kind::Operator(Operator::AtLeast { least, of }) => {
            least < 1 || of < least || of < LEAST_TAKEN || MOST_TAKEN < of
        }
        _ => false,
    }
}

// Whether four words are no row: the kind is unknown, a word that it does not use is not 0, c is out
// of its range, or its numbers do not fit each other.
pub fn form_wrong(kind: u32, a: u32, b: u32, c: u32) -> bool
    ensures { result ≡ form_wrong kind a b c }
{
    // Behind this test the kind is known, which `used_by` and `row_of` require.
    if kind < 1 || LAST_KIND < kind {
        return true;
    }
    misused(used_by(kind), a, b, c) || pair_wrong(row_of(kind, a, b, c).kind)
}
