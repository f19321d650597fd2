// The answer of a plan in one document, by a stack of answers that are the bits of a number.
ghost use Rattle.std.specs.Prelude.{◌≡◌, Bool, List, ℕ, ◌<◌, ◌≤◌, Some, length, set};
ghost use Rattle.plan.specs.declared.row.Kind.TheVariants as kind;
ghost use Rattle.plan.specs.Rows.{rows_of, InRange};
ghost use Rattle.plan.specs.State as state;
ghost use Rattle.plan.specs.Patterns as patterns;
ghost use Rattle.plan.specs.Patterns.{Pattern, answer};
ghost use Rattle.plan.specs.Check.{Accepted};
ghost use Rattle.plan.specs.Inner.Stack as bits;
ghost use Rattle.plan.specs.Inner.Stack.{bits_of, found_bits, Remembers};

use super::row::{Kind, Operator, row_at};
use super::state::takes;

// Whether an operator answers yes to the bits of the answers that it takes, the top one the lowest.
fn joins(operator: Operator, taken: u32) -> bool
    ensures { result ≡ bits.joins operator taken }
{
    match operator {
        Operator::Both => taken == 3,
        Operator::Either => taken != 0,
        Operator::FirstNotSecond => taken == 2,
        Operator::AtLeast { least, .. } => least <= taken.count_ones(),
    }
}

// The bits of some answers, the top one the lowest, behind an operator: those that it takes are
// masked, and its own answer stands in for them.
fn operate(operator: Operator, stack: u32) -> u32
    requires { InRange (kind.Operator operator) }
    ensures { (ts : List Bool) → state.takes operator ≤ length ts → stack ≡ bits_of ts
        → result ≡ bits_of (patterns.operate operator ts) }
{
    let count = takes(operator);
    let taken = stack & ((1 << count) - 1);
    (stack >> count) * 2 + u32::from(joins(operator, taken))
}

// The one answer left, where `bits` has a bit for each pattern, the first one the lowest: 1 if it is
// found and 0 if not.
fn answer_by_rows(plan: &[u32], bits: u32) -> bool
    requires { (v : List ℕ) × Accepted v plan.now }
    ensures { (found : Pattern → Bool) → bits ≡ found_bits found plan.now
        → result ≡ answer found (rows_of plan.now) }
{
    let mut stack: u32 = 0;
    let mut rest = bits;
    for i in 0..plan.len() / 4 {
        match row_at(plan, i).kind {
            Kind::Voice(_) | Kind::Condition(_) => {}
            Kind::End => {
                stack = stack * 2 + rest % 2;
                rest /= 2;
            }
            Kind::Operator(operator) => {
                stack = operate(operator, stack);
            }
        }
    }
    stack % 2 == 1
}

// The same, with the rows read once for each set of found patterns: `known` has the answer of each
// set for which they were read.
pub fn answer_of(plan: &[u32], bits: u32, known: &mut [Option<bool>]) -> bool
    requires by_index { (v : List ℕ) × Accepted v plan.now }
    requires remembers { Remembers plan.now known.old }
    requires bits_in_bounds { bits < length known.old }
    ensures value { (found : Pattern → Bool) → bits ≡ found_bits found plan.now
        → result ≡ answer found (rows_of plan.now) }
    ensures known_after { known.new ≡ set known.old bits (Some result) }
{
    let at = bits as usize;
    if let Some(yes) = known[at] {
        return yes;
    }
    let yes = answer_by_rows(plan, bits);
    known[at] = Some(yes);
    yes
}
