// The reading of a plan, row by row: a state, and what a row does to it.
ghost use Rattle.std.specs.Prelude.{◌≡◌, false, ◌<◌};
ghost use Rattle.plan.specs.Limits.{most_rows};
ghost use Rattle.plan.specs.Rows.{row_count};
ghost use Rattle.plan.specs.State as state;
ghost use Rattle.plan.specs.Inner.State.{AtMost};

use super::answers::Fault;
use super::kinds::form_wrong;
use super::limits;
use super::row::{Kind, Operator, Predicate, row_at};

// The most variables of a pattern and the most patterns of a plan, as a state counts them.
const MOST_PATTERN_VARS: u32 = limits::MOST_PATTERN_VARS as u32;

const MOST_PATTERNS: u32 = limits::MOST_PATTERNS as u32;

// The state in front of a row.
#[derive(Clone, Copy, Debug, PartialEq, Eq)]
pub struct State {
    // The variables of the open pattern; 0 where none is open. No `Option`: an open pattern has one at
    // least, and the tests compare it with limits.
    pub vars: u32,
    // Whether its conditions have begun.
    pub begun: bool,
    // The patterns so far, without the open one.
    pub patterns: u32,
    // The answers on the stack.
    pub answers: u32,
    // The variables of all patterns so far.
    pub total: u32,
}

impl State {
    // In front of row 0.
    pub const INITIAL: State = State {
        vars: 0,
        begun: false,
        patterns: 0,
        answers: 0,
        total: 0,
    };
}

// Whether a predicate names only variables below n.
fn names_below(predicate: Predicate, n: u32) -> bool
    ensures { result ≡ state.names_below n predicate }
{
    match predicate {
        Predicate::Distance { a, b, .. }
        | Predicate::Ordered { a, b }
        | Predicate::Samepara { a, b }
        | Predicate::Proximity { a, b, .. } => a < n && b < n,
        Predicate::Window { .. } => true,
    }
}

// How many answers an operator takes.
pub fn takes(operator: Operator) -> u32
    ensures { result ≡ state.takes operator }
{
    match operator {
        Operator::Both | Operator::Either | Operator::FirstNotSecond => 2,
        Operator::AtLeast { of, .. } => of,
    }
}

// Whether a row names list 0, or a list that is not below `lists`.
fn list_wrong(kind: Kind, lists: u32) -> bool
    ensures { result ≡ state.list_wrong lists kind }
{
    match kind {
        Kind::Voice(list) => list == 0 || lists <= list,
        _ => false,
    }
}

// Whether a row is a ninth variable, or would open a ninth pattern.
fn too_many(kind: Kind, s: State) -> bool
    ensures { result ≡ state.too_many s kind }
{
    match kind {
        Kind::Voice(_) => {
            MOST_PATTERN_VARS <= s.vars || (s.vars == 0 && MOST_PATTERNS <= s.patterns)
        }
        _ => false,
    }
}

// Whether a row may not stand here, or names a variable that is not there.
fn order_wrong(kind: Kind, s: State) -> bool
    ensures { result ≡ state.order_wrong s kind }
{
    match kind {
        Kind::Voice(_) => s.begun,
        Kind::Condition(predicate) => s.vars == 0 || !names_below(predicate, s.vars),
        Kind::End => s.vars == 0,
        Kind::Operator(operator) => s.vars != 0 || s.answers < takes(operator),
    }
}

// The state behind a row that may stand here.
fn after(kind: Kind, s: State) -> State
    requires at_most { AtMost most_rows s }
    requires kind_value { state.order_wrong s kind ≡ false }
    ensures { result ≡ state.after s kind }
{
    match kind {
        Kind::Voice(_) => State {
            vars: s.vars + 1,
            total: s.total + 1,
            ..s
        },
        Kind::Condition(_) => State { begun: true, ..s },
        Kind::End => State {
            vars: 0,
            begun: false,
            patterns: s.patterns + 1,
            answers: s.answers + 1,
            ..s
        },
        Kind::Operator(operator) => State {
            answers: s.answers + 1 - takes(operator),
            ..s
        },
    }
}

// What row i of a plan does to a state, over a volume of so many lists.
pub fn row_step(plan: &[u32], i: usize, lists: u32, s: State) -> Result<State, Fault>
    requires i_bound { i < row_count plan.now }
    requires at_most { AtMost most_rows s }
    ensures { result ≡ state.step lists s plan.now i }
{
    let at = 4 * i;
    if form_wrong(plan[at], plan[at + 1], plan[at + 2], plan[at + 3]) {
        return Err(Fault::Form);
    }
    let kind = row_at(plan, i).kind;
    if list_wrong(kind, lists) {
        return Err(Fault::List);
    }
    if too_many(kind, s) {
        return Err(Fault::TooMany);
    }
    if order_wrong(kind, s) {
        return Err(Fault::Order);
    }
    Ok(after(kind, s))
}
