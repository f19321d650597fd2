// Checking a plan.
ghost use Rattle.std.specs.Prelude.{◌≡◌, ◌≤◌};
ghost use Rattle.plan.specs.Limits.{most_rows};
ghost use Rattle.plan.specs.Rows.{row_count};
ghost use Rattle.plan.specs.Answers.{said_checked};
ghost use Rattle.plan.specs.Check.{rows_verdict, plan_verdict, verdict};

use super::answers::{Refusal, Sizes};
use super::limits::MOST_WORDS;
use super::state::{State, row_step};

// The rows of a plan, over a volume of so many lists.
fn check_rows(plan: &[u32], lists: u32) -> Result<Sizes, Refusal>
    requires { row_count plan.now ≤ most_rows }
    ensures { said_checked result ≡ rows_verdict lists plan.now }
{
    let mut s = State::INITIAL;
    for i in 0..plan.len() / 4 {
        match row_step(plan, i, lists, s) {
            Ok(next) => s = next,
            Err(fault) => return Err(Refusal::Row(fault, i as u32)),
        }
    }
    if s.vars != 0 || s.answers != 1 {
        return Err(Refusal::Unfinished);
    }
    Ok(Sizes {
        patterns: s.patterns,
        vars: s.total,
    })
}

// A plan, over a volume of so many lists.
fn check_plan(plan: &[u32], lists: u32) -> Result<Sizes, Refusal>
    ensures { said_checked result ≡ plan_verdict lists plan.now }
{
    if plan.is_empty() || plan.len() % 4 != 0 || MOST_WORDS < plan.len() {
        return Err(Refusal::Length);
    }
    check_rows(plan, lists)
}

// The number of patterns and of variables of a plan over a volume, or why they are refused.
pub fn check(volume: &[u8], plan: &[u32]) -> Result<Sizes, Refusal>
    ensures { said_checked result ≡ verdict volume.now plan.now }
{
    let sizes = volume::check(volume)?;
    check_plan(plan, sizes.lists)
}
