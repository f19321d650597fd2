// Where each pattern of a plan lies: its rows, and its variables among those of the plan.
ghost use Rattle.std.specs.Prelude.{◌≡◌, List, ℕ, ◌≤◌, length};
ghost use Rattle.plan.specs.Check.{Accepted, sizes};
ghost use Rattle.plan.specs.Inner.Outline.{Tabled};

use super::reading::{first_of, is_voice};
use super::showing::span_at;

// A pattern's number, its first variable among those of the plan, how many it has, the row of its
// first condition, and that of its END.
#[derive(Clone, Copy, Debug, PartialEq, Eq)]
pub struct Outline {
    pub pattern: usize,
    pub first: usize,
    pub vars: usize,
    pub condition: usize,
    pub last: usize,
}

impl Outline {
    // What stands in a table where no pattern is laid out.
    pub const NONE: Outline = Outline {
        pattern: 0,
        first: 0,
        vars: 0,
        condition: 0,
        last: 0,
    };
}

// The outlines of a plan's patterns, pattern k as entry k.
pub fn lay_out(plan: &[u32], patterns: usize, table: &mut [Outline])
    requires by_index { (v : List ℕ) × Accepted v plan.now }
    requires patterns_value { patterns ≡ (sizes plan.now).patterns }
    requires patterns_in_bounds { patterns ≤ length table.old }
    ensures { Tabled plan.now table.new }
{
    let mut first: usize = 0;
    for pattern in 0..patterns {
        let span = span_at(plan, pattern);
        let voice = span.start / 4;
        let condition = first_of(plan, voice, |kind| !is_voice(kind));
        let vars = condition - voice;
        table[pattern] = Outline {
            pattern,
            first,
            vars,
            condition,
            last: voice + span.len / 4 - 1,
        };
        first += vars;
    }
}
