// A pattern's own rows.
ghost use Rattle.std.specs.Prelude.{◌≡◌, List, ℕ, ◌<◌};
ghost use Rattle.plan.specs.Check.{Accepted, sizes};
ghost use Rattle.plan.specs.Parts.{span_at, span_of, part_of};

use super::checking::check;
use super::reading::{first_of, is_end, is_voice};

// Where the rows of a pattern lie in the plan, in words.
#[derive(Clone, Copy, Debug, PartialEq, Eq)]
pub struct Span {
    pub start: usize,
    pub len: usize,
}

impl Span {
    // The span of no row.
    pub const EMPTY: Span = Span { start: 0, len: 0 };
}

// The span of pattern number `pattern`: from the first VOICE behind the pattern before it to the
// next END.
pub fn span_at(plan: &[u32], pattern: usize) -> Span
    requires by_index { (v : List ℕ) × Accepted v plan.now }
    requires pattern_bound { pattern < (sizes plan.now).patterns }
    ensures { result ≡ span_at plan.now pattern }
{
    let mut behind: usize = 0;
    for _ in 0..pattern {
        let first = first_of(plan, behind, is_voice);
        behind = first_of(plan, first, is_end) + 1;
    }
    let first = first_of(plan, behind, is_voice);
    let last = first_of(plan, first, is_end);
    Span {
        start: 4 * first,
        len: 4 * (last + 1 - first),
    }
}

// The span of a pattern of a plan over a volume; nothing where the volume, the plan or the number is
// refused.
pub fn pattern_span(volume: &[u8], plan: &[u32], pattern: u32) -> Span
    ensures { result ≡ span_of volume.now plan.now pattern }
{
    match check(volume, plan) {
        Ok(sizes) if pattern < sizes.patterns => span_at(plan, pattern as usize),
        _ => Span::EMPTY,
    }
}

// The rows of a pattern of a plan over a volume, VOICE to END; empty where the volume, the plan or
// the number is refused.
pub fn pattern_rows<'a>(volume: &[u8], plan: &'a [u32], pattern: u32) -> &'a [u32]
    ensures { result.now ≡ part_of volume.now plan.now pattern }
{
    let span = pattern_span(volume, plan, pattern);
    &plan[span.start..span.start + span.len]
}
