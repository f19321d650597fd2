// The call that writes the matches of a pattern in a document.
ghost use Rattle.std.specs.Prelude.{◌≡◌, ℕ, ◌<◌, ◌≤◌, length, get_or};
ghost use Rattle.plan.specs.Limits.{most_pattern_vars};
ghost use Rattle.plan.specs.Accepted.{pattern_at};
ghost use Rattle.plan.specs.Inner.Outline.{Outlines};
ghost use Rattle.matcher.specs.Inner.Shortfall.{InDocument};
ghost use Rattle.matcher.specs.Inner.Cursors.{no_cursor, ats_of, ends_of};
ghost use Rattle.matcher.specs.Inner.Tables.{cursor_on};
ghost use Rattle.enumeration.specs.Answers.{said_matched};
ghost use Rattle.enumeration.specs.Enumeration.{Kept};
ghost use Rattle.enumeration.specs.Inner.Attempts.{Stepped};
ghost use Rattle.enumeration.specs.Inner.Walking.{SoughtIn};

use super::answers::{MatchError, Matches};
use super::next::next_match;
use super::walk::{PatternInDocument, Walk};
use matcher::{Cursor, Document, in_document, put_row, rarest_first, starts_of};
use plan::{MOST_PATTERN_VARS, MOST_PATTERNS, Outline, Query, lay_out, list_at};
use volume::{MAX_LISTS, Posting};

// A cursor for each variable of a pattern, at its list's first posting in document `doc` or a later
// one. One pass over the counts gives the starts of all lists.
fn set_cursors(query: &Query, outline: Outline, doc: u32, cursors: &mut [Cursor])
    requires pattern_bound { outline.pattern < query.now.sizes.patterns }
    requires outlines { Outlines query.now.plan.now outline }
    requires vars_in_bounds { outline.vars ≤ length cursors.old }
    ensures { let q = query.now in let form = pattern_at q.plan.now outline.pattern in
        (x : ℕ) → x < outline.vars
        → get_or cursors.new x no_cursor ≡ cursor_on q.volume.bytes.now (get_or form.vars x 0) doc }
{
    let volume = query.volume.bytes;
    let mut starts: [usize; MAX_LISTS + 1] = [0; MAX_LISTS + 1];
    let lists = volume::word_at(volume, 1) as usize;
    query.volume.list_starts(lists, &mut starts);
    let row = outline.condition - outline.vars;
    for x in 0..outline.vars {
        let list = list_at(query.plan, row + x) as usize;
        let first = Cursor {
            at: starts[list],
            end: starts[list + 1],
        };
        cursors[x] = first.seek(volume, doc);
    }
}

// The bounds behind a match: its positions, and one on at its last variable.
fn step_past(positions: &[u32; MOST_PATTERN_VARS], n: usize, lows: &mut [u32; MOST_PATTERN_VARS])
    requires le_n { 1 ≤ n }
    requires n_in_bounds { n ≤ length positions.now }
    requires by_index { (x : ℕ) → x < n → get_or positions.now x 0 ≤ 65535 }
    ensures { Stepped positions.now n lows.old lows.new }
{
    *lows = *positions;
    lows[n - 1] += 1;
}

// Sets the marks of the first n variables where their cursors stand. Each is on its list: the index
// alone is set, since a whole cursor would be read slower than its index was written.
fn set_marks(here: &[Cursor; MOST_PATTERN_VARS], n: usize, marks: &mut [Cursor; MOST_PATTERN_VARS])
    requires { n ≤ most_pattern_vars }
    ensures by_index { (x : ℕ) → x < n → get_or (ats_of marks.new) x 0 ≡ get_or (ats_of here.now) x 0 }
    ensures ends_unchanged { ends_of marks.new ≡ ends_of marks.old }
{
    for x in 0..n {
        marks[x].at = here[x].at;
    }
}

// Writes the matches of a pattern in a document from `from` on to the front of out, as many as fit.
fn write_matches(pattern: &PatternInDocument, from: &[u32], out: &mut [u32]) -> Matches
    requires sought { SoughtIn pattern.now }
    requires from_len { length from.now ≡ pattern.now.outline.vars }
    requires in_document { InDocument from.now }
    requires vars_in_bounds { pattern.now.outline.vars ≤ length out.old }
    ensures { let s = pattern.now in
        Kept s.query.volume.bytes.now s.query.plan.now s.outline.pattern s.document.doc from.now
        (record { lent = out.old; says = said_matched (Ok result); back = out.new }) }
{
    let n = pattern.outline.vars;
    let room = out.len() / n;
    let mut lows = [0; MOST_PATTERN_VARS];
    lows[..n].copy_from_slice(from);
    let mut walk = Walk {
        lows,
        marks: pattern.firsts,
        here: pattern.firsts,
        positions: [0; MOST_PATTERN_VARS],
        paras: [0; MOST_PATTERN_VARS],
    };
    let mut count: usize = 0;
    while next_match(pattern, &mut walk) {
        if count == room {
            let mut next = [0; MOST_PATTERN_VARS];
            next[..n].copy_from_slice(&walk.positions[..n]);
            return Matches {
                count: count as u64,
                next: Some(next),
            };
        }
        put_row(&walk.positions, n, out, count * n);
        count += 1;
        step_past(&walk.positions, n, &mut walk.lows);
        set_marks(&walk.here, n, &mut walk.marks);
    }
    Matches {
        count: count as u64,
        next: None,
    }
}

// The same for any document and tuple, where the volume and the plan are accepted and the pattern
// is there.
fn matches_of(
    query: &Query,
    pattern: usize,
    doc: u32,
    from: &[u32],
    out: &mut [u32],
) -> Result<Matches, MatchError>
    requires { pattern < query.now.sizes.patterns }
    ensures { let q = query.now in Kept q.volume.bytes.now q.plan.now pattern doc from.now
        (record { lent = out.old; says = said_matched result; back = out.new }) }
{
    let mut table = [Outline::NONE; MOST_PATTERNS];
    lay_out(query.plan, query.sizes.patterns as usize, &mut table);
    let outline = table[pattern];
    if from.len() != outline.vars || Posting::LAST_DOC < doc || !in_document(from) {
        return Err(MatchError::OutOfRange);
    }
    if out.len() < outline.vars {
        return Err(MatchError::Short);
    }
    let mut firsts = [Cursor::NONE; MOST_PATTERN_VARS];
    set_cursors(query, outline, doc, &mut firsts);
    let list = starts_of(&query.volume);
    let starts = list.seek(query.volume.bytes, doc);
    let document = Document { doc, starts };
    let mut order = [0; MOST_PATTERN_VARS];
    rarest_first(&query.volume, query.plan, outline, &mut order);
    let found = PatternInDocument {
        query: *query,
        outline,
        document,
        order,
        firsts,
    };
    Ok(write_matches(&found, from, out))
}

// Writes the matches of a pattern in a document from a tuple on to the front of out, as many as
// fit: smaller first variable first, then second, and so on.
pub fn matches(
    volume: &[u8],
    plan: &[u32],
    pattern: u32,
    doc: u32,
    from: &[u32],
    out: &mut [u32],
) -> Result<Matches, MatchError>
    ensures { Kept volume.now plan.now pattern doc from.now
        (record { lent = out.old; says = said_matched result; back = out.new }) }
{
    let query = Query::open(volume, plan)?;
    if query.sizes.patterns <= pattern {
        return Err(MatchError::OutOfRange);
    }
    matches_of(&query, pattern as usize, doc, from, out)
}
