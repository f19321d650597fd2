// One attempt: the least match at bounds or behind whose first variables are at them.
ghost use Rattle.std.specs.Prelude.{◌≡◌, true, ◌<◌, length, take};
ghost use Rattle.volume.specs.Layout.{lists_of};
ghost use Rattle.fulltext.specs.Inner.Bounds.{HeldMatch};
ghost use Rattle.matcher.specs.Inner.Cursors.{ats_of, ends_of};
ghost use Rattle.matcher.specs.Inner.Settling.{Standing};
ghost use Rattle.enumeration.specs.Inner.Attempts.{StoodFrom, Marked};
ghost use Rattle.enumeration.specs.Inner.Walking.{SoughtIn, form_of, Walking};

use super::walk::{PatternInDocument, Walk};
use matcher::{Cursor, jump, match_from};
use plan::MOST_PATTERN_VARS;

// Brings a pattern's variables from their marks to their first positions in the document that are
// not below their bounds. Whether each has one.
fn stand_from(
    pattern: &PatternInDocument,
    lows: &[u32; MOST_PATTERN_VARS],
    marks: &[Cursor; MOST_PATTERN_VARS],
    here: &mut [Cursor; MOST_PATTERN_VARS],
    positions: &mut [u32; MOST_PATTERN_VARS],
) -> bool
    requires sought { SoughtIn pattern.now }
    requires marked { let s = pattern.now in
        Marked s.query.volume.bytes.now s.document.doc (form_of s) lows.now (ats_of marks.now) }
    requires marks_end { ends_of marks.now ≡ ends_of pattern.now.firsts }
    requires here_end { ends_of here.old ≡ ends_of pattern.now.firsts }
    ensures stood_from { let s = pattern.now in
        StoodFrom s.query.volume.bytes.now s.document.doc s.outline.vars (ends_of s.firsts) lows.now
        (ats_of marks.now) result (ats_of here.new) positions.new }
    ensures ends_unchanged { ends_of here.new ≡ ends_of here.old }
    ensures positions_len_unchanged { length positions.new ≡ length positions.old }
{
    for &x in &pattern.order[..pattern.outline.vars] {
        // Its list is the same. A whole cursor would be read back slower than its index was written.
        here[x].at = marks[x].at;
        if !jump(
            pattern.query.volume.bytes,
            pattern.document.doc,
            x,
            lows[x],
            here,
            positions,
        ) {
            return false;
        }
    }
    true
}

// The least match of a pattern in a document that is in no variable below its bound and has the
// first `held` variables at theirs. The variables are brought there from their marks, in the order
// given, and their cursors are left at the match. Whether there is one. As soon as a variable that
// is held would have to move, there is none. It is a part of the loop of `next_match`: a call would
// read all of the pattern anew for each variable.
#[inline(always)]
pub fn match_held(pattern: &PatternInDocument, held: usize, walk: &mut Walk) -> bool
    requires sought { SoughtIn pattern.now }
    requires walking { Walking pattern.now walk.old }
    requires held_lt_vars { held < pattern.now.outline.vars }
    ensures held_match { let s = pattern.now in let n = s.outline.vars in
        HeldMatch (lists_of s.query.volume.bytes.now) s.document.doc (form_of s)
        (take n walk.old.lows) held result (take n walk.new.positions) }
    ensures standing { let s = pattern.now in result ≡ true
        → Standing s.query.volume.bytes.now s.document.doc (form_of s) (ats_of walk.new.here)
        walk.new.positions }
    ensures lows_unchanged { walk.new.lows ≡ walk.old.lows }
    ensures marks_unchanged { walk.new.marks ≡ walk.old.marks }
    ensures ends_unchanged { ends_of walk.new.here ≡ ends_of walk.old.here }
    ensures positions_len_unchanged { length walk.new.positions ≡ length walk.old.positions }
{
    if !stand_from(
        pattern,
        &walk.lows,
        &walk.marks,
        &mut walk.here,
        &mut walk.positions,
    ) {
        return false;
    }
    if walk.positions[..held] != walk.lows[..held] {
        return false;
    }
    match_from(
        &pattern.query.volume,
        pattern.query.plan,
        pattern.outline,
        pattern.document,
        held,
        &pattern.order,
        &mut walk.here,
        &mut walk.positions,
        &mut walk.paras,
    )
}
