// The next match from a tuple on.
ghost use Rattle.std.specs.Prelude.{◌≡◌, true, ℕ, ◌<◌, ◌≤◌, length, get_or, take};
ghost use Rattle.seq.specs.Lists.{first};
ghost use Rattle.volume.specs.Layout.{lists_of};
ghost use Rattle.fulltext.specs.Order.{matches_from};
ghost use Rattle.matcher.specs.Inner.Cursors.{ats_of, ends_of};
ghost use Rattle.matcher.specs.Inner.Settling.{Standing, given_if};
ghost use Rattle.enumeration.specs.Inner.Walking.{SoughtIn, form_of, Walking};

use super::attempts::match_held;
use super::walk::{PatternInDocument, Walk};

// The first match of a pattern in a document that does not come before the bounds, and the cursors
// at it. Whether there is one. It is looked for with all variables held at their bounds but the
// last, then but the last two, and so on. Where there is none, the last of those held moves on by
// one, and those behind it start again at the document's first postings.
pub fn next_match(pattern: &PatternInDocument, walk: &mut Walk) -> bool
    requires sought { SoughtIn pattern.now }
    requires walking { Walking pattern.now walk.old }
    requires by_index { (x : ℕ) → x < pattern.now.outline.vars → get_or walk.old.lows x 0 ≤ 65536 }
    ensures next_value { let s = pattern.now in let n = s.outline.vars in
        first (matches_from (lists_of s.query.volume.bytes.now) s.document.doc (form_of s)
        (take n walk.old.lows))
        ≡ given_if result (take n walk.new.positions) }
    ensures standing { let s = pattern.now in result ≡ true
        → Standing s.query.volume.bytes.now s.document.doc (form_of s) (ats_of walk.new.here)
        walk.new.positions }
    ensures marks_end { ends_of walk.new.marks ≡ ends_of pattern.now.firsts }
    ensures ends_unchanged { ends_of walk.new.here ≡ ends_of walk.old.here }
    ensures lows_len_unchanged { length walk.new.lows ≡ length walk.old.lows }
    ensures positions_len_unchanged { length walk.new.positions ≡ length walk.old.positions }
{
    let mut held = pattern.outline.vars - 1;
    while !match_held(pattern, held, walk) {
        if held == 0 {
            return false;
        }
        walk.lows[held] = 0;
        walk.marks[held] = pattern.firsts[held];
        held -= 1;
        walk.lows[held] += 1;
    }
    true
}
