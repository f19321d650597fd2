// The next document in which a pattern can be found.
ghost use Rattle.std.specs.Prelude.{◌≡◌, ℕ, ◌+◌, ◌≤◌, length, get_or};
ghost use Rattle.plan.specs.Limits.{most_pattern_vars};
ghost use Rattle.matcher.specs.Inner.Cursors.{Stretch, ats_of, ends_of};
ghost use Rattle.matcher.specs.Inner.Order.{Order};
ghost use Rattle.search.specs.Inner.Walk.{Among, Aligned};

use matcher::Cursor;
use volume::Posting;

// The first document from `doc` on in which each of n variables has a posting, from variable
// `first` on; 65,536 where there is none. Their cursors move there and not past it, and their
// positions there are set. Each document that the first of the order comes to is sought by the
// others in turn; where one of them has passed it, the first seeks the document which that one
// came to. No `Option`: 65,536 stands behind every document, so that those found compare as numbers.
pub fn align(
    volume: &[u8],
    order: &[usize],
    cursors: &mut [Cursor],
    positions: &mut [u32],
    first: usize,
    n: usize,
    doc: u32,
) -> u32
    requires n_in_bounds { first + n ≤ length cursors.old }
    requires n_in_bounds_2 { first + n ≤ length positions.old }
    requires le_n { 1 ≤ n }
    requires n_le_most_pattern_vars { n ≤ most_pattern_vars }
    requires doc_bound { doc ≤ 65536 }
    requires order { Order n order.now }
    requires by_index { (x : ℕ) → Among first n x
        → Stretch volume.now (get_or (ats_of cursors.old) x 0) (get_or (ends_of cursors.old) x 0) }
    ensures aligned { Aligned volume.now (ends_of cursors.old) (ats_of cursors.old) first n doc result
        (ats_of cursors.new) positions.old positions.new }
    ensures ends_unchanged { ends_of cursors.new ≡ ends_of cursors.old }
{
    let mut d = doc;
    let mut i: usize = 0;
    // A leap into a later document moves i back, to 0 or 1.
    while i < n {
        let x = first + order[i];
        let moved = cursors[x].enter(volume, d);
        cursors[x].at = moved.at;
        let Some(posting) = moved.posting else {
            return Posting::DOCS;
        };
        positions[x] = posting.pos();
        let here = posting.doc();
        if here == d {
            i += 1;
        } else {
            d = here;
            i = if i == 0 { 1 } else { 0 };
        }
    }
    d
}
