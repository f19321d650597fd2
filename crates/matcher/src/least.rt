// One pattern in one document: its least match.
ghost use Rattle.std.specs.Prelude.{◌≡◌, ◌<◌, ◌≤◌, length, get_or, take};
ghost use Rattle.volume.specs.Layout.{lists_of};
ghost use Rattle.plan.specs.Accepted.{pattern_at};
ghost use Rattle.fulltext.specs.Inner.Bounds.{HeldMatch};
ghost use Rattle.matcher.specs.Inner.Cursors.{Stretch, ats_of, ends_of};
ghost use Rattle.matcher.specs.Inner.Settling.{Jumped, Standing, Within, turned, Posed};
ghost use Rattle.matcher.specs.Inner.Order.{Order};

use super::cursor::{Cursor, Document, OpenDocument, bound_of};
use super::predicates::{falls_short, largest_of};
use plan::{Outline, predicate_at};
use volume::{Posting, Volume};

// Moves variable x to its first position in a document that is not below `need`. Whether there is
// one. It is a part of the settling loop, where a call would store the slices.
#[inline(always)]
pub fn jump(
    volume: &[u8],
    doc: u32,
    x: usize,
    need: u32,
    cursors: &mut [Cursor],
    positions: &mut [u32],
) -> bool
    requires x_in_bounds { x < length cursors.old }
    requires x_in_bounds_2 { x < length positions.old }
    requires stretch { Stretch volume.now (get_or (ats_of cursors.old) x 0) (get_or (ends_of cursors.old) x 0) }
    ensures jumped { Jumped volume.now doc (get_or (ends_of cursors.old) x 0) need x (ats_of cursors.old)
        positions.old result (ats_of cursors.new) positions.new }
    ensures ends_unchanged { ends_of cursors.new ≡ ends_of cursors.old }
{
    let moved = cursors[x].advance(volume, bound_of(doc, need));
    let Some(posting) = moved.posting else {
        return false;
    };
    if posting.doc() != doc {
        return false;
    }
    cursors[x].at = moved.at;
    positions[x] = posting.pos();
    true
}

// The turn behind turn i of n.
fn next_turn(i: usize, n: usize) -> usize
    requires { i < n }
    ensures { result ≡ turned i n }
{
    let next = i + 1;
    if next == n {
        return 0;
    }
    next
}

// Moves the cursors of a pattern from where they stand in a document to its least match there that
// is not in front of them. Its predicates are tried in turn, until all of them hold one behind the
// other: each time one fails, the variable that it leaves short jumps to the first position that it
// needs at least. The first `held` variables must stay where they stand. `order` has the pattern's
// variables, each once. `paras` has for each variable where the start of its paragraph was found
// last. Whether there is such a match; then the cursors stand at it.
pub fn match_from(
    volume: &Volume<'_>,
    plan: &[u32],
    outline: Outline,
    document: Document,
    held: usize,
    order: &[usize],
    cursors: &mut [Cursor],
    positions: &mut [u32],
    paras: &mut [usize],
) -> bool
    requires posed { Posed volume.now.bytes.now plan.now outline document (ends_of cursors.old) }
    requires order { Order outline.vars order.now }
    requires positions_in_bounds { outline.vars ≤ length positions.old }
    requires standing { Standing volume.now.bytes.now document.doc
        (pattern_at plan.now outline.pattern) (ats_of cursors.old) positions.old }
    requires held_le_vars { held ≤ outline.vars }
    requires paras_in_bounds { outline.vars ≤ length paras.old }
    ensures held_match { HeldMatch (lists_of volume.now.bytes.now) document.doc
        (pattern_at plan.now outline.pattern) (take outline.vars positions.old) held
        result (take outline.vars positions.new) }
    ensures standing_2 { Standing volume.now.bytes.now document.doc
        (pattern_at plan.now outline.pattern) (ats_of cursors.new) positions.new }
    ensures within { Within outline.vars (ats_of cursors.old) (ats_of cursors.new) }
    ensures within_2 { Within outline.vars positions.old positions.new }
    ensures ends_unchanged { ends_of cursors.new ≡ ends_of cursors.old }
    ensures paras_len_unchanged { length paras.new ≡ length paras.old }
{
    // The fields one by one: a copy of the whole document is read back slower than it is written.
    let Document { doc, starts } = document;
    let opened = OpenDocument {
        volume: *volume,
        document: Document { doc, starts },
    };
    let n = outline.vars;
    let count = outline.last - outline.condition;
    let mut largest = largest_of(&positions[..n]);
    let mut turn: usize = 0;
    let mut left = count;
    while 0 < left {
        let predicate = predicate_at(plan, outline.condition + turn);
        let tuple = &positions[..n];
        match falls_short(&opened, predicate, order, tuple, largest, paras) {
            None => {
                left -= 1;
                turn = next_turn(turn, count);
            }
            Some(short) => {
                let x = short.var;
                if x < held {
                    return false;
                }
                if !jump(volume.bytes, doc, x, short.need, cursors, positions) {
                    return false;
                }
                largest = largest.max(positions[x]);
                left = count;
            }
        }
    }
    true
}
