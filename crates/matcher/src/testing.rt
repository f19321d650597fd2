// Testing given positions of a pattern.
ghost use Rattle.std.specs.Prelude.{◌≡◌, ◌<◌, ◌≤◌, leb, length};
ghost use Rattle.seq.specs.Lists.{all};
ghost use Rattle.volume.specs.Layout.{list_count, lists_of};
ghost use Rattle.plan.specs.Accepted.{pattern_at};
ghost use Rattle.fulltext.specs.Matches.{matches_at};
ghost use Rattle.matcher.specs.Answers.{said_tested};
ghost use Rattle.matcher.specs.Testing.{test_answer};
ghost use Rattle.matcher.specs.Inner.Cursors.{ats_of, ends_of};
ghost use Rattle.matcher.specs.Inner.Settling.{Asked, Found, StoodAt};

use super::answers::TestError;
use super::cursor::{Cursor, Document, list_cursor, starts_of};
use super::least::match_from;
use super::rarest::rarest_first;
use super::store::put_row;
use plan::{MOST_PATTERN_VARS, MOST_PATTERNS, Outline, Query, lay_out, list_at};
use volume::{Posting, Volume};

// Whether no position is over 65,535.
pub fn in_document(positions: &[u32]) -> bool
    ensures { result ≡ all (λ q. leb q 65535) positions.now }
{
    positions.iter().all(|&p| p <= Posting::LAST_POS)
}

// A cursor on a list at a position of a document; none where the list does not hold the position.
fn cursor_at(volume: &Volume<'_>, list: usize, doc: u32, pos: u32) -> Option<Cursor>
    requires list_bound { list < list_count volume.now.bytes.now }
    requires doc_bound { doc ≤ 65535 }
    requires pos_bound { pos ≤ 65535 }
    ensures { Found volume.now.bytes.now list doc pos result }
{
    let first = list_cursor(volume, list);
    let sought = Posting::new(doc as u16, pos as u16);
    let reached = first.advance(volume.bytes, u64::from(sought.bits));
    let posting = reached.posting?;
    if posting.bits == sought.bits {
        return Some(Cursor {
            at: reached.at,
            ..first
        });
    }
    None
}

// Brings each variable of a pattern to its given position in a document. Whether each list holds its
// position.
fn stand_at(
    query: &Query<'_>,
    outline: Outline,
    doc: u32,
    positions: &[u32],
    cursors: &mut [Cursor],
) -> bool
    requires asked { Asked query.now.volume.bytes.now query.now.plan.now outline doc positions.now }
    requires positions_in_bounds { length positions.now ≤ length cursors.old }
    ensures stood_at { StoodAt query.now.volume.bytes.now doc
        (pattern_at query.now.plan.now outline.pattern) positions.now result (ends_of cursors.new)
        (ats_of cursors.new) }
    ensures cursors_len_unchanged { length cursors.new ≡ length cursors.old }
{
    for (x, &pos) in positions.iter().enumerate() {
        let row = outline.condition - outline.vars + x;
        let list = list_at(query.plan, row);
        let Some(cursor) = cursor_at(&query.volume, list as usize, doc, pos) else {
            return false;
        };
        cursors[x] = cursor;
    }
    true
}

// Whether positions match a pattern in a document: each variable stands at its position, and the
// least match from there on, with every variable held, is there.
fn is_match(query: &Query<'_>, outline: Outline, doc: u32, positions: &[u32]) -> bool
    requires { Asked query.now.volume.bytes.now query.now.plan.now outline doc positions.now }
    ensures { result ≡ matches_at (lists_of query.now.volume.bytes.now) doc
        (pattern_at query.now.plan.now outline.pattern) positions.now }
{
    let n = positions.len();
    let mut cursors = [Cursor::NONE; MOST_PATTERN_VARS];
    if !stand_at(query, outline, doc, positions, &mut cursors) {
        return false;
    }
    let mut order = [0; MOST_PATTERN_VARS];
    rarest_first(&query.volume, query.plan, outline, &mut order);
    let mut moved = [0; MOST_PATTERN_VARS];
    put_row(positions, n, &mut moved, 0);
    let mut paras = [0; MOST_PATTERN_VARS];
    let starts = starts_of(&query.volume);
    let document = Document { doc, starts };
    match_from(
        &query.volume,
        query.plan,
        outline,
        document,
        n,
        &order,
        &mut cursors,
        &mut moved,
        &mut paras,
    )
}

// The same for any positions, where the pattern is there.
fn test_pattern(
    query: &Query<'_>,
    pattern: usize,
    doc: u32,
    positions: &[u32],
) -> Result<bool, TestError>
    requires { pattern < query.now.sizes.patterns }
    ensures { said_tested result ≡ test_answer query.now.volume.bytes.now query.now.plan.now pattern
        doc positions.now }
{
    let mut table = [Outline::NONE; MOST_PATTERNS];
    lay_out(query.plan, query.sizes.patterns as usize, &mut table);
    let outline = table[pattern];
    if positions.len() != outline.vars || Posting::LAST_DOC < doc || !in_document(positions) {
        return Err(TestError::OutOfRange);
    }
    Ok(is_match(query, outline, doc, positions))
}

// Whether these positions of a pattern's variables match the pattern in a document.
pub fn test(
    volume: &[u8],
    plan: &[u32],
    pattern: u32,
    doc: u32,
    positions: &[u32],
) -> Result<bool, TestError>
    ensures { said_tested result ≡ test_answer volume.now plan.now pattern doc positions.now }
{
    let query = Query::open(volume, plan)?;
    if query.sizes.patterns <= pattern {
        return Err(TestError::OutOfRange);
    }
    test_pattern(&query, pattern as usize, doc, positions)
}
