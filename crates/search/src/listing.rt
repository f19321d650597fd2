// The listing call: one forward pass over the documents.
ghost use Rattle.std.specs.Prelude.{◌≡◌, ◌*◌, ◌≤◌, length};
ghost use Rattle.volume.specs.Layout.{lists_of};
ghost use Rattle.plan.specs.Rows.{rows_of};
ghost use Rattle.plan.specs.Limits.{row_words};
ghost use Rattle.plan.specs.Check.{sizes};
ghost use Rattle.fulltext.specs.Documents.{postings_in};
ghost use Rattle.search.specs.Answers.{said_listed};
ghost use Rattle.search.specs.Search.{Kept};
ghost use Rattle.matcher.specs.Inner.Cursors.{ats_of, ends_of};
ghost use Rattle.matcher.specs.Inner.Tables.{Cursors};
ghost use Rattle.search.specs.Inner.Walk.{Walks};

use super::answers::{ListError, Listing};
use super::rows::write_row;
use super::setup::{set_cursors, set_orders};
use super::walk::{Walk, visit};
use matcher::{Cursor, Document, OpenDocument, blocks_of, starts_of};
use plan::{
    MOST_FOUND_SETS, MOST_PATTERNS, MOST_VARS, Outline, Query, answer_of, lay_out, row_words,
};
use volume::{BLOCK_WORDS, Posting};

// How many postings the lists of all variables have from document `start` up to document `doc`, doc
// not counted. `firsts` has for each variable a cursor at its list's first posting in document
// `start` or a later one.
fn tally(query: &Query<'_>, start: u32, doc: u32, firsts: &[Cursor]) -> u32
    requires firsts_len { length firsts.now ≡ (sizes query.now.plan.now).vars }
    requires start_le_doc { start ≤ doc }
    requires doc_bound { doc ≤ 65536 }
    requires cursors { let q = query.now in
        Cursors q.volume.bytes.now q.plan.now start (ats_of firsts.now) (ends_of firsts.now) }
    ensures { let q = query.now in
        result ≡ postings_in (lists_of q.volume.bytes.now) (rows_of q.plan.now) start doc }
{
    let mut sum: usize = 0;
    for &cursor in firsts {
        sum += cursor.seek(query.volume.bytes, doc).at - cursor.at;
    }
    sum as u32
}

// Lists the true documents from `start` on, with the cursors of all variables, which stand where
// `firsts` has them, at document `start`.
fn list_docs(
    query: &Query<'_>,
    table: &[Outline],
    orders: &[usize],
    start: u32,
    firsts: &[Cursor],
    cursors: &mut [Cursor],
    positions: &mut [u32],
    out: &mut [u32],
) -> Listing
    requires walks { let q = query.now in
        Walks q.volume.bytes.now q.plan.now table.now orders.now (ends_of firsts.now) }
    requires firsts_len { length firsts.now ≡ (sizes query.now.plan.now).vars }
    requires start_bound { start ≤ 65535 }
    requires firsts { let q = query.now in
        Cursors q.volume.bytes.now q.plan.now start (ats_of firsts.now) (ends_of firsts.now) }
    requires cursors_value { cursors.old ≡ firsts.now }
    requires plan_in_bounds { (sizes query.now.plan.now).vars ≤ length positions.old }
    requires plan_in_bounds_2 { let plan = query.now.plan.now in
        row_words (sizes plan).patterns (sizes plan).vars ≤ length out.old }
    ensures { Kept query.now.volume.bytes.now query.now.plan.now start
        (record { lent = out.old; says = said_listed (Ok result); back = out.new }) }
{
    let patterns = table.len();
    let width = row_words(patterns as u32, firsts.len() as u32);
    let room = out.len() / width;
    let list = starts_of(&query.volume);
    let starts = list.seek(query.volume.bytes, start);
    let blocks = blocks_of(starts);
    let mut block = starts.at / BLOCK_WORDS;
    let mut paras = [0; MOST_VARS];
    let mut docs = [0; MOST_PATTERNS];
    let mut known = [None; MOST_FOUND_SETS];
    let mut rows: usize = 0;
    let mut from = start;
    loop {
        let walk = Walk {
            from,
            fresh: from == start,
            starts,
        };
        let Some(seen) = visit(
            query,
            table,
            orders,
            walk,
            cursors,
            positions,
            &mut docs[..patterns],
            &mut paras,
        ) else {
            let tally = tally(query, start, Posting::DOCS, firsts);
            return Listing {
                rows: rows as u32,
                tally,
                next: None,
            };
        };
        let doc = seen.doc;
        from = doc + 1;
        if !answer_of(query.plan, seen.found, &mut known) {
            continue;
        }
        if rows == room {
            let tally = tally(query, start, doc, firsts);
            return Listing {
                rows: rows as u32,
                tally,
                next: Some(doc),
            };
        }
        let opened = OpenDocument {
            volume: query.volume,
            document: Document { doc, starts },
        };
        block = write_row(
            &opened,
            blocks,
            block,
            table,
            seen.found,
            positions,
            out,
            rows * width,
        );
        rows += 1;
    }
}

// The same, where the volume and the plan are accepted and a row fits the buffer.
fn list_from(query: &Query<'_>, start: u32, out: &mut [u32]) -> Listing
    requires start_bound { start ≤ 65535 }
    requires vars_in_bounds { let sizes = query.now.sizes in
        row_words sizes.patterns sizes.vars ≤ length out.old }
    ensures { Kept query.now.volume.bytes.now query.now.plan.now start
        (record { lent = out.old; says = said_listed (Ok result); back = out.new }) }
{
    let patterns = query.sizes.patterns as usize;
    let vars = query.sizes.vars as usize;
    let mut outlines = [Outline::NONE; MOST_PATTERNS];
    lay_out(query.plan, patterns, &mut outlines);
    let table = &outlines[..patterns];
    let mut firsts = [Cursor::NONE; MOST_VARS];
    set_cursors(query, table, start, &mut firsts);
    let mut orders = [0; MOST_VARS];
    set_orders(query, table, &mut orders);
    let mut cursors = firsts;
    let mut positions = [0; MOST_VARS];
    list_docs(
        query,
        table,
        &orders,
        start,
        &firsts[..vars],
        &mut cursors[..vars],
        &mut positions,
        out,
    )
}

// Writes the rows of the true documents from document `start` on to the front of out, as many as fit.
pub fn list(volume: &[u8], plan: &[u32], start: u32, out: &mut [u32]) -> Result<Listing, ListError>
    ensures { Kept volume.now plan.now start
        (record { lent = out.old; says = said_listed result; back = out.new }) }
{
    let query = Query::open(volume, plan)?;
    if Posting::LAST_DOC < start {
        return Err(ListError::Start);
    }
    if out.len() < row_words(query.sizes.patterns, query.sizes.vars) {
        return Err(ListError::Short);
    }
    Ok(list_from(&query, start, out))
}
