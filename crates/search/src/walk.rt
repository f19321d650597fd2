// The walk over the documents: the next one in which each pattern can be found, and what is found
// there.
ghost use Rattle.std.specs.Prelude.{◌≡◌, ℕ, ◌<◌, ◌≤◌, length, get_or, IfSome};
ghost use Rattle.plan.specs.Check.{sizes};
ghost use Rattle.matcher.specs.Inner.Cursors.{ats_of, ends_of, AtDocument};
ghost use Rattle.search.specs.Inner.Walk.{Candidate, Pending, Brought, LeastDoc, Walks, Ready, Settled, SettledAll};
ghost use Rattle.search.specs.Inner.Walk.{Walking, seen_or_end, Visited};

use super::align::align;
use matcher::{Cursor, Document, match_from};
use plan::{Outline, Query};
use volume::Posting;

// Where a walk goes on: the document from which on, whether no pattern has a document yet, and a
// cursor on list 0 that has not passed it.
#[derive(Clone, Copy)]
pub struct Walk {
    pub from: u32,
    pub fresh: bool,
    pub starts: Cursor,
}

// A document, and a bit for each pattern, 1 where it is found there, pattern 0 the lowest.
#[derive(Clone, Copy)]
pub struct Seen {
    pub doc: u32,
    pub found: u32,
}

// Brings each pattern that has no document yet, or one before `doc`, to the first document from `doc`
// on in which it can be found; 65,536 where there is none.
fn next_docs(
    query: &Query<'_>,
    table: &[Outline],
    orders: &[usize],
    fresh: bool,
    doc: u32,
    cursors: &mut [Cursor],
    positions: &mut [u32],
    docs: &mut [u32],
)
    requires walks { let q = query.now in
        Walks q.volume.bytes.now q.plan.now table.now orders.now (ends_of cursors.old) }
    requires docs_len { length docs.old ≡ (sizes query.now.plan.now).patterns }
    requires plan_in_bounds { (sizes query.now.plan.now).vars ≤ length cursors.old }
    requires plan_in_bounds_2 { (sizes query.now.plan.now).vars ≤ length positions.old }
    requires doc_bound { doc ≤ 65536 }
    requires by_index { let q = query.now in (k : ℕ) → k < (sizes q.plan.now).patterns
        → Pending q.volume.bytes.now q.plan.now (ats_of cursors.old) (ends_of cursors.old)
        positions.old k doc (get_or docs.old k 0) fresh }
    ensures brought { let q = query.now in
        Brought q.volume.bytes.now q.plan.now (ends_of cursors.old) (ats_of cursors.old) positions.old
        docs.old doc (ats_of cursors.new) positions.new docs.new }
    ensures ends_unchanged { ends_of cursors.new ≡ ends_of cursors.old }
{
    for (k, &outline) in table.iter().enumerate() {
        if !fresh && doc <= docs[k] {
            continue;
        }
        let first = outline.first;
        docs[k] = align(
            query.volume.bytes,
            &orders[first..],
            cursors,
            positions,
            first,
            outline.vars,
            doc,
        );
    }
}

// The least of some documents, each at most 65,536; 65,536 where there is none.
fn least_of(docs: &[u32]) -> u32
    requires { (k : ℕ) → k < length docs.now → get_or docs.now k 0 ≤ 65536 }
    ensures { LeastDoc docs.now (length docs.now) result }
{
    docs.iter().copied().min().unwrap_or(Posting::DOCS)
}

// Brings a pattern that stands in a document to its least match there. Whether there is one. A
// pattern without predicates is found where it stands.
fn settle(
    query: &Query<'_>,
    outline: Outline,
    document: Document,
    orders: &[usize],
    cursors: &mut [Cursor],
    positions: &mut [u32],
    paras: &mut [usize],
) -> bool
    requires ready { let q = query.now in
        Ready q.volume.bytes.now q.plan.now outline document orders.now (ends_of cursors.old)
        (ats_of cursors.old) positions.old }
    requires plan_in_bounds { (sizes query.now.plan.now).vars ≤ length paras.old }
    ensures settled { let q = query.now in
        Settled q.volume.bytes.now q.plan.now (ends_of cursors.old) outline.pattern document.doc
        (ats_of cursors.old) positions.old result (ats_of cursors.new) positions.new }
    ensures ends_unchanged { ends_of cursors.new ≡ ends_of cursors.old }
    ensures paras_len_unchanged { length paras.new ≡ length paras.old }
{
    if outline.condition == outline.last {
        return true;
    }
    let first = outline.first;
    match_from(
        &query.volume,
        query.plan,
        outline,
        document,
        0,
        &orders[first..],
        &mut cursors[first..],
        &mut positions[first..],
        &mut paras[first..],
    )
}

// Settles each pattern that can be found in a document. `docs` has the first document from there on
// in which each pattern can be found. The bits of those that are found there, that of pattern 0 the
// lowest.
fn settle_all(
    query: &Query<'_>,
    table: &[Outline],
    document: Document,
    orders: &[usize],
    cursors: &mut [Cursor],
    positions: &mut [u32],
    docs: &[u32],
    paras: &mut [usize],
) -> u32
    requires walks { let q = query.now in
        Walks q.volume.bytes.now q.plan.now table.now orders.now (ends_of cursors.old) }
    requires at_document { AtDocument query.now.volume.bytes.now document }
    requires docs_len { length docs.now ≡ (sizes query.now.plan.now).patterns }
    requires plan_in_bounds { (sizes query.now.plan.now).vars ≤ length positions.old }
    requires by_index { let q = query.now in (k : ℕ) → k < (sizes q.plan.now).patterns
        → Candidate q.volume.bytes.now q.plan.now (ats_of cursors.old) (ends_of cursors.old)
        positions.old k document.doc (get_or docs.now k 0) }
    requires plan_in_bounds_2 { (sizes query.now.plan.now).vars ≤ length paras.old }
    ensures settled_all { let q = query.now in
        SettledAll q.volume.bytes.now q.plan.now (ends_of cursors.old) docs.now document.doc
        (ats_of cursors.old) positions.old result (ats_of cursors.new) positions.new }
    ensures ends_unchanged { ends_of cursors.new ≡ ends_of cursors.old }
    ensures paras_len_unchanged { length paras.new ≡ length paras.old }
{
    let mut bits: u32 = 0;
    let mut weight: u32 = 1;
    for (k, &outline) in table.iter().enumerate() {
        if docs[k] == document.doc
            && settle(query, outline, document, orders, cursors, positions, paras)
        {
            bits += weight;
        }
        weight *= 2;
    }
    bits
}

// The next document in which a pattern can be found; none where there is no such document. Which
// patterns are found there, and the positions of each one that is. `paras` has for each variable
// where the start of its paragraph was found last.
pub fn visit(
    query: &Query<'_>,
    table: &[Outline],
    orders: &[usize],
    walk: Walk,
    cursors: &mut [Cursor],
    positions: &mut [u32],
    docs: &mut [u32],
    paras: &mut [usize],
) -> Option<Seen>
    requires walks { let q = query.now in
        Walks q.volume.bytes.now q.plan.now table.now orders.now (ends_of cursors.old) }
    requires walking { let q = query.now in
        Walking q.volume.bytes.now q.plan.now (ends_of cursors.old) (ats_of cursors.old)
        positions.old docs.old walk.from walk.fresh walk.starts }
    requires plan_in_bounds { (sizes query.now.plan.now).vars ≤ length paras.old }
    ensures visited { let q = query.now in
        Visited q.volume.bytes.now q.plan.now (ends_of cursors.old) walk.from (seen_or_end result)
        (ats_of cursors.new) positions.new docs.new walk.starts }
    ensures ends_unchanged { ends_of cursors.new ≡ ends_of cursors.old }
    ensures document { IfSome result (λ seen. seen.doc < 65536) }
    ensures paras_len_unchanged { length paras.new ≡ length paras.old }
{
    next_docs(
        query, table, orders, walk.fresh, walk.from, cursors, positions, docs,
    );
    let doc = least_of(docs);
    if doc == Posting::DOCS {
        return None;
    }
    let starts = walk.starts;
    let document = Document { doc, starts };
    let found = settle_all(
        query, table, document, orders, cursors, positions, docs, paras,
    );
    Some(Seen { doc, found })
}
