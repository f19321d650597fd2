// The row of a document in the lent buffer.
ghost use Rattle.std.specs.Prelude.{◌≡◌, ◌++◌, ℕ, ◌+◌, ◌*◌, ◌%◌, ◌<◌, ◌≤◌, length, take, drop};
ghost use Rattle.volume.specs.Layout.{stream_length};
ghost use Rattle.plan.specs.Inner.Outline.{outline_at};
ghost use Rattle.fulltext.specs.Documents.{with_starts};
ghost use Rattle.matcher.specs.Inner.Shortfall.{InDocument};
ghost use Rattle.matcher.specs.Inner.Opened.{starts};
ghost use Rattle.matcher.specs.Inner.Blocks.{Whole};
ghost use Rattle.search.specs.Inner.Rows.{halved, row_by};

use matcher::{Blocks, OpenDocument, para_near};
use plan::Outline;

// Writes positions of a document into out from `to` on, each followed by the start of its paragraph.
// `block` is where a start was found last. The block in which the last one is found.
fn write_pairs(
    opened: &OpenDocument<'_>,
    blocks: Blocks,
    block: usize,
    positions: &[u32],
    out: &mut [u32],
    to: usize,
) -> usize
    requires whole { Whole opened.now.document.starts blocks }
    requires block_bound { 126 * block ≤ stream_length opened.now.volume.bytes.now }
    requires in_document { InDocument positions.now }
    requires positions_in_bounds { to + 2 * length positions.now ≤ length out.old }
    ensures out_after { out.new ≡ take to out.old
        ++ with_starts (starts opened.now) positions.now
        ++ drop (to + 2 * length positions.now) out.old }
    ensures result_bound { 126 * result ≤ stream_length opened.now.volume.bytes.now }
{
    let mut near = block;
    for (x, &pos) in positions.iter().enumerate() {
        let para = para_near(opened, blocks, pos, near);
        near = para.block;
        out[to + 2 * x] = pos;
        out[to + 2 * x + 1] = para.start;
    }
    near
}

// Writes the row of a document into out from `from` on: the document, and for each pattern 1 and
// its positions with the starts of their paragraphs, or 0 and zeros. `block` is where a start was
// found last. The block in which the last one is found.
pub fn write_row(
    opened: &OpenDocument<'_>,
    blocks: Blocks,
    block: usize,
    table: &[Outline],
    found: u32,
    positions: &[u32],
    out: &mut [u32],
    from: usize,
) -> usize
    requires whole { Whole opened.now.document.starts blocks }
    requires block_bound { 126 * block ≤ stream_length opened.now.volume.bytes.now }
    requires by_index { (k : ℕ) → k < length table.now
        → (outline_at table.now k).first + (outline_at table.now k).vars ≤ length positions.now }
    requires by_index_2 { (k : ℕ) → k < length table.now → halved found k % 2 ≡ 1
        → InDocument (take (outline_at table.now k).vars (drop (outline_at table.now k).first positions.now)) }
    requires row_in_bounds { from + length (row_by (starts opened.now) table.now opened.now.document.doc found positions.now
        (length table.now)) ≤ length out.old }
    ensures out_after { out.new ≡ take from out.old
        ++ row_by (starts opened.now) table.now opened.now.document.doc found
        positions.now (length table.now)
        ++ drop (from + length (row_by (starts opened.now) table.now opened.now.document.doc found
        positions.now
        (length table.now))) out.old }
    ensures result_bound { 126 * result ≤ stream_length opened.now.volume.bytes.now }
{
    out[from] = opened.document.doc;
    let mut near = block;
    let mut to = from + 1;
    let mut left = found;
    for &outline in table {
        let first = outline.first;
        let vars = outline.vars;
        let flag = left % 2;
        out[to] = flag;
        to += 1;
        if flag == 1 {
            let tuple = &positions[first..first + vars];
            near = write_pairs(opened, blocks, near, tuple, out, to);
        } else {
            out[to..to + 2 * vars].fill(0);
        }
        to += 2 * vars;
        left /= 2;
    }
    near
}
