// Paragraphs (01: titles) of a document, by a cursor on list 0, which has their starts.
ghost use Rattle.std.specs.Prelude.{◌≡◌, ℕ, ◌+◌, ◌*◌, ◌/◌, ◌<◌, ◌≤◌};
ghost use Rattle.volume.specs.Layout.{stream_length};
ghost use Rattle.volume.specs.Inner.Below.{below_of};
ghost use Rattle.fulltext.specs.Paragraphs.{para_start};
ghost use Rattle.fulltext.specs.Inner.Paragraphs.{needed_start};
ghost use Rattle.matcher.specs.Inner.Cursors.{seek_from, Stretch, Galloped};
ghost use Rattle.matcher.specs.Inner.Opened.{starts, first_behind};
ghost use Rattle.matcher.specs.Inner.Blocks.{RisingBlock, Across, Whole, blocks_of, start_in};

use super::cursor::{Cursor, OpenDocument, bound_of};
use volume::{BLOCK_WORDS, LAST_WORD, Posting};

// The paragraph of a position: its start, 65,536 where there is none, and the stream index of the
// first start behind the position. The row of the C interface shows that number (`lhz_list`).
#[derive(Clone, Copy, Debug, PartialEq, Eq)]
pub struct Para {
    pub start: u32,
    pub at: usize,
}

// The start of a position's paragraph, 65,536 where there is none, as the row of the C interface
// shows it (`lhz_list`), and the block of the first start behind the position.
#[derive(Clone, Copy, Debug, PartialEq, Eq)]
pub struct ParaInBlock {
    pub start: u32,
    pub block: usize,
}

// Blocks of list 0: each one from `first` on in front of `last`, and the one behind it, has starts
// alone.
#[derive(Clone, Copy, Debug, PartialEq, Eq)]
pub struct Blocks {
    pub first: usize,
    pub last: usize,
}

// Where a cursor on list 0 may go on to the first start that is not below a bound: from `mark`, if
// that lies before it and has not passed that start; else from where the cursor stands.
fn resume(volume: &[u8], cursor: Cursor, bound: u64, mark: usize) -> usize
    requires { Stretch volume.now cursor.at cursor.end }
    ensures { Galloped volume.now bound cursor.at cursor.end result }
{
    if mark <= cursor.at {
        return cursor.at;
    }
    if cursor.end < mark {
        return cursor.at;
    }
    if bound <= u64::from(volume::word_at(volume, mark - 1)) {
        return cursor.at;
    }
    mark
}

// The stream index of the first start behind a position of a document. The cursor on list 0 goes on
// from the further one of two marks that has not passed it.
fn past_start(opened: &OpenDocument<'_>, pos: u32, mark: usize, other: usize) -> usize
    requires { pos ≤ 65535 }
    ensures { result ≡ first_behind opened.now pos }
{
    let volume = opened.volume.bytes;
    let document = opened.document;
    let starts = document.starts;
    let end = starts.end;
    let bound = bound_of(document.doc, pos) + 1;
    let at = resume(volume, starts, bound, mark);
    let first = Cursor { at, end };
    let from = resume(volume, first, bound, other);
    let cursor = Cursor { at: from, end };
    let next = cursor.advance_past(volume, document.doc, pos);
    next.at
}

// The start of a position's paragraph in a document, by the last start of the list that is not
// above the position: 65,536 where that is of another document.
fn start_in(doc: u32, last: Posting) -> u32
    ensures { result ≡ start_in doc last.bits }
{
    if last.doc() == doc {
        return last.pos();
    }
    Posting::POSITIONS
}

// The start of the paragraph of a position, by the index of the first start behind it: the start in
// front of that index, if it is in the document; 65,536 where there is none.
fn para_start(opened: &OpenDocument<'_>, at: usize) -> u32
    requires at_le_at { opened.now.document.starts.at ≤ at }
    requires at_le_end { at ≤ opened.now.document.starts.end }
    ensures { (pos : ℕ) → pos ≤ 65535
        → at ≡ first_behind opened.now pos
        → result ≡ para_start (starts opened.now) pos }
{
    let document = opened.document;
    let starts = document.starts;
    if at == starts.at {
        return Posting::POSITIONS;
    }
    let last = volume::posting_at(opened.volume.bytes, at - 1);
    start_in(document.doc, last)
}

// The paragraph of a position of a document, by the cursor on list 0.
fn find_para(opened: &OpenDocument<'_>, pos: u32, mark: usize, other: usize) -> Para
    requires { pos ≤ 65535 }
    ensures start_value { result.start ≡ para_start (starts opened.now) pos }
    ensures at_value { result.at ≡ first_behind opened.now pos }
{
    let at = past_start(opened, pos, mark, other);
    let start = para_start(opened, at);
    Para { start, at }
}

// The paragraph of a position of a document. `mark` says where it was found last, and `other` where
// that of another position was: whatever they are, the answer is the same. Most positions are in the
// paragraph in which the last one was.
pub fn para_of(opened: &OpenDocument<'_>, pos: u32, mark: usize, other: usize) -> Para
    requires { pos ≤ 65535 }
    ensures start_value { result.start ≡ para_start (starts opened.now) pos }
    ensures at_value { result.at ≡ first_behind opened.now pos }
{
    let volume = opened.volume.bytes;
    let document = opened.document;
    let starts = document.starts;
    if starts.at < mark && mark < starts.end {
        let bound = bound_of(document.doc, pos) + 1;
        let last = volume::posting_at(volume, mark - 1);
        if u64::from(last.bits) < bound && bound <= u64::from(volume::word_at(volume, mark)) {
            let start = start_in(document.doc, last);
            return Para { start, at: mark };
        }
    }
    find_para(opened, pos, mark, other)
}

// 1 where a word is below a bound.
fn below(word: u32, bound: u64) -> usize
    ensures value { result ≡ below_of word bound }
    ensures upper_bound { result ≤ 1 }
{
    usize::from(u64::from(word) < bound)
}

// Of a block whose word k is below a bound, and whose word k + 5 * step is not: the last of the
// words k, k + step, .. k + 4 * step that is below it. No branch is taken.
fn narrow(volume: &[u8], block: usize, bound: u64, k: usize, step: usize) -> usize
    requires rising_block { RisingBlock volume.now block }
    requires step_bound { k + 5 * step < 126 }
    requires le_step { 1 ≤ step }
    requires across { Across volume.now block bound k (5 * step) }
    ensures across_2 { Across volume.now block bound result step }
    ensures upper_bound { result ≤ k + 4 * step }
{
    let a = below(volume::word_in_block(volume, block, k + step), bound);
    let b = below(volume::word_in_block(volume, block, k + 2 * step), bound);
    let c = below(volume::word_in_block(volume, block, k + 3 * step), bound);
    let d = below(volume::word_in_block(volume, block, k + 4 * step), bound);
    k + step * (a + b + c + d)
}

// The last word of a block below a bound, where the first one is below it and the last is not. Of
// 125 words a fifth is left three times.
fn last_below(volume: &[u8], block: usize, bound: u64) -> usize
    requires rising_block { RisingBlock volume.now block }
    requires across { Across volume.now block bound 0 125 }
    ensures across_2 { Across volume.now block bound result 1 }
    ensures upper_bound { result ≤ 124 }
{
    let fifth = narrow(volume, block, bound, 0, 25);
    let part = narrow(volume, block, bound, fifth, 5);
    narrow(volume, block, bound, part, 1)
}

// The blocks that a cursor on list 0 has before it.
pub fn blocks_of(starts: Cursor) -> Blocks
    ensures { result ≡ blocks_of starts }
{
    let first = starts.at / BLOCK_WORDS + 1;
    let two = 2 * BLOCK_WORDS;
    if starts.end < two {
        return Blocks { first, last: 0 };
    }
    let last = (starts.end - two) / BLOCK_WORDS + 1;
    Blocks { first, last }
}

// The start of a position's paragraph in a document. `block` is where it was found last: it is
// sought there and in the block behind, by as many steps whatever the words are.
pub fn para_near(opened: &OpenDocument<'_>, blocks: Blocks, pos: u32, block: usize) -> ParaInBlock
    requires pos_bound { pos ≤ 65535 }
    requires whole { Whole opened.now.document.starts blocks }
    requires block_bound { 126 * block ≤ stream_length opened.now.volume.bytes.now }
    ensures start_value { result.start ≡ para_start (starts opened.now) pos }
    ensures block_value { result.block ≡ first_behind opened.now pos / 126 }
{
    let volume = opened.volume.bytes;
    let document = opened.document;
    if blocks.first <= block && block < blocks.last {
        let bound = bound_of(document.doc, pos) + 1;
        let near = block + below(volume::word_in_block(volume, block, LAST_WORD), bound);
        let front = volume::word_in_block(volume, near, 0);
        let back = volume::word_in_block(volume, near, LAST_WORD);
        if u64::from(front) < bound && bound <= u64::from(back) {
            let k = last_below(volume, near, bound);
            let last = Posting {
                bits: volume::word_in_block(volume, near, k),
            };
            let start = start_in(document.doc, last);
            return ParaInBlock { start, block: near };
        }
    }
    let para = find_para(opened, pos, BLOCK_WORDS * block, 0);
    ParaInBlock {
        start: para.start,
        block: para.at / BLOCK_WORDS,
    }
}

// The start that a position needs at least to stand in one paragraph with one that is not smaller,
// by the paragraph of that one: its start; where it stands in none, the first start in the document,
// which is then behind it; 65,536 where there is none.
pub fn needed_start(opened: &OpenDocument<'_>, para: Para) -> u32
    requires at_le_at { opened.now.document.starts.at ≤ para.at }
    requires at_le_end { para.at ≤ opened.now.document.starts.end }
    ensures { (pos : ℕ) → pos ≤ 65535
        → para.at ≡ first_behind opened.now pos
        → para.start ≡ para_start (starts opened.now) pos
        → result ≡ needed_start (starts opened.now) pos }
{
    let document = opened.document;
    let starts = document.starts;
    if para.start != Posting::POSITIONS {
        return para.start;
    }
    if para.at == starts.end {
        return Posting::POSITIONS;
    }
    let first = volume::posting_at(opened.volume.bytes, para.at);
    if first.doc() != document.doc {
        return Posting::POSITIONS;
    }
    first.pos()
}
