// Cursors on the posting lists of a volume.
ghost use Rattle.std.specs.Prelude.{◌≡◌, ◌+◌, ◌*◌, ◌<◌, ◌≤◌};
ghost use Rattle.volume.specs.Layout.{list_count};
ghost use Rattle.matcher.specs.Inner.Cursors.{seek_from, list_cursor, Stretch, sought, Forward, Arrived, AtDocument};

use volume::{BLOCK_WORDS, Posting, Volume};

// A place in a posting list: a stream index, and the index behind the list.
#[derive(Clone, Copy, Debug, PartialEq, Eq)]
pub struct Cursor {
    pub at: usize,
    pub end: usize,
}

// The stream index that a cursor has come to, and the posting there; none where that is behind the
// list.
#[derive(Clone, Copy, Debug, PartialEq, Eq)]
pub struct Reached {
    pub at: usize,
    pub posting: Option<Posting>,
}

// A document, and a cursor on list 0 that has not passed it.
#[derive(Clone, Copy, Debug, PartialEq, Eq)]
pub struct Document {
    pub doc: u32,
    pub starts: Cursor,
}

// A document of an accepted volume, and a cursor on list 0 that has not passed it.
#[derive(Clone, Copy)]
pub struct OpenDocument<'a> {
    pub volume: Volume<'a>,
    pub document: Document,
    ghost at_document: { AtDocument volume.bytes.now document },
}

// The bound that all postings in front of a position of a document are below, and no posting from
// there on is. A position of 65,536 is the next document's first.
pub fn bound_of(doc: u32, pos: u32) -> u64
    ensures { result ≡ doc * 65536 + pos }
{
    u64::from(doc) * u64::from(Posting::POSITIONS) + u64::from(pos)
}

// The first stream index from `from` up to `end` whose word is not below target; `end` where there
// is none. The words rise; the range is halved each turn.
fn lower_bound(volume: &[u8], from: usize, end: usize, target: u64) -> usize
    requires { Stretch volume.now from end }
    ensures { result ≡ seek_from volume.now target from end }
{
    let mut low = from;
    let mut high = end;
    while low < high {
        let middle = low + (high - low) / 2;
        if u64::from(volume::word_at(volume, middle)) < target {
            low = middle + 1;
        } else {
            high = middle;
        }
    }
    low
}

// The same, in steps that double from `first` on.
fn leap(volume: &[u8], from: usize, end: usize, first: usize, target: u64) -> usize
    requires stretch { Stretch volume.now from end }
    requires le_first { 1 ≤ first }
    ensures { result ≡ seek_from volume.now target from end }
{
    let mut low = from;
    let mut step = first;
    while step <= end - low {
        let probe = low + step - 1;
        if target <= u64::from(volume::word_at(volume, probe)) {
            return lower_bound(volume, low, probe, target);
        }
        low = probe + 1;
        step = step * 2;
    }
    lower_bound(volume, low, end, target)
}

// The same, and the posting there. Where the eighth word is of the list and not below target, the
// words below target are counted: all are among the seven in front of it.
fn leap_on(volume: &[u8], from: usize, end: usize, target: u64) -> Reached
    requires { Stretch volume.now from end }
    ensures { Arrived volume.now target from end result }
{
    let mut low = from;
    let mut step: usize = 1;
    if 8 <= end - from {
        if target <= u64::from(volume::word_at(volume, from + 7)) {
            let passed = volume::below_across(volume, from, target);
            let at = from + passed;
            let posting = volume::posting_at(volume, at);
            return Reached {
                at,
                posting: Some(posting),
            };
        }
        low = from + 8;
        step = 8;
    }
    let at = leap(volume, low, end, step, target);
    if at < end {
        let posting = volume::posting_at(volume, at);
        return Reached {
            at,
            posting: Some(posting),
        };
    }
    Reached { at, posting: None }
}

// The same. Where the next eight words are of the list and of one block, and the last one is not
// below target, the words below target are counted without a branch: most moves are short. `leap_on`
// does so across blocks, by a division for each word.
#[inline(always)]
fn gallop(volume: &[u8], from: usize, end: usize, target: u64) -> Reached
    requires { Stretch volume.now from end }
    ensures { Arrived volume.now target from end result }
{
    if 8 <= end - from
        && from % BLOCK_WORDS + 8 <= BLOCK_WORDS
        && target <= u64::from(volume::word_behind(volume, from, 7))
    {
        let passed = volume::below_in_window(volume, from, target);
        let bits = volume::word_behind(volume, from, passed);
        return Reached {
            at: from + passed,
            posting: Some(Posting { bits }),
        };
    }
    leap_on(volume, from, end, target)
}

impl Cursor {
    // A cursor on no list.
    pub const NONE: Cursor = Cursor { at: 0, end: 0 };

    // To the first posting from here on in document `doc` or a later one; to the end where there is
    // none.
    pub fn seek(self, volume: &[u8], doc: u32) -> Cursor
        requires { Stretch volume.now self.at self.end }
        ensures value { result ≡ sought volume.now (doc * 65536) self }
        ensures forward { Forward self result }
    {
        let moved = leap_on(volume, self.at, self.end, bound_of(doc, 0));
        Cursor {
            at: moved.at,
            ..self
        }
    }

    // Past position `pos` of document `doc`: to the first posting from here on behind it; to the end
    // where there is none.
    pub fn advance_past(self, volume: &[u8], doc: u32, pos: u32) -> Cursor
        requires { Stretch volume.now self.at self.end }
        ensures value { result ≡ sought volume.now (doc * 65536 + pos + 1) self }
        ensures forward { Forward self result }
    {
        let moved = self.advance(volume, bound_of(doc, pos) + 1);
        Cursor {
            at: moved.at,
            ..self
        }
    }

    // To the first posting from here on in document `doc`, which is near, or a later one, and the
    // posting there.
    #[inline(always)]
    pub fn enter(self, volume: &[u8], doc: u32) -> Reached
        requires { Stretch volume.now self.at self.end }
        ensures { Arrived volume.now (doc * 65536) self.at self.end result }
    {
        self.advance(volume, bound_of(doc, 0))
    }

    // To the first posting from here on that is not below a bound, and the posting there; to the end
    // where there is none. It is a part of the loops that move cursors: a call would store the slice.
    #[inline(always)]
    pub fn advance(self, volume: &[u8], bound: u64) -> Reached
        requires { Stretch volume.now self.at self.end }
        ensures { Arrived volume.now bound self.at self.end result }
    {
        gallop(volume, self.at, self.end, bound)
    }
}

// A cursor on a list, at its first posting.
pub fn list_cursor(volume: &Volume<'_>, list: usize) -> Cursor
    requires { list < list_count volume.now.bytes.now }
    ensures { result ≡ list_cursor volume.now.bytes.now list }
{
    let span = volume.list_span(list);
    let end = span.start + span.count;
    Cursor {
        at: span.start,
        end,
    }
}

// The cursor on list 0, at its first posting.
pub fn starts_of(volume: &Volume<'_>) -> Cursor
    ensures { result ≡ list_cursor volume.now.bytes.now 0 }
{
    list_cursor(volume, 0)
}
