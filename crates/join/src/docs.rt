// The documents that the postings of a volume are in.
ghost use Rattle.std.specs.Prelude.{◌≡◌, true, ◌+◌, ◌≤◌};
ghost use Rattle.seq.specs.Lists.{joined, rises};
ghost use Rattle.seq.specs.Numbers.{run};
ghost use Rattle.volume.specs.Layout.{word, list_count, stream_length, lists_of};
ghost use Rattle.join.specs.Inner.Docs.{wider, range_of, clash};

use volume::{Posting, Volume, count_at, lead, posting_at};

// The lowest and the last document of some postings.
#[derive(Clone, Copy)]
pub struct DocRange {
    pub low: u32,
    pub last: u32,
}

// The documents of a list that rises: those of its first and of its last posting.
fn list_docs(volume: &[u8], start: usize, count: usize) -> Option<DocRange>
    requires count_bound { start + count ≤ stream_length volume.now }
    requires count_value { rises (run (word volume.now) start count) ≡ true }
    ensures { result ≡ range_of (run (word volume.now) start count) }
{
    if count == 0 {
        return None;
    }
    let low = posting_at(volume, start).doc();
    let last = posting_at(volume, start + count - 1).doc();
    Some(DocRange { low, last })
}

// The documents of both.
fn wider(a: Option<DocRange>, b: Option<DocRange>) -> Option<DocRange>
    ensures { result ≡ wider a b }
{
    match (a, b) {
        (Some(a), Some(b)) => Some(DocRange {
            low: a.low.min(b.low),
            last: a.last.max(b.last),
        }),
        (None, range) | (range, None) => range,
    }
}

// The documents of all lists of a volume.
pub fn doc_range(volume: &Volume<'_>, lists: usize) -> Option<DocRange>
    requires lists_value { lists ≡ list_count volume.now.bytes.now }
    ensures { result ≡ range_of (joined (lists_of volume.now.bytes.now)) }
{
    let mut range = None;
    let mut start = lead(lists);
    for i in 0..lists {
        let count = count_at(volume.bytes, i) as usize;
        range = wider(range, list_docs(volume.bytes, start, count));
        start += count;
    }
    range
}

// Whether a document of the second, raised, passes 65,535 or is not above all of the first. The
// sums are of 64 bits.
pub fn docs_clash(first: Option<DocRange>, second: Option<DocRange>, raise: u32) -> bool
    ensures { result ≡ clash raise first second }
{
    let Some(second) = second else {
        return false;
    };
    let low = u64::from(second.low) + u64::from(raise);
    let last = u64::from(second.last) + u64::from(raise);
    last > u64::from(Posting::LAST_DOC) || first.is_some_and(|first| low <= u64::from(first.last))
}
