// Whether the lists of a volume rise.
//
// A fall is a stream word that is not below the next one; the last word counts as one. Falls are
// counted over the whole stream while its blocks are checked. Every list rises if there are no more
// than those of the counts, one behind each list that is not empty, and those of the zero words.
// Only where there are more are the lists walked, to find the one that does not rise.
ghost use Rattle.std.specs.Prelude.{◌≡◌, ℕ, ◌+◌, ◌*◌, ◌-◌, ◌<◌, ◌≤◌};
ghost use Rattle.seq.specs.Lists.{rises};
ghost use Rattle.seq.specs.Numbers.{run, index_below};
ghost use Rattle.volume.specs.Layout.{blocks, word, list_count, extent, stream_length};
ghost use Rattle.volume.specs.Check.{bad_list};
ghost use Rattle.volume.specs.Inner.Falls.{fall_of, fall, falls_before, ListFalls};

use super::blocks::Blocks;
use super::layout::{BLOCK_BYTES, BLOCK_WORDS, LAST_WORD, lead};
use super::stream::{count_at, word_at};
use block::read32;

// 1 where y, which stands behind x, is not above it.
pub fn fall_of(x: u32, y: u32) -> u32
    ensures value { result ≡ fall_of x y }
    ensures upper_bound { result ≤ 1 }
{
    u32::from(y <= x)
}

// The falls inside block k.
pub fn falls_in(volume: &[u8], k: usize) -> u32
    requires { k < blocks volume.now }
    ensures result_value { falls_before volume.now (126 * k) + result ≡ falls_before volume.now (126 * k + 125) }
    ensures upper_bound { result ≤ 125 }
{
    let from = BLOCK_BYTES * k + 4;
    let mut n: u32 = 0;
    for i in 0..LAST_WORD {
        let at = from + 4 * i;
        n += fall_of(read32(volume, at), read32(volume, at + 4));
    }
    n
}

// Whether there is a fall at stream index i.
pub fn fall_at(whole: &Blocks<'_>, i: usize) -> u32
    requires { i < stream_length whole.now.bytes.now }
    ensures value { result ≡ fall (word whole.now.bytes.now) i }
    ensures upper_bound { result ≤ 1 }
{
    let volume = whole.bytes;
    let next = i + 1;
    if next == BLOCK_WORDS * (volume.len() / BLOCK_BYTES) {
        1
    } else {
        fall_of(word_at(volume, i), word_at(volume, next))
    }
}

// The falls from stream index `from` up to `end`.
fn falls_from(whole: &Blocks<'_>, from: usize, end: usize) -> usize
    requires from_le_end { from ≤ end }
    requires end_bound { end ≤ stream_length whole.now.bytes.now }
    ensures result_value { falls_before whole.now.bytes.now from + result ≡ falls_before whole.now.bytes.now end }
    ensures upper_bound { result ≤ end - from }
{
    let mut n: usize = 0;
    for i in from..end {
        n += fall_at(whole, i) as usize;
    }
    n
}

// The falls at the last postings of the lists.
fn list_falls(whole: &Blocks<'_>, lists: usize) -> usize
    requires lists_value { lists ≡ list_count whole.now.bytes.now }
    requires lists_bound { lists ≤ 1024 }
    requires extent_bound { extent whole.now.bytes.now ≤ stream_length whole.now.bytes.now }
    ensures { ListFalls whole.now.bytes.now result }
{
    let volume = whole.bytes;
    let mut n: usize = 0;
    let mut end: usize = lead(lists);
    for i in 0..lists {
        let size = count_at(volume, i) as usize;
        end += size;
        if 0 < size {
            n += fall_at(whole, end - 1) as usize;
        }
    }
    n
}

// Whether the words from `from` to `end` rise. The falls are counted in a loop with no other way
// out, which a compiler turns into vector instructions.
pub fn rising<F: Fn(usize) -> u32>(word: F, from: usize, end: usize) -> bool
    requires callable { (i : ℕ) → i < end → F.pre word i }
    requires from_le_end { from ≤ end }
    requires end_bound { end ≤ from + 4294967295 }
    requires end_fits { end < 18446744073709551615 }
    ensures { (f : ℕ → ℕ) → ((i x : ℕ) → i < end → F.post word i x → x ≡ f i) → result ≡ rises (run f from (end - from)) }
{
    let mut falls: u32 = 0;
    for i in from + 1..end {
        falls += fall_of(word(i - 1), word(i));
    }
    falls == 0
}

// Whether n words of a volume from stream index `from` on rise. It reads each word once and ends at
// the first fall. Kept beside `rising`, which reads two words a step, up to the end: with that one a
// volume that is refused for its order takes up to five times as long.
fn words_rise(volume: &[u8], from: usize, n: usize) -> bool
    requires { from + n ≤ stream_length volume.now }
    ensures { result ≡ rises (run (word volume.now) from n) }
{
    if n == 0 {
        return true;
    }
    let end = from + n;
    let mut last = word_at(volume, from);
    for i in from + 1..end {
        let next = word_at(volume, i);
        if next <= last {
            return false;
        }
        last = next;
    }
    true
}

// The lowest list that does not rise. Kept beside `bad_given` of the writer: one function for both
// would take two closures and, for the bound of its sums, a ghost function of the lists' sizes.
fn walk_lists(volume: &[u8], lists: usize) -> Option<usize>
    requires lists_value { lists ≡ list_count volume.now }
    requires lists_bound { lists ≤ 1024 }
    requires volume_bound { extent volume.now ≤ stream_length volume.now }
    ensures { result ≡ index_below (list_count volume.now) (bad_list volume.now) }
{
    let mut start: usize = lead(lists);
    for i in 0..lists {
        let size = count_at(volume, i) as usize;
        if !words_rise(volume, start, size) {
            return Some(i);
        }
        start += size;
    }
    None
}

// The same, given the falls of the whole stream and the number of words in front of the zeros.
pub fn bad_list(whole: &Blocks<'_>, lists: usize, used: usize, all: usize) -> Option<usize>
    requires lists_value { lists ≡ list_count whole.now.bytes.now }
    requires lists_bound { lists ≤ 1024 }
    requires used_value { used ≡ extent whole.now.bytes.now }
    requires used_bound { used ≤ stream_length whole.now.bytes.now }
    requires all_value { all ≡ falls_before whole.now.bytes.now (stream_length whole.now.bytes.now) }
    ensures { result ≡ index_below (list_count whole.now.bytes.now) (bad_list whole.now.bytes.now) }
{
    let volume = whole.bytes;
    let end = BLOCK_WORDS * (volume.len() / BLOCK_BYTES);
    let head = falls_from(whole, 0, lead(lists));
    let tail = falls_from(whole, used, end);
    if head + list_falls(whole, lists) + tail == all {
        None
    } else {
        walk_lists(volume, lists)
    }
}
