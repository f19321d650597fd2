// The stream of a volume's words.
ghost use Rattle.std.specs.Prelude.{◌≡◌, ◌+◌, ◌*◌, ◌%◌, ◌-◌, ◌<◌, ◌≤◌};
ghost use Rattle.seq.specs.Numbers.{first_from, sum_to, index_below};
ghost use Rattle.volume.specs.Layout.{word, entry, count, stream_length};
ghost use Rattle.volume.specs.Check.{padding_wrong};
ghost use Rattle.volume.specs.Inner.Below.{below_count};

use super::layout::{BLOCK_BYTES, BLOCK_WORDS, entry};
use super::posting::Posting;
use block::read32;

// Stream word i.
pub fn word_at(volume: &[u8], i: usize) -> u32
    requires { i < stream_length volume.now }
    ensures { result ≡ word volume.now i }
{
    read32(volume, 4 * i + 8 * (i / BLOCK_WORDS) + 4)
}

// Stream word i as a posting.
pub fn posting_at(volume: &[u8], i: usize) -> Posting
    requires { i < stream_length volume.now }
    ensures { result ≡ record { bits = word volume.now i } }
{
    Posting {
        bits: word_at(volume, i),
    }
}

// The word k behind stream word i, of the same block. Kept beside `word_at`: its place follows from
// that of word i, with no division of its own.
pub fn word_behind(volume: &[u8], i: usize, k: usize) -> u32
    requires k_bound { i % 126 + k < 126 }
    requires k_bound_2 { i + k < stream_length volume.now }
    ensures { result ≡ word volume.now (i + k) }
{
    read32(volume, 4 * i + 8 * (i / BLOCK_WORDS) + 4 + 4 * k)
}

// Word k of the words of a block. Kept beside `word_at`: its place needs no division.
pub fn word_in_block(volume: &[u8], block: usize, k: usize) -> u32
    requires k_bound { k < 126 }
    requires k_bound_2 { 126 * block + k < stream_length volume.now }
    ensures { result ≡ word volume.now (126 * block + k) }
{
    read32(volume, BLOCK_BYTES * block + 4 * k + 4)
}

// How many of the seven words from stream index i on, all in one block, are below target.
pub fn below_in_window(volume: &[u8], i: usize, target: u64) -> usize
    requires i_bound { i % 126 ≤ 119 }
    requires i_bound_2 { i + 7 ≤ stream_length volume.now }
    ensures value { result ≡ below_count volume.now target i 7 }
    ensures upper_bound { result ≤ 7 }
{
    let from = 4 * i + 8 * (i / BLOCK_WORDS) + 4;
    let mut n: usize = 0;
    for j in 0..7 {
        n += usize::from(u64::from(read32(volume, from + 4 * j)) < target);
    }
    n
}

// The same of seven words that need not be of one block. They are counted from the last one to the
// first: a loop of another shape, which a compiler keeps apart from that of `below_in_window`.
pub fn below_across(volume: &[u8], i: usize, target: u64) -> usize
    requires { i + 7 ≤ stream_length volume.now }
    ensures value { result ≡ below_count volume.now target i 7 }
    ensures upper_bound { result ≤ 7 }
{
    let mut n: usize = 0;
    for behind in 0..7 {
        n += usize::from(u64::from(word_at(volume, i + 6 - behind)) < target);
    }
    n
}

// How many postings list i has.
pub fn count_at(volume: &[u8], i: usize) -> u32
    requires { entry i < stream_length volume.now }
    ensures { result ≡ count volume.now i }
{
    word_at(volume, entry(i))
}

// The sum of the first n counts. Kept beside `sum_of` of the writer, a chain over a slice: these
// counts are read word by word.
pub fn count_sum(volume: &[u8], n: usize) -> u64
    requires n_bound { n ≤ 1024 }
    requires n_bound_2 { entry n ≤ stream_length volume.now }
    ensures value { result ≡ sum_to (count volume.now) n }
    ensures upper_bound { result ≤ 4294967296 * n }
{
    let mut sum: u64 = 0;
    for i in 0..n {
        sum += u64::from(count_at(volume, i));
    }
    sum
}

// The first word that is not 0 from stream index `from` up to `end`.
pub fn bad_word(volume: &[u8], from: usize, end: usize) -> Option<usize>
    requires from_le_end { from ≤ end }
    requires end_bound { end ≤ stream_length volume.now }
    ensures { result ≡ index_below end (first_from (padding_wrong volume.now) from (end - from)) }
{
    for i in from..end {
        if word_at(volume, i) != 0 {
            return Some(i);
        }
    }
    None
}
