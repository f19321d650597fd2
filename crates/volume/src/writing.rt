// The writer: the volume of given counts and postings.
//
// All refusals are tested before a byte is stored. The volume is then stored block by block, and the
// checksum of each block is taken while its bytes are at hand.
ghost use Rattle.std.specs.Prelude.{◌≡◌, ℕ, ◌+◌, ◌*◌, ◌-◌, ◌≤◌, ◌<◌, length, take};
ghost use Rattle.seq.specs.Lists.{at};
ghost use Rattle.seq.specs.Numbers.{sum_to, index_below};
ghost use Rattle.volume.specs.Answers.{said_written};
ghost use Rattle.volume.specs.Write.{block_body, sealed, bad_given, write_answer, write_out};
ghost use Rattle.volume.specs.Inner.Storing.{given, filled, stored, stored_first, IsBlock};

use super::answers::WriteError;
use super::layout::{
    BLOCK_BYTES, BLOCK_WORDS, LAST_WORD, MAX_LISTS, MAX_WORDS, SUM_A, SUM_B, entry, extent_of, lead,
};
use super::order::rising;
use block::{block_sums, put16, put32};

// The lists that are given to the writer: how many postings each has, and the postings of all.
#[derive(Clone, Copy)]
struct Lists<'a> {
    counts: &'a [u32],
    postings: &'a [u32],
    ghost few: { length counts.now ≤ 1024 },
}

// The sum of the counts.
fn sum_of(lists: &Lists<'_>) -> u64
    ensures { result ≡ sum_to (at lists.now.counts.now) (length lists.now.counts.now) }
{
    lists.counts.iter().map(|&count| u64::from(count)).sum()
}

// The lowest given list that does not rise.
fn bad_given(counts: &[u32], postings: &[u32]) -> Option<usize>
    requires { sum_to (at counts.now) (length counts.now) ≡ length postings.now }
    ensures { result ≡ index_below (length counts.now) (bad_given counts.now postings.now) }
{
    let mut from: usize = 0;
    for (i, &count) in counts.iter().enumerate() {
        let end = from + count as usize;
        if !rising(|k| postings[k], from, end) {
            return Some(i);
        }
        from = end;
    }
    None
}

// Stream word i.
fn stream_word(lists: &Lists<'_>, i: usize) -> u32
    ensures { result ≡ given lists.now.counts.now lists.now.postings.now i }
{
    let front = lead(lists.counts.len());
    if i == 0 {
        1
    } else if i == 1 {
        lists.counts.len() as u32
    } else if i < front {
        lists.counts[i - entry(0)]
    } else if i - front < lists.postings.len() {
        lists.postings[i - front]
    } else {
        0
    }
}

// Stores what `word` gives as the words of a block. The first six are stored by themselves: what is
// left is a multiple of eight, which a compiler copies in vectors with nothing over. The checksum
// reads these words back at once, the last ones first, and would have to wait for words that were
// stored one by one.
fn put_words<F: Fn(usize) -> u32>(word: F, out: &mut [u8; BLOCK_BYTES])
    requires { (j : ℕ) → j < 126 → F.pre word j }
    ensures { (f : ℕ → ℕ) (from : ℕ) → ((j x : ℕ) → j < 126 → F.post word j x → x ≡ f (from + j)) → out.new ≡ filled f from out.old }
{
    for j in 0..6 {
        put32(out, 4 + 4 * j, word(j));
    }
    for j in 6..BLOCK_WORDS {
        put32(out, 4 + 4 * j, word(j));
    }
}

// Stores the stream words from `first` on as the words of a block. Where all of them are postings,
// as in nearly every block, they are copied with no test for each.
fn put_stream(lists: &Lists<'_>, first: usize, out: &mut [u8; BLOCK_BYTES])
    requires { first ≤ 1032192 }
    ensures { out.new ≡ filled (given lists.now.counts.now lists.now.postings.now) first out.old }
{
    let postings = lists.postings;
    let front = lead(lists.counts.len());
    if front <= first && first - front + BLOCK_WORDS <= postings.len() {
        let from = first - front;
        put_words(|j| postings[from + j], out);
    } else {
        // A copy: of what is lent, each field would be read anew behind each word that is stored.
        let own = *lists;
        put_words(|j| stream_word(&own, first + j), out);
    }
}

// Stores the checksum of a block behind its other bytes.
fn seal(out: &mut [u8; BLOCK_BYTES])
    ensures { out.new ≡ sealed (take 508 out.old) }
{
    let sums = block_sums(&out[..], 0);
    put16(out, SUM_A, sums.a);
    put16(out, SUM_B, sums.b);
}

// Stores block k. It takes a slice: of an array that is lent of a part of a slice, no contract of the
// library says what the part holds afterwards, so that `put_blocks` would not be proved.
fn put_block(lists: &Lists<'_>, k: usize, out: &mut [u8])
    requires k_bound { k < 8192 }
    requires out_len { length out.old ≡ 512 }
    ensures { out.new ≡ sealed (block_body (given lists.now.counts.now lists.now.postings.now) k) }
{
    let Some(block) = out.as_mut_array() else {
        unreachable!()
    };
    put32(block, 0, k as u32);
    put_stream(lists, BLOCK_WORDS * k, block);
    seal(block);
}

// Stores block k of a stream that is made on the way, given its words of that block.
pub fn put_made(words: &[u32], k: usize, out: &mut [u8])
    requires words_len { length words.now ≡ 126 }
    requires k_bound { k < 8192 }
    requires out_len { length out.old ≡ 512 }
    ensures { IsBlock words.now k out.new }
{
    let Some(block) = out.as_mut_array() else {
        unreachable!()
    };
    put32(block, 0, k as u32);
    put_words(|j| words[j], block);
    seal(block);
}

// Stores the blocks from `from` to `to`.
fn put_blocks(lists: &Lists<'_>, from: usize, to: usize, out: &mut [u8])
    requires from_le_to { from ≤ to }
    requires to_bound { to ≤ 8192 }
    requires to_in_bounds { 512 * to ≤ length out.old }
    ensures { out.new ≡ stored (given lists.now.counts.now lists.now.postings.now) from to out.old }
{
    for k in from..to {
        let start = BLOCK_BYTES * k;
        put_block(lists, k, &mut out[start..start + BLOCK_BYTES]);
    }
}

// Stores the first n blocks in three runs: those that hold counts, those of postings alone, and the
// others. In the second run the postings read and the blocks stored are two plain ranges, so that
// one test tells the compiled loop that they lie apart, and it copies several postings at a time.
fn put_volume(lists: &Lists<'_>, n: usize, out: &mut [u8])
    requires n_bound { n ≤ 8192 }
    requires n_in_bounds { 512 * n ≤ length out.old }
    ensures { out.new ≡ stored_first (given lists.now.counts.now lists.now.postings.now) n out.old }
{
    let front = lead(lists.counts.len());
    let full = ((front + lists.postings.len()) / BLOCK_WORDS).min(n);
    let first = ((front + LAST_WORD) / BLOCK_WORDS).min(full);
    put_blocks(lists, 0, first, out);
    put_blocks(lists, first, full, out);
    put_blocks(lists, full, n, out);
}

// Writes the volume of the counts and the postings to the front of the output, and answers the
// number of its blocks.
pub fn write(counts: &[u32], postings: &[u32], out: &mut [u8]) -> Result<u32, WriteError>
    ensures result_value { said_written result ≡ write_answer counts.now postings.now (length out.old) }
    ensures out_after { out.new ≡ write_out counts.now postings.now out.old }
{
    let count = counts.len();
    if count < 1 || count > MAX_LISTS {
        return Err(WriteError::ListCount);
    }
    let lists = Lists { counts, postings };
    if sum_of(&lists) != postings.len() as u64 {
        return Err(WriteError::CountSum);
    }
    if let Some(list) = bad_given(counts, postings) {
        return Err(WriteError::Order(list as u32));
    }
    let words = extent_of(count, postings.len());
    if words > MAX_WORDS {
        return Err(WriteError::TooLarge);
    }
    let n = (words + LAST_WORD) / BLOCK_WORDS;
    let size = BLOCK_BYTES * n;
    if out.len() < size {
        return Err(WriteError::Short);
    }
    put_volume(&lists, n, out);
    Ok(n as u32)
}
