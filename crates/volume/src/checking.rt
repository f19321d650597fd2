// Checking a volume.
ghost use Rattle.std.specs.Prelude.{◌≡◌, ◌≤◌};
ghost use Rattle.volume.specs.Layout.{blocks, stream_length};
ghost use Rattle.volume.specs.Answers.{said_checked};
ghost use Rattle.volume.specs.Check.{length_wrong, stream_verdict, verdict};
ghost use Rattle.volume.specs.Inner.Falls.{falls_before};

use super::answers::{Refusal, Sizes};
use super::blocks::{Blocks, check_blocks};
use super::layout::{BLOCK_BYTES, BLOCK_WORDS, LAST_WORD, MAX_BLOCKS, MAX_LISTS, extent_of, lead};
use super::order::bad_list;
use super::stream::{bad_word, count_sum, word_at};

// Whether the length is wrong.
fn length_wrong(volume: &[u8]) -> bool
    ensures { result ≡ length_wrong volume.now }
{
    let blocks = volume.len() / BLOCK_BYTES;
    volume.len() == 0 || volume.len() % BLOCK_BYTES != 0 || MAX_BLOCKS < blocks
}

// The stream of a volume whose blocks are in order, given its falls.
fn check_stream(whole: &Blocks<'_>, all: usize) -> Result<Sizes, Refusal>
    requires bound { 1 ≤ blocks whole.now.bytes.now }
    requires all_value { all ≡ falls_before whole.now.bytes.now (stream_length whole.now.bytes.now) }
    ensures { said_checked result ≡ stream_verdict whole.now.bytes.now }
{
    let volume = whole.bytes;
    let end = BLOCK_WORDS * (volume.len() / BLOCK_BYTES);
    if word_at(volume, 0) != 1 {
        return Err(Refusal::Version);
    }
    let t = word_at(volume, 1);
    let lists = t as usize;
    if lists < 1 || MAX_LISTS < lists {
        return Err(Refusal::ListCount);
    }
    if end < lead(lists) {
        return Err(Refusal::Extent);
    }
    let sum = count_sum(volume, lists) as usize;
    let used = extent_of(lists, sum);
    if (used + LAST_WORD) / BLOCK_WORDS != volume.len() / BLOCK_BYTES {
        return Err(Refusal::Extent);
    }
    if let Some(list) = bad_list(whole, lists, used, all) {
        return Err(Refusal::Order(list as u32));
    }
    if let Some(i) = bad_word(volume, used, end) {
        return Err(Refusal::Padding(i as u32));
    }
    Ok(Sizes {
        lists: t,
        postings: sum as u32,
    })
}

// The number of lists and of postings of a volume, or why it is refused.
pub fn check(volume: &[u8]) -> Result<Sizes, Refusal>
    ensures { said_checked result ≡ verdict volume.now }
{
    if length_wrong(volume) {
        return Err(Refusal::Length);
    }
    let whole = Blocks { bytes: volume };
    let falls = check_blocks(&whole)?;
    check_stream(&whole, falls)
}
