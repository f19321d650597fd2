// The blocks of a volume: their numbers and checksums, and the falls of the stream on the way.
ghost use Rattle.std.specs.Prelude.{◌≡◌, ◌<◌, ◌≤◌};
ghost use Rattle.volume.specs.Layout.{blocks};
ghost use Rattle.volume.specs.Inner.Places.{Whole};
ghost use Rattle.volume.specs.Check.{number_wrong, checksum_wrong};
ghost use Rattle.volume.specs.Inner.Falls.{block_answer, blocks_answer};

use super::answers::Refusal;
use super::layout::{BLOCK_BYTES, BLOCK_WORDS, LAST_WORD, SUM_A, SUM_B};
use super::order::{fall_at, falls_in};
use block::{block_sums, read16, read32};

// Bytes that are whole blocks, and no more of them than a volume has.
#[derive(Clone, Copy)]
pub struct Blocks<'a> {
    pub bytes: &'a [u8],
    ghost whole: { Whole bytes.now },
    ghost few: { blocks bytes.now ≤ 8192 },
}

// Whether the number of block k is wrong.
fn number_wrong(volume: &[u8], k: usize) -> bool
    requires { k < blocks volume.now }
    ensures { result ≡ number_wrong volume.now k }
{
    read32(volume, BLOCK_BYTES * k) as usize != k
}

// Whether the checksum of block k is wrong.
fn checksum_wrong(volume: &[u8], k: usize) -> bool
    requires { k < blocks volume.now }
    ensures { result ≡ checksum_wrong volume.now k }
{
    let from = BLOCK_BYTES * k;
    let sums = block_sums(volume, from);
    read16(volume, from + SUM_A) != sums.a || read16(volume, from + SUM_B) != sums.b
}

// Whether block k is in order.
fn check_block(volume: &[u8], k: usize) -> Result<(), Refusal>
    requires k_bound { k < blocks volume.now }
    requires volume_bound { blocks volume.now ≤ 8192 }
    ensures { result ≡ block_answer volume.now k }
{
    let block = k as u32;
    if number_wrong(volume, k) {
        return Err(Refusal::Number(block));
    }
    if checksum_wrong(volume, k) {
        return Err(Refusal::Checksum(block));
    }
    Ok(())
}

// One pass over the blocks: the falls of the stream, or why the lowest block that is wrong is
// refused.
pub fn check_blocks(whole: &Blocks<'_>) -> Result<usize, Refusal>
    ensures { result ≡ blocks_answer whole.now.bytes.now }
{
    let volume = whole.bytes;
    let mut falls: usize = 0;
    for k in 0..volume.len() / BLOCK_BYTES {
        check_block(volume, k)?;
        falls += falls_in(volume, k) as usize;
        falls += fall_at(whole, BLOCK_WORDS * k + LAST_WORD) as usize;
    }
    Ok(falls)
}
