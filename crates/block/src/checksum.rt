// The checksum of a block (01: check), from the sums of its two halves in any order (02, N1).
//
// With x0 .. x507 the bytes, A is 1 + the sum of x_i and B is 508 + the sum of (508 - i) * x_i,
// both mod 65,535. So each half has a plain and a weighted sum, and two halves are joined by
// adding them up. The stored checksum itself stands in the second half and is not summed.
ghost use Rattle.std.specs.Prelude.{◌≡◌, [], ◌∷◌, ◌+◌, ◌≤◌, length, take, drop};
ghost use Rattle.block.specs.Checksum.{check_a, check_b};
ghost use Rattle.block.specs.Parts.{part_of, sums_of, first_half, second_half};
ghost use Rattle.block.specs.Inner.Sums.{plain_of, weighted_of, AtMost};

use super::rows::{Row, RowSums, columns, half_rows, row_at, tilted};

// The two sums of a block.
#[derive(Clone, Copy, Debug, PartialEq, Eq)]
pub struct Sums {
    pub a: u32,
    pub b: u32,
}

// The sums of a half: its bytes, and each byte i of the block 508 - i times.
#[derive(Clone, Copy, Debug, PartialEq, Eq)]
pub struct Half {
    pub plain: u32,
    pub weighted: u32,
}

// The sums of a row and the 31 rows behind it, where nothing stands behind these.
fn half_sums(first: Row, rows: RowSums) -> Half
    requires at_most { AtMost 255 first }
    requires at_most_2 { AtMost 7905 rows.all }
    ensures plain_value { result.plain ≡ plain_of first rows }
    ensures plain_bound { result.plain ≤ 1048560 }
    ensures weighted_value { result.weighted ≡ weighted_of first rows }
    ensures weighted_bound { result.weighted ≤ 200000000 }
{
    let RowSums { all, near, far } = rows;
    let front = columns(first);
    let plain = front + columns(all);
    let weighted = 248 * front
        + columns(tilted(first))
        + 8 * columns(near)
        + 64 * columns(far)
        + columns(tilted(all));
    Half { plain, weighted }
}

// The sums of a block's first 256 bytes: 252 with 256 bytes behind them, and four with 252.
fn first_sums(half: &[u8]) -> Half
    requires { length half.now ≡ 256 }
    ensures { result ≡ first_half half.now }
{
    let rows = half_sums(row_at::<4>(half, 0), half_rows(half));
    let last = row_at::<4>(half, 252);
    let behind = columns(last);
    let plain = rows.plain + behind;
    let weighted = 256 * rows.plain + rows.weighted + 252 * behind + columns(tilted(last));
    Half { plain, weighted }
}

// The sums of its other 252 bytes in front of the checksum.
fn second_sums(half: &[u8]) -> Half
    requires { length half.now ≡ 252 }
    ensures { result ≡ part_of 256 half.now }
{
    half_sums(row_at::<4>(half, 0), half_rows(half))
}

// The sums of the first half of a block.
pub fn first_half(half: &[u8; 256]) -> Half
    ensures { result ≡ first_half half.now }
{
    first_sums(half)
}

// The sums of the second half of a block, whose last four bytes are the checksum.
pub fn second_half(half: &[u8; 256]) -> Half
    ensures { result ≡ second_half half.now }
{
    let bytes = &half[..];
    second_sums(&bytes[..252])
}

// The checksum of a block from the sums of its halves, whichever comes first.
pub fn sums_of(x: Half, y: Half) -> Sums
    ensures { result ≡ sums_of (x ∷ y ∷ []) }
{
    let a = 1 + u64::from(x.plain) + u64::from(y.plain);
    let b = 508 + u64::from(x.weighted) + u64::from(y.weighted);
    Sums {
        a: (a % 65535) as u32,
        b: (b % 65535) as u32,
    }
}

// The checksum of the block at `from`, over its bytes in front of it; the second half is summed
// first. It takes the slice and an offset, and makes the parts itself: compiled code hands a slice
// on by one load of its pointer and its count, which has to wait where they were stored one by one
// just before the call. Of the parts that are made here only the pointers are used.
pub fn block_sums(s: &[u8], from: usize) -> Sums
    requires { from + 508 ≤ length s.now }
    ensures a_value { result.a ≡ check_a (take 508 (drop from s.now)) }
    ensures b_value { result.b ≡ check_b (take 508 (drop from s.now)) }
{
    let second = second_sums(&s[from + 256..from + 508]);
    let first = first_sums(&s[from..from + 256]);
    sums_of(second, first)
}
