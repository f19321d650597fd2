// Bytes: little-endian numbers in a slice, and the checksum of a block (01: check).
//
// `read16`, `read32`, `put16`, `put32` and `block_sums` ask that the bytes stand inside the slice.
// `first_half`, `second_half` and `sums_of` ask nothing: they are for whoever has a block's halves
// apart, in whatever order they come.
#![tactic(auto)]

mod bytes;
mod checksum;
mod rows;

pub use bytes::{put16, put32, read16, read32};
pub use checksum::{Half, Sums, block_sums, first_half, second_half, sums_of};
