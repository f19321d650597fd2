// Volumes: an inverted index as a file. `check` reads a volume's sizes or says why it is refused,
// `read_list` copies a list out of it, `write` makes the volume of given lists, and `code_of` gives
// the number and the place of a refusal.
//
// None of the four has a `requires`. What each one answers, and what it leaves in a lent buffer, is
// an equation with a definition of `specs/`. `word_at`, `word_behind`, `word_in_block`,
// `posting_at`, `below_in_window`, `below_across` and `count_at` serve the crates above, on a volume
// that they have checked. `Volume` is the bytes of one, and says where its lists lie; `entry`, `lead`
// and `extent_of` say where the other parts stand. `put_made` stores a block of a volume whose words
// are made on the way.
#![tactic(auto)]

mod accepted;
mod answers;
mod blocks;
mod checking;
mod codes;
mod layout;
mod order;
mod posting;
mod reading;
mod stream;
mod writing;

pub use accepted::Volume;
pub use answers::{ReadError, Refusal, Sizes, WriteError};
pub use checking::check;
pub use codes::{Code, code_of};
pub use layout::{
    BLOCK_BYTES, BLOCK_WORDS, LAST_WORD, ListSpan, MAX_LISTS, MAX_WORDS, entry, extent_of, lead,
};
pub use posting::Posting;
pub use reading::read_list;
pub use stream::{
    below_across, below_in_window, count_at, posting_at, word_at, word_behind, word_in_block,
};
pub use writing::{put_made, write};
