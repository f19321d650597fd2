// Where the parts of a volume stand.
ghost use Rattle.std.specs.Prelude.{◌≡◌, ◌<◌};
ghost use Rattle.volume.specs.Layout.{entry, lead, extent_of};

// The bytes of a block.
pub const BLOCK_BYTES: usize = 512;

// The stream words of a block.
pub const BLOCK_WORDS: usize = 126;

// The last of these.
pub const LAST_WORD: usize = BLOCK_WORDS - 1;

// Where the first sum of its checksum stands in a block.
pub const SUM_A: usize = 508;

// Where the second one stands.
pub const SUM_B: usize = 510;

// The most blocks of a volume.
pub const MAX_BLOCKS: usize = 8192;

// The most lists of a volume.
pub const MAX_LISTS: usize = 1024;

// The most stream words of a volume.
pub const MAX_WORDS: usize = BLOCK_WORDS * MAX_BLOCKS;

// Where a list lies: the stream index of its first posting, and how many it has.
#[derive(Clone, Copy, Debug, PartialEq, Eq)]
pub struct ListSpan {
    pub start: usize,
    pub count: usize,
}

// The stream index of the count of list i.
pub fn entry(i: usize) -> usize
    requires { entry i < 18446744073709551616 }
    ensures { result ≡ entry i }
{
    2 + i
}

// The number of stream words in front of the postings of so many lists.
pub fn lead(lists: usize) -> usize
    requires { lead lists < 18446744073709551616 }
    ensures { result ≡ lead lists }
{
    entry(lists)
}

// The number of stream words in front of the zero words, for so many lists and postings.
pub fn extent_of(lists: usize, postings: usize) -> usize
    requires { extent_of lists postings < 18446744073709551616 }
    ensures { result ≡ extent_of lists postings }
{
    lead(lists) + postings
}
