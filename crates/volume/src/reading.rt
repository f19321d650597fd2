// Reading a list of a volume.
ghost use Rattle.std.specs.Prelude.{◌≡◌, ◌++◌, ℕ, ◌+◌, ◌<◌, ◌≤◌, length, get_or, drop};
ghost use Rattle.seq.specs.Numbers.{run};
ghost use Rattle.volume.specs.Answers.{said_read};
ghost use Rattle.volume.specs.Layout.{word, list_count, stream_length, start};
ghost use Rattle.volume.specs.Inner.Places.{list_span_of};
ghost use Rattle.volume.specs.Check.{Accepted};
ghost use Rattle.volume.specs.Read.{read_answer, read_out};

use super::answers::ReadError;
use super::checking::check;
use super::layout::{ListSpan, lead};
use super::stream::{count_at, count_sum, word_at};

// The span of a list of an accepted volume.
pub fn list_span(volume: &[u8], list: usize) -> ListSpan
    requires accepted { Accepted volume.now }
    requires list_bound { list < list_count volume.now }
    ensures { result ≡ list_span_of volume.now list }
{
    let lists = word_at(volume, 1) as usize;
    let before = count_sum(volume, list) as usize;
    let count = count_at(volume, list) as usize;
    let start = lead(lists) + before;
    ListSpan { start, count }
}

// Where the first n lists of an accepted volume lie: the stream index of each one's first posting,
// and behind them the index behind the last.
pub fn list_starts(volume: &[u8], n: usize, starts: &mut [usize])
    requires accepted { Accepted volume.now }
    requires n_bound { n ≤ list_count volume.now }
    requires n_in_bounds { n < length starts.old }
    ensures by_index { (i : ℕ) → i ≤ n → get_or starts.new i 0 ≡ start volume.now i }
    ensures starts_len_unchanged { length starts.new ≡ length starts.old }
{
    let lists = word_at(volume, 1) as usize;
    let mut at = lead(lists);
    starts[0] = at;
    for i in 0..n {
        at += count_at(volume, i) as usize;
        starts[i + 1] = at;
    }
}

// Copies the postings from stream index `from` on, n of them, to the front of out.
fn copy_postings(volume: &[u8], from: usize, n: usize, out: &mut [u32])
    requires n_bound { from + n ≤ stream_length volume.now }
    requires n_in_bounds { n ≤ length out.old }
    ensures { out.new ≡ run (word volume.now) from n ++ drop n out.old }
{
    for (i, posting) in out[..n].iter_mut().enumerate() {
        *posting = word_at(volume, from + i);
    }
}

// Copies list number `list` (0 too) of a volume to the front of out, and answers how many postings
// it has.
pub fn read_list(volume: &[u8], list: u32, out: &mut [u32]) -> Result<u32, ReadError>
    ensures result_value { said_read result ≡ read_answer volume.now list (length out.old) }
    ensures out_after { out.new ≡ read_out volume.now list out.old }
{
    let sizes = check(volume)?;
    if sizes.lists <= list {
        return Err(ReadError::NoList);
    }
    let span = list_span(volume, list as usize);
    let n = span.count;
    if out.len() < n {
        return Err(ReadError::Short);
    }
    copy_postings(volume, span.start, n, out);
    Ok(n as u32)
}
