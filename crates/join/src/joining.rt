// Joining two volumes.
ghost use Rattle.std.specs.Prelude.{◌≡◌, ◌*◌, ◌≤◌, length};
ghost use Rattle.volume.specs.Layout.{list_count, posting_count, blocks_for};
ghost use Rattle.volume.specs.Inner.Storing.{stored_first};
ghost use Rattle.join.specs.Answers.{said_joined};
ghost use Rattle.join.specs.Join.{join_rest, join_answer, join_out};
ghost use Rattle.join.specs.Refusals.{extent_of_both};
ghost use Rattle.join.specs.Inner.Reading.{joined_word, Lifts};
ghost use Rattle.join.specs.Inner.Joining.{rest_out};

use super::answers::JoinError;
use super::docs::{doc_range, docs_clash};
use super::reading::front;
use super::sources::Sources;
use volume::{
    BLOCK_BYTES, BLOCK_WORDS, MAX_WORDS, Posting, Sizes, Volume, check, extent_of, put_made,
};

// What is added to a posting that is raised by so many documents; 0 where no posting can be. No
// `Option`: a second volume without postings is joined with any number, and nothing is added.
fn lift_of(raise: u32) -> u32
    ensures { raise ≤ 65535 → result ≡ 65536 * raise }
{
    if raise <= Posting::LAST_DOC {
        raise * Posting::POSITIONS
    } else {
        0
    }
}

// Stores the n blocks of the joined volume.
fn put_joined(sources: &Sources, n: usize, out: &mut [u8])
    requires n_value { n ≡ blocks_for (extent_of_both sources.now.first.now sources.now.second.now) }
    requires n_in_bounds { 512 * n ≤ length out.old }
    ensures { out.new
        ≡ stored_first (joined_word sources.now.lift sources.now.first.now sources.now.second.now) n out.old }
{
    let mut words: [u32; BLOCK_WORDS] = [0; BLOCK_WORDS];
    let mut merge = front(sources.lists);
    for k in 0..n {
        merge = sources.next_block(k, merge, &mut words);
        let start = BLOCK_BYTES * k;
        put_made(&words, k, &mut out[start..start + BLOCK_BYTES]);
    }
}

// Joins two volumes of as many lists. That the first holds bytes is not known of a slice in a
// struct: a clause says what follows for its postings.
fn join_checked(
    first: &Volume<'_>,
    second: &Volume<'_>,
    one: Sizes,
    two: Sizes,
    raise: u32,
    out: &mut [u8],
) -> Result<u32, JoinError>
    requires lists_value { one.lists ≡ list_count first.now.bytes.now }
    requires lists_value_2 { one.lists ≡ list_count second.now.bytes.now }
    requires postings_value { one.postings ≡ posting_count first.now.bytes.now }
    requires more_value { two.postings ≡ posting_count second.now.bytes.now }
    requires words { Lifts 0 first.now.bytes.now }
    ensures result_value { said_joined result
        ≡ record { volume = 0; said = join_rest raise first.now.bytes.now second.now.bytes.now (length out.old) } }
    ensures out_after { out.new ≡ rest_out raise first.now.bytes.now second.now.bytes.now out.old }
{
    let lists = one.lists as usize;
    if docs_clash(doc_range(first, lists), doc_range(second, lists), raise) {
        return Err(JoinError::Documents);
    }
    let postings = one.postings as usize;
    let more = two.postings as usize;
    let words = extent_of(lists, postings + more);
    if words > MAX_WORDS {
        return Err(JoinError::TooLarge);
    }
    let n = words.div_ceil(BLOCK_WORDS);
    if out.len() < BLOCK_BYTES * n {
        return Err(JoinError::Short);
    }
    let sources = Sources {
        first: first.bytes,
        second: second.bytes,
        lists,
        lift: lift_of(raise),
        all: extent_of(lists, postings) + extent_of(lists, more),
    };
    put_joined(&sources, n, out);
    Ok(n as u32)
}

// Writes the volume of the first's lists, each with the second's behind it, raised by so many
// documents, to the front of the output, and answers the number of its blocks.
pub fn join(first: &[u8], second: &[u8], raise: u32, out: &mut [u8]) -> Result<u32, JoinError>
    ensures result_value { said_joined result ≡ join_answer raise first.now second.now (length out.old) }
    ensures out_after { out.new ≡ join_out raise first.now second.now out.old }
{
    let one = check(first).map_err(JoinError::First)?;
    let two = check(second).map_err(JoinError::Second)?;
    if one.lists != two.lists {
        return Err(JoinError::ListCounts);
    }
    let first = Volume { bytes: first };
    let second = Volume { bytes: second };
    join_checked(&first, &second, one, two, raise, out)
}
