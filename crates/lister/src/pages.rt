// The turns of the program: each has a listing call into a page, and gives the text to print.
ghost use Rattle.std.specs.Prelude.{◌≡◌, ◌∷◌, [], ◌+◌, ◌*◌, ◌≤◌, length, Err};
ghost use Rattle.seq.specs.Refusals.{refused};
ghost use Rattle.search.specs.Answers.{said_listed};
ghost use Rattle.fulltext.specs.Documents.{work};
ghost use Rattle.lister.specs.Text.{line, refused_word};
ghost use Rattle.lister.specs.Turns.{list_turn, turn_at};
ghost use Rattle.lister.specs.Inner.Stored.{Stored};
ghost use Rattle.lister.specs.Inner.Pages.{page_turn, rows_in, last, Told, Adds, Ready, Ahead};

use super::files::plan_words;
use super::text::Text;
use search::{ListError, Listing};
use volume::Code;

// The most bytes of a volume file that is listed.
pub const VOLUME: usize = 65536;

// The words of a page.
const PAGE: usize = 16384;

// The bytes that hold the text of any turn: 11 for each word of a page, 6 for each row, 30 for a
// line that is not a row's.
pub const TEXT: usize = 17 * PAGE + 30;

// Where a turn starts: at this document, behind pages whose tallies add up to this.
#[derive(Clone, Copy, Debug, PartialEq, Eq)]
pub struct Start {
    pub doc: u32,
    pub tally: u64,
}

// What a turn gives: how many bytes are to be printed, and where the next turn starts, if there is
// one.
#[derive(Clone, Copy, Debug, PartialEq, Eq)]
pub struct Turn {
    pub bytes: usize,
    pub next: Option<Start>,
}

impl Turn {
    // A turn with none behind it.
    fn last(bytes: usize) -> Turn
        ensures { result ≡ last bytes }
    {
        Turn { bytes, next: None }
    }
}

// The line of a refusal.
fn put_refusal(code: Code, out: &mut [u8]) -> usize
    requires { 30 ≤ length out.old }
    ensures { Stored out.old 0 (line refused_word (code.number ∷ code.at ∷ [])) out.new result }
{
    let mut text = Text { out, end: 0 };
    text.put_line(b"refused", &[code.number, code.at]);
    text.end
}

// The number and the place of a listing call's error.
fn code_of(error: ListError) -> Code
    ensures { said_listed (Err error) ≡ refused result.number result.at }
{
    match error {
        ListError::Refused(why) => plan::code_of(why),
        ListError::Start => Code { number: 15, at: 0 },
        ListError::Short => Code { number: 16, at: 0 },
    }
}

// The text of a listing call's answer, whose rows stand at the front of the page.
fn answer_text(
    listed: Result<Listing, ListError>,
    page: &[u32],
    width: usize,
    tally: u64,
    out: &mut [u8],
) -> Turn
    requires width_in_bounds { rows_in (said_listed listed) * width ≤ length page.now }
    requires tally_bound { tally + 4294967295 ≤ 18446744073709551615 }
    requires width_in_bounds_2 { rows_in (said_listed listed) * (6 + 11 * width) + 30 ≤ length out.old }
    ensures told { Told (page_turn (said_listed listed) width page.now tally) out.old out.new result }
    ensures adds { Adds tally (length out.old) result }
{
    match listed {
        Ok(listing) => {
            let mut text = Text { out, end: 0 };
            text.put_rows(page, listing.rows as usize, width);
            let tally = tally + u64::from(listing.tally);
            match listing.next {
                Some(doc) => Turn {
                    bytes: text.end,
                    next: Some(Start { doc, tally }),
                },
                None => {
                    text.put_done(tally);
                    Turn::last(text.end)
                }
            }
        }
        Err(error) => Turn::last(put_refusal(code_of(error), out)),
    }
}

// The turn over a volume and a plan whose rows are so many words wide.
fn page_text(volume: &[u8], plan: &[u32], width: usize, start: Start, out: &mut [u8]) -> Turn
    requires width_value { width ≡ (work volume.now plan.now).width }
    requires ready { Ready start.doc start.tally (length out.old) }
    ensures told { Told (list_turn volume.now plan.now start.doc start.tally) out.old out.new result }
    ensures ahead { Ahead start.doc (length out.old) result }
{
    let mut page = [0u32; PAGE];
    let listed = search::list(volume, plan, start.doc, &mut page);
    answer_text(listed, &page, width, start.tally, out)
}

// The turn over a volume and a plan.
fn list_text(volume: &[u8], plan: &[u32], start: Start, out: &mut [u8]) -> Turn
    requires { Ready start.doc start.tally (length out.old) }
    ensures told { Told (list_turn volume.now plan.now start.doc start.tally) out.old out.new result }
    ensures ahead { Ahead start.doc (length out.old) result }
{
    match plan::check(volume, plan) {
        Ok(sizes) => {
            let width = plan::row_words(sizes.patterns, sizes.vars);
            page_text(volume, plan, width, start, out)
        }
        Err(why) => Turn::last(put_refusal(plan::code_of(why), out)),
    }
}

// The turn over a volume file and a plan file.
pub fn turn_text(volume: &[u8], file: &[u8], start: Start, out: &mut [u8]) -> Turn
    requires { Ready start.doc start.tally (length out.old) }
    ensures told { Told (turn_at volume.now file.now start.doc start.tally) out.old out.new result }
    ensures ahead { Ahead start.doc (length out.old) result }
{
    if VOLUME < volume.len() {
        let mut text = Text { out, end: 0 };
        text.put_bytes(b"file too long\n");
        return Turn::last(text.end);
    }
    let mut words = [0u32; plan::MOST_WORDS];
    let n = plan_words(file, &mut words);
    list_text(volume, &words[..n], start, out)
}
