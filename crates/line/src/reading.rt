// Reading a line: the readers of lines, parts, items and of several lines call each other.
ghost use Rattle.std.specs.Prelude.{◌≡◌, ◌+◌, ◌≤◌, ◌<◌, length};
ghost use Rattle.line.specs.Inner.Reads.{LineRead, PartRead, ItemRead, SeveralRead, LinesRead, WholeRead};
ghost use Rattle.line.specs.Inner.Reads.{pending_rows};
ghost use Rattle.grammar.specs.Reading as grammar;
ghost use Rattle.line.specs.Inner.Store.{stored};

use super::figure::{figure, put};
use grammar::Connective;
use plan::{Kind, Operator};

// How far the reading comes: the byte behind what was read, and the number of rows so far.
#[derive(Clone, Copy, Debug, PartialEq, Eq)]
pub struct Reached {
    pub at: usize,
    pub rows: usize,
}

// Why the reading comes no further, with the byte.
#[derive(Clone, Copy, Debug, PartialEq, Eq)]
pub enum Stop {
    // It breaks the grammar.
    Broken(usize),
    // It opens a bracket inside eight.
    Deep(usize),
}

// The most brackets that may be open at once.
const MOST_DEPTH: usize = 8;
// The fewest and the most lines between `<` and `>`.
const FEWEST_LINES: u32 = 2;

const MOST_LINES: u32 = 8;

// Stores the row of the operator that waited for its second side, behind that side; gives the
// number of rows.
fn settle(out: &mut [u32], rows: usize, waiting: Option<Connective>) -> usize
    requires { rows ≤ 4095 }
    ensures out_after { out.new ≡ stored out.old rows (pending_rows waiting) }
    ensures value { result ≡ rows + length (pending_rows waiting) }
{
    let Some(connective) = waiting else {
        return rows;
    };
    let operator = match connective {
        Connective::And => Operator::Both,
        Connective::Or => Operator::Either,
        Connective::AndNot => Operator::FirstNotSecond,
    };
    put(out, rows, Kind::Operator(operator));
    rows + 1
}

// Reads a line from `at` on, inside so many brackets, where `waiting` waits for its first part.
#[cycle(item_line_lines_part_several)]
fn line(
    text: &[u8],
    at: usize,
    depth: usize,
    first: usize,
    waiting: Option<Connective>,
    out: &mut [u32],
) -> Result<Reached, Stop>
    requires { (at ≤ length text.now) × (length text.now ≤ 2048) × (depth ≤ 8) × (first + length (pending_rows waiting) ≤ at) }
    ensures { LineRead text.now at depth first waiting out.old out.new result }
{
    let Reached { at: end, rows } = part(text, at, depth, first, None, out)?;
    let rows = settle(out, rows, waiting);
    if text.get(end) == Some(&b'|') {
        return line(text, end + 1, depth, rows, Some(Connective::Or), out);
    }
    Ok(Reached { at: end, rows })
}

// Reads items joined by `&` and `!`.
#[cycle(item_line_lines_part_several)]
fn part(
    text: &[u8],
    at: usize,
    depth: usize,
    first: usize,
    waiting: Option<Connective>,
    out: &mut [u32],
) -> Result<Reached, Stop>
    requires { (at ≤ length text.now) × (length text.now ≤ 2048) × (depth ≤ 8) × (first + length (pending_rows waiting) ≤ at) }
    ensures { PartRead text.now at depth first waiting out.old out.new result }
{
    let Reached { at: end, rows } = item(text, at, depth, first, out)?;
    let rows = settle(out, rows, waiting);
    let next = text.get(end);
    if next == Some(&b'&') {
        return part(text, end + 1, depth, rows, Some(Connective::And), out);
    }
    if next == Some(&b'!') {
        return part(text, end + 1, depth, rows, Some(Connective::AndNot), out);
    }
    Ok(Reached { at: end, rows })
}

// Reads a figure, a line in round brackets, or so many of several lines.
#[cycle(item_line_lines_part_several)]
fn item(
    text: &[u8],
    at: usize,
    depth: usize,
    first: usize,
    out: &mut [u32],
) -> Result<Reached, Stop>
    requires { (at ≤ length text.now) × (length text.now ≤ 2048) × (depth ≤ 8) × (first ≤ at) }
    ensures { ItemRead text.now at depth first out.old out.new result }
{
    let Some(&byte) = text.get(at) else {
        return Err(Stop::Broken(at));
    };
    match byte {
        b'[' => figure(text, at + 1, first, out),
        b'<' if depth < MOST_DEPTH => several(text, at + 1, depth + 1, first, out),
        b'(' if depth < MOST_DEPTH => {
            let Reached { at: end, rows } = line(text, at + 1, depth + 1, first, None, out)?;
            if text.get(end) != Some(&b')') {
                return Err(Stop::Broken(end));
            }
            Ok(Reached { at: end + 1, rows })
        }
        b'<' | b'(' => Err(Stop::Deep(at)),
        _ => Err(Stop::Broken(at)),
    }
}

// Reads the number and the lines behind a `<`, to its `>`.
#[cycle(item_line_lines_part_several)]
fn several(
    text: &[u8],
    at: usize,
    depth: usize,
    first: usize,
    out: &mut [u32],
) -> Result<Reached, Stop>
    requires { (at ≤ length text.now) × (length text.now ≤ 2048) × (depth ≤ 8) × (first ≤ at) }
    ensures { SeveralRead text.now at depth first out.old out.new result }
{
    let Some(&byte) = text.get(at) else {
        return Err(Stop::Broken(at));
    };
    if !matches!(byte, b'1'..=b'8') {
        return Err(Stop::Broken(at));
    }
    if text.get(at + 1) != Some(&b':') {
        return Err(Stop::Broken(at + 1));
    }
    lines(text, at + 2, depth, u32::from(byte - b'0'), 0, first, out)
}

// Reads lines joined by commas, to the `>`, where `least` of them are asked for and `count` have been
// read.
#[cycle(item_line_lines_part_several)]
fn lines(
    text: &[u8],
    at: usize,
    depth: usize,
    least: u32,
    count: u32,
    first: usize,
    out: &mut [u32],
) -> Result<Reached, Stop>
    requires at_in_bounds { (at ≤ length text.now) × (length text.now ≤ 2048) × (depth ≤ 8) × (first ≤ at) }
    requires le_least { (1 ≤ least) × (least ≤ 8) × (count < 8) }
    ensures { LinesRead text.now at depth least count first out.old out.new result }
{
    let Reached { at: end, rows } = line(text, at, depth, first, None, out)?;
    let read = count + 1;
    let Some(&byte) = text.get(end) else {
        return Err(Stop::Broken(end));
    };
    match byte {
        b',' if read < MOST_LINES => lines(text, end + 1, depth, least, read, rows, out),
        b'>' if FEWEST_LINES <= read && least <= read => {
            let operator = Operator::AtLeast { least, of: read };
            put(out, rows, Kind::Operator(operator));
            Ok(Reached {
                at: end + 1,
                rows: rows + 1,
            })
        }
        _ => Err(Stop::Broken(end)),
    }
}

// Reads a whole text; the rows of a line are stored from the front, as far as they fit.
pub fn read_rows(text: &[u8], out: &mut [u32]) -> Result<Reached, Stop>
    requires { length text.now ≤ 2048 }
    ensures { WholeRead text.now out.old out.new result (grammar.reading text.now) }
{
    let whole = line(text, 0, 0, 0, None, out)?;
    if whole.at < text.len() {
        return Err(Stop::Broken(whole.at));
    }
    Ok(whole)
}
