// Reading a pattern (02: figure), and storing its rows.
ghost use Rattle.std.specs.Prelude.{◌≡◌, ◌≤◌, ◌<◌, length};
ghost use Rattle.plan.specs.Rows as rows;
ghost use Rattle.line.specs.Inner.Store as store;
ghost use Rattle.line.specs.Inner.Reads.{FigureRead};

use super::reading::{Reached, Stop};
use super::steps::{Next, State, step};
use plan::{Kind, LEAST_UNIT, Operator, Predicate};

// The four words of a row of this kind.
fn words_of(kind: Kind) -> [u32; 4]
    ensures { result ≡ rows.words_of kind }
{
    match kind {
        Kind::Voice(list) => [1, list, 0, 0],
        Kind::Condition(Predicate::Distance { a, b, limit }) => [2, a, b, limit],
        Kind::Condition(Predicate::Ordered { a, b }) => [3, a, b, 0],
        Kind::Condition(Predicate::Samepara { a, b }) => [4, a, b, 0],
        Kind::Condition(Predicate::Window { limit }) => [5, 0, 0, limit],
        Kind::End => [6, 0, 0, 0],
        Kind::Operator(Operator::Both) => [7, 0, 0, 0],
        Kind::Operator(Operator::Either) => [8, 0, 0, 0],
        Kind::Operator(Operator::FirstNotSecond) => [9, 0, 0, 0],
        Kind::Condition(Predicate::Proximity { a, b, least, most }) => {
            [10, a, b, u32::from(least) * LEAST_UNIT + u32::from(most)]
        }
        Kind::Operator(Operator::AtLeast { least, of }) => [11, least, of, 0],
    }
}

// Stores a row, where it fits.
pub fn put(out: &mut [u32], row: usize, kind: Kind)
    requires { row ≤ 4096 }
    ensures { out.new ≡ store.put_row out.old row kind }
{
    let at = 4 * row;
    if at + 4 <= out.len() {
        out[at..at + 4].copy_from_slice(&words_of(kind));
    }
}

// Reads a pattern whose opening bracket stands in front of `from`; its rows are from `first` on.
pub fn figure(text: &[u8], from: usize, first: usize, out: &mut [u32]) -> Result<Reached, Stop>
    requires { (from ≤ length text.now) × (length text.now ≤ 2048) × (first < from) }
    ensures { FigureRead text.now from first out.old out.new result }
{
    let mut state = State::Listing(None);
    let mut rows = first;
    for at in from..text.len() {
        let Some(next) = step(state, text[at]) else {
            return Err(Stop::Broken(at));
        };
        match next {
            Next::Goes(goes) => state = goes,
            Next::Emits(goes, kind) => {
                put(out, rows, kind);
                rows += 1;
                state = goes;
            }
            Next::Closes(kind) => {
                put(out, rows, kind);
                put(out, rows + 1, Kind::End);
                return Ok(Reached {
                    at: at + 1,
                    rows: rows + 2,
                });
            }
        }
    }
    Err(Stop::Broken(text.len()))
}
