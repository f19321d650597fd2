// Reading a pattern (02: figure) byte by byte: the state of the reading, and what a byte makes of
// it.
ghost use Rattle.std.specs.Prelude.{◌≡◌, ◌≤◌, ◌<◌, get_or};
ghost use Rattle.grammar.specs.Grammar as grammar;
ghost use Rattle.line.specs.Inner.States as states;

use grammar::Word;
use plan::{Kind, Predicate};

// Where in a pattern the reading is. The number that is being read is none where its first digit is
// still to come.
#[derive(Clone, Copy, Debug, PartialEq, Eq)]
pub enum State {
    // In its list numbers.
    Listing(Option<u32>),
    // Behind `;`.
    Semicolon,
    // Behind the letter of a condition.
    Lettered(Word),
    // In the numbers of a condition: how many stand in front of this one, and the first three of
    // them.
    Counting {
        word: Word,
        count: u32,
        front: [u32; 3],
        number: Option<u32>,
    },
}

// What a byte makes of a state.
#[derive(Clone, Copy, Debug, PartialEq, Eq)]
pub enum Next {
    Goes(State),
    // A row is whole. The state stands in front, where `Goes` has it: so a compiled loop leaves it
    // where it is.
    Emits(State, Kind),
    // The last row is whole, and END follows.
    Closes(Kind),
}

// A number with one more digit, where the byte is one, no zero stands in front and the limit is
// kept.
fn grow(number: Option<u32>, byte: u8, most: u32) -> Option<u32>
    requires { states.NumberMost 65536 number }
    ensures { result ≡ states.grown_by most number byte }
{
    if !byte.is_ascii_digit() {
        return None;
    }
    let digit = u32::from(byte - b'0');
    let value = match number {
        None => digit,
        Some(0) => return None,
        Some(front) => 10 * front + digit,
    };
    if most < value {
        return None;
    }
    Some(value)
}

// How many numbers a condition has.
fn arity(word: Word) -> u32
    ensures { result ≡ grammar.arity word }
{
    match word {
        Word::Near => 3,
        Word::Before | Word::Same => 2,
        Word::Span => 1,
        Word::Apart => 4,
    }
}

// The most that a number of a condition may be, with so many in front of it.
fn most_of(word: Word, count: u32) -> u32
    requires { count < grammar.arity word }
    ensures { result ≡ grammar.most_of word count }
{
    match word {
        Word::Apart if 2 <= count => 65535,
        _ => 65536,
    }
}

// Behind a whole number at the end of a list or of a condition.
fn ending(kind: Kind, byte: u8) -> Option<Next>
    ensures { result ≡ states.ending_state kind byte }
{
    match byte {
        b';' => Some(Next::Emits(State::Semicolon, kind)),
        b']' => Some(Next::Closes(kind)),
        _ => None,
    }
}

// The row of a condition whose last number is `last`, with the numbers in front of it.
fn condition(word: Word, front: [u32; 3], last: u32) -> Kind
    requires third_bound { get_or front 2 0 ≤ 65535 }
    requires last_most { states.LastMost word last }
    ensures { result ≡ states.condition_kind word front last }
{
    let [a, b, c] = front;
    let predicate = match word {
        Word::Near => Predicate::Distance { a, b, limit: last },
        Word::Before => Predicate::Ordered { a, b: last },
        Word::Same => Predicate::Samepara { a, b: last },
        Word::Span => Predicate::Window { limit: last },
        Word::Apart => Predicate::Proximity {
            a,
            b,
            least: c as u16,
            most: last as u16,
        },
    };
    Kind::Condition(predicate)
}

// In the list numbers.
fn in_list(number: Option<u32>, byte: u8) -> Option<Next>
    requires { states.NumberMost 65536 number }
    ensures { result ≡ states.step_listing number byte }
{
    if let Some(value) = grow(number, byte, 65536) {
        return Some(Next::Goes(State::Listing(Some(value))));
    }
    let kind = Kind::Voice(number?);
    if byte == b' ' {
        return Some(Next::Emits(State::Listing(None), kind));
    }
    ending(kind, byte)
}

// Behind `;`.
fn letter(byte: u8) -> Option<Next>
    ensures { result ≡ states.step_semicolon byte }
{
    let word = match byte {
        b'n' => Word::Near,
        b'b' => Word::Before,
        b't' => Word::Same,
        b's' => Word::Span,
        b'a' => Word::Apart,
        _ => return None,
    };
    Some(Next::Goes(State::Lettered(word)))
}

// Behind a whole number that is not the last of its condition.
fn another(word: Word, count: u32, front: [u32; 3], whole: u32, byte: u8) -> Option<Next>
    requires { count < 3 }
    ensures { result ≡ states.another_state word count front whole byte }
{
    if byte != b' ' {
        return None;
    }
    let mut front = front;
    // Each index is constant, so that a compiled loop keeps the numbers in registers.
    match count {
        0 => front[0] = whole,
        1 => front[1] = whole,
        _ => front[2] = whole,
    }
    Some(Next::Goes(State::Counting {
        word,
        count: count + 1,
        front,
        number: None,
    }))
}

// In the numbers of a condition.
fn in_condition(
    word: Word,
    count: u32,
    front: [u32; 3],
    number: Option<u32>,
    byte: u8,
) -> Option<Next>
    requires { states.StateMost (states.counting word count front number) }
    ensures { result ≡ states.step_counting word count front number byte }
{
    if let Some(value) = grow(number, byte, most_of(word, count)) {
        return Some(Next::Goes(State::Counting {
            word,
            count,
            front,
            number: Some(value),
        }));
    }
    let whole = number?;
    if count + 1 < arity(word) {
        return another(word, count, front, whole, byte);
    }
    ending(condition(word, front, whole), byte)
}

// What a byte makes of a state; none where no line of the grammar has the byte there.
pub fn step(state: State, byte: u8) -> Option<Next>
    requires { states.StateMost state }
    ensures { result ≡ states.step_state state byte }
{
    match state {
        State::Listing(number) => in_list(number, byte),
        State::Semicolon => letter(byte),
        State::Lettered(word) if byte == b' ' => Some(Next::Goes(State::Counting {
            word,
            count: 0,
            front: [0; 3],
            number: None,
        })),
        State::Lettered(_) => None,
        State::Counting {
            word,
            count,
            front,
            number,
        } => in_condition(word, count, front, number, byte),
    }
}
