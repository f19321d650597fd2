// Patterns (01: figures), written from the end of their text to its beginning. What writes rows
// answers the row at which they begin.
ghost use Rattle.std.specs.Prelude.{◌∷◌, [], ◌≡◌, ◌≤◌, length};
ghost use Rattle.grammar.specs.Grammar.{condition_text};
ghost use Rattle.grammar.specs.Query.{condition_of};
ghost use Rattle.printer.specs.Inner.Writing.{Put, Over, begun, Formed, behind_voice};
ghost use Rattle.printer.specs.Inner.Writing.{ListsRoom, ListsPut, OpenRoom, OpenPut};
ghost use Rattle.printer.specs.Inner.Writing.{PatternRoom, PatternPut};

use super::bytes::Text;
use plan::{Kind, Predicate, is_voice, list_at, row_at};

// The beginning of a condition: `;` and its letter.
fn put_letter(letter: u8, text: &mut Text)
    requires { 2 ≤ text.old.at }
    ensures put { Put (begun letter []) text.old text.new }
    ensures same { text.new.out.ghost_name ≡ text.old.out.ghost_name }
{
    text.put_byte(letter);
    text.put_byte(b';');
}

// The same with the two variables that it names.
fn put_pair(letter: u8, a: u32, b: u32, text: &mut Text)
    requires { length (begun letter (a ∷ b ∷ [])) ≤ text.old.at }
    ensures put { Put (begun letter (a ∷ b ∷ [])) text.old text.new }
    ensures same { text.new.out.ghost_name ≡ text.old.out.ghost_name }
{
    text.put_spaced(b);
    text.put_spaced(a);
    put_letter(letter, text);
}

// A condition.
fn put_condition(predicate: Predicate, text: &mut Text)
    requires { length (condition_text (condition_of predicate)) ≤ text.old.at }
    ensures put { Put (condition_text (condition_of predicate)) text.old text.new }
    ensures same { text.new.out.ghost_name ≡ text.old.out.ghost_name }
{
    match predicate {
        Predicate::Distance { a, b, limit } => {
            text.put_spaced(limit);
            put_pair(b'n', a, b, text);
        }
        Predicate::Ordered { a, b } => put_pair(b'b', a, b, text),
        Predicate::Samepara { a, b } => put_pair(b't', a, b, text),
        Predicate::Window { limit } => {
            text.put_spaced(limit);
            put_letter(b's', text);
        }
        Predicate::Proximity { a, b, least, most } => {
            text.put_spaced(u32::from(most));
            text.put_spaced(u32::from(least));
            put_pair(b'a', a, b, text);
        }
    }
}

// Whether a row stands behind a VOICE.
fn behind_voice(plan: &[u32], row: usize) -> bool
    requires { Formed plan.now row }
    ensures { result ≡ behind_voice plan.now row }
{
    row != 0 && is_voice(row_at(plan, row - 1).kind)
}

// The list numbers of a pattern whose last VOICE is row `last`, with `[` in front.
fn put_lists(plan: &[u32], last: usize, text: &mut Text) -> usize
    requires { ListsRoom plan.now last text.old.at }
    ensures put { Over (ListsPut plan.now last) text.old text.new result }
    ensures same { text.new.out.ghost_name ≡ text.old.out.ghost_name }
{
    text.put_number(list_at(plan, last));
    if behind_voice(plan, last) {
        text.put_byte(b' ');
        put_lists(plan, last - 1, text)
    } else {
        text.put_byte(b'[');
        last
    }
}

// A pattern without its closing bracket, where row `last` is its last one in front of END.
fn put_open(plan: &[u32], last: usize, text: &mut Text) -> usize
    requires { OpenRoom plan.now last text.old.at }
    ensures put { Over (OpenPut plan.now last) text.old text.new result }
    ensures same { text.new.out.ghost_name ≡ text.old.out.ghost_name }
{
    match row_at(plan, last).kind {
        Kind::Condition(predicate) => {
            put_condition(predicate, text);
            put_open(plan, last - 1, text)
        }
        Kind::Voice(_) => put_lists(plan, last, text),
        Kind::End | Kind::Operator(_) => unreachable!(),
    }
}

// A pattern, where row `last` is its END.
pub fn put_pattern(plan: &[u32], last: usize, text: &mut Text) -> usize
    requires { PatternRoom plan.now last text.old.at }
    ensures put { Over (PatternPut plan.now last) text.old text.new result }
    ensures same { text.new.out.ghost_name ≡ text.old.out.ghost_name }
{
    text.put_byte(b']');
    put_open(plan, last - 1, text)
}
