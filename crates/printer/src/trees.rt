// Trees of patterns, written from the end of their text to its beginning, with no round bracket
// that could be dropped. Each function that writes rows answers the row at which they begin.
ghost use Rattle.std.specs.Prelude.{◌≡◌};
ghost use Rattle.plan.specs.Rows.{row_at};
ghost use Rattle.plan.specs.declared.row.Kind.TheVariants as kind;
ghost use Rattle.plan.specs.declared.row.Operator.TheVariants as operator;
ghost use Rattle.grammar.specs.Query.{operator_for};
ghost use Rattle.printer.specs.declared.trees.Level.TheVariants as level;
ghost use Rattle.printer.specs.Inner.Trees.{bracketed, left_level, right_level, connective_byte};
ghost use Rattle.printer.specs.Inner.Writing.{Over};
ghost use Rattle.printer.specs.Inner.Trees.{TreeRoom, TreePut, LinesRoom, LinesPut};

use super::bytes::{Text, digit_of};
use super::patterns::put_pattern;
use grammar::Connective;
use plan::{Kind, Operator, row_at};

// What a tree is written as: a line, a part of one, or an item of a part.
#[derive(Clone, Copy, Debug, PartialEq, Eq)]
pub enum Level {
    Line,
    Part,
    Item,
}

// Whether what a connective joins stands in round brackets.
fn is_bracketed(level: Level, connective: Connective) -> bool
    ensures { result ≡ bracketed level connective }
{
    matches!(
        (level, connective),
        (Level::Item, _) | (Level::Part, Connective::Or)
    )
}

// What the first side of a connective is written as.
fn left_level(connective: Connective) -> Level
    ensures { result ≡ left_level connective }
{
    match connective {
        Connective::Or => Level::Line,
        Connective::And | Connective::AndNot => Level::Part,
    }
}

// What its second side is written as.
fn right_level(connective: Connective) -> Level
    ensures { result ≡ right_level connective }
{
    match connective {
        Connective::Or => Level::Part,
        Connective::And | Connective::AndNot => Level::Item,
    }
}

// The byte between the two.
fn byte_of(connective: Connective) -> u8
    ensures { result ≡ connective_byte connective }
{
    match connective {
        Connective::And => b'&',
        Connective::Or => b'|',
        Connective::AndNot => b'!',
    }
}

// The tree whose last row is row `last`.
#[cycle(put_lines_put_node_put_threshold_put_tree)]
pub fn put_tree(plan: &[u32], last: usize, level: Level, text: &mut Text) -> usize
    requires { TreeRoom plan.now last level text.old.at }
    ensures put { Over (TreePut plan.now last level) text.old text.new result }
    ensures same { text.new.out.ghost_name ≡ text.old.out.ghost_name }
{
    match row_at(plan, last).kind {
        Kind::Operator(operator) => match operator {
            Operator::Both => put_node(plan, last, Connective::And, level, text),
            Operator::Either => put_node(plan, last, Connective::Or, level, text),
            Operator::FirstNotSecond => put_node(plan, last, Connective::AndNot, level, text),
            Operator::AtLeast { least, of } => put_threshold(plan, last, least, of, text),
        },
        Kind::End => put_pattern(plan, last, text),
        Kind::Voice(_) | Kind::Condition(_) => unreachable!(),
    }
}

// The tree of a connective whose row is row `last`.
#[cycle(put_lines_put_node_put_threshold_put_tree)]
fn put_node(
    plan: &[u32],
    last: usize,
    connective: Connective,
    level: Level,
    text: &mut Text,
) -> usize
    requires tree_room { TreeRoom plan.now last level text.old.at }
    requires last_value { (row_at plan.now last).kind ≡ kind.Operator (operator_for connective) }
    ensures put { Over (TreePut plan.now last level) text.old text.new result }
    ensures same { text.new.out.ghost_name ≡ text.old.out.ghost_name }
{
    let bracket = is_bracketed(level, connective);
    text.put_byte_if(bracket, b')');
    let right = put_tree(plan, last - 1, right_level(connective), text);
    text.put_byte(byte_of(connective));
    let left = put_tree(plan, right - 1, left_level(connective), text);
    text.put_byte_if(bracket, b'(');
    left
}

// The tree of an AT LEAST whose row is row `last`. It is an item, so that it is written alike at
// every level.
#[cycle(put_lines_put_node_put_threshold_put_tree)]
fn put_threshold(plan: &[u32], last: usize, least: u32, of: u32, text: &mut Text) -> usize
    requires tree_room { TreeRoom plan.now last level.Item text.old.at }
    requires last_value { (row_at plan.now last).kind ≡ kind.Operator (operator.AtLeast least of) }
    ensures put { Over (TreePut plan.now last level.Item) text.old text.new result }
    ensures same { text.new.out.ghost_name ≡ text.old.out.ghost_name }
{
    text.put_byte(b'>');
    let lines = put_lines(plan, last - 1, of, text);
    text.put_byte(digit_of(least));
    text.put_byte(b'<');
    lines
}

// The trees, `count` of them, of which the last one ends at row `last`, each as a line with the
// byte in front of it.
#[cycle(put_lines_put_node_put_threshold_put_tree)]
fn put_lines(plan: &[u32], last: usize, count: u32, text: &mut Text) -> usize
    requires { LinesRoom plan.now last count text.old.at }
    ensures put { Over (LinesPut plan.now last count) text.old text.new result }
    ensures same { text.new.out.ghost_name ≡ text.old.out.ghost_name }
{
    let line = put_tree(plan, last, Level::Line, text);
    if count <= 1 {
        text.put_byte(b':');
        line
    } else {
        text.put_byte(b',');
        put_lines(plan, line - 1, count - 1, text)
    }
}
