// Reading the rows of an accepted plan.
ghost use Rattle.std.specs.Prelude.{◌≡◌, Bool, false, List, ℕ, ◌<◌};
ghost use Rattle.plan.specs.declared.row.Predicate.{Predicate};
ghost use Rattle.plan.specs.declared.row.Kind.{Kind};
ghost use Rattle.plan.specs.declared.row.Kind.TheVariants as kind;
ghost use Rattle.plan.specs.Rows.{row_count, row_at, form_wrong_at, is_voice, is_end};
ghost use Rattle.plan.specs.Check.{Accepted};
ghost use Rattle.plan.specs.Parts.{first_of};

use super::row::{Kind, Predicate, row_at};

// Whether a row adds a variable.
pub fn is_voice(kind: Kind) -> bool
    ensures { result ≡ is_voice kind }
{
    matches!(kind, Kind::Voice(_))
}

// Whether a row closes a pattern.
pub fn is_end(kind: Kind) -> bool
    ensures { result ≡ is_end kind }
{
    matches!(kind, Kind::End)
}

// The first row from row `from` on that `test` holds of; where there is none, the number of rows, or
// `from` if that is larger. No `Option`: the definition `first_of`, on which `Demands.Parts` rests,
// gives this number.
pub fn first_of<F: Fn(Kind) -> bool>(plan: &[u32], from: usize, test: F) -> usize
    requires by_index { (v : List ℕ) × Accepted v plan.now }
    requires test_callable { F.IsAlwaysCallable test }
    ensures { (sort : Kind → Bool) → ((kind : Kind) (held : Bool) → F.post test kind held → held ≡ sort kind)
        → result ≡ first_of sort plan.now from }
{
    let rows = plan.len() / 4;
    for i in from..rows {
        if test(row_at(plan, i).kind) {
            return i;
        }
    }
    from.max(rows)
}

// The list of a row that is a VOICE.
pub fn list_at(plan: &[u32], row: usize) -> u32
    requires row_bound { row < row_count plan.now }
    requires row_value { form_wrong_at plan.now row ≡ false }
    requires by_index { (list : ℕ) × ((row_at plan.now row).kind ≡ kind.Voice list) }
    ensures { (row_at plan.now row).kind ≡ kind.Voice result }
{
    match row_at(plan, row).kind {
        Kind::Voice(list) => list,
        _ => unreachable!(),
    }
}

// The predicate of a row that is a condition.
pub fn predicate_at(plan: &[u32], row: usize) -> Predicate
    requires row_bound { row < row_count plan.now }
    requires row_value { form_wrong_at plan.now row ≡ false }
    requires row_value_2 { (c : Predicate) × ((row_at plan.now row).kind ≡ kind.Condition c) }
    ensures { (row_at plan.now row).kind ≡ kind.Condition result }
{
    match row_at(plan, row).kind {
        Kind::Condition(predicate) => predicate,
        _ => unreachable!(),
    }
}
