// A cursor for each variable of a plan and an order of each pattern's variables, before its
// documents are walked.
ghost use Rattle.std.specs.Prelude.{◌≡◌, ◌+◌, ◌<◌, ◌≤◌, length, get_or};
ghost use Rattle.volume.specs.Layout.{list_count, start};
ghost use Rattle.plan.specs.Limits.{most_vars};
ghost use Rattle.plan.specs.Check.{sizes};
ghost use Rattle.plan.specs.Inner.Outline.{Tabled};
ghost use Rattle.matcher.specs.Inner.Cursors.{ats_of, ends_of};
ghost use Rattle.matcher.specs.Inner.Tables.{cursor_on, Cursors};
ghost use Rattle.search.specs.Inner.Setup.{ListsUsed, RarestEach};

use matcher::{Cursor, rarest_first};
use plan::{Outline, Query, list_at};
use volume::{MAX_LISTS, Volume};

// One more than the largest list of a plan's VOICEs, of whose patterns `table` has the outlines.
fn lists_used(query: &Query<'_>, table: &[Outline]) -> usize
    requires tabled { Tabled query.now.plan.now table.now }
    requires table_len { length table.now ≡ (sizes query.now.plan.now).patterns }
    ensures { ListsUsed query.now.plan.now (sizes query.now.plan.now).vars result }
{
    let mut used: usize = 0;
    for &outline in table {
        let row = outline.condition - outline.vars;
        for i in 0..outline.vars {
            let list = list_at(query.plan, row + i) as usize;
            used = used.max(list + 1);
        }
    }
    used
}

// The cursor on a list at its first posting in document `doc` or a later one, from the starts of
// the lists.
fn cursor_on(volume: &Volume<'_>, starts: &[usize], list: usize, doc: u32) -> Cursor
    requires list_bound { list < list_count volume.now.bytes.now }
    requires list_in_bounds { list + 1 < length starts.now }
    requires list_value { get_or starts.now list 0 ≡ start volume.now.bytes.now list }
    requires list_value_2 { get_or starts.now (list + 1) 0 ≡ start volume.now.bytes.now (list + 1) }
    ensures { result ≡ cursor_on volume.now.bytes.now list doc }
{
    let cursor = Cursor {
        at: starts[list],
        end: starts[list + 1],
    };
    cursor.seek(volume.bytes, doc)
}

// A cursor for each variable of a plan, at its list's first posting in document `start` or a later
// one.
pub fn set_cursors(query: &Query<'_>, table: &[Outline], start: u32, cursors: &mut [Cursor])
    requires tabled { Tabled query.now.plan.now table.now }
    requires table_len { length table.now ≡ (sizes query.now.plan.now).patterns }
    requires start_bound { start ≤ 65535 }
    requires most_vars_in_bounds { most_vars ≤ length cursors.old }
    ensures { let q = query.now in
        Cursors q.volume.bytes.now q.plan.now start (ats_of cursors.new) (ends_of cursors.new) }
{
    let mut starts = [0; MAX_LISTS + 1];
    let used = lists_used(query, table);
    query.volume.list_starts(used, &mut starts);
    for &outline in table {
        let row = outline.condition - outline.vars;
        for i in 0..outline.vars {
            let list = list_at(query.plan, row + i) as usize;
            cursors[outline.first + i] = cursor_on(&query.volume, &starts, list, start);
        }
    }
}

// The order of each pattern's variables, the rarest first, from the pattern's first one on.
pub fn set_orders(query: &Query<'_>, table: &[Outline], orders: &mut [usize])
    requires tabled { Tabled query.now.plan.now table.now }
    requires table_len { length table.now ≡ (sizes query.now.plan.now).patterns }
    requires most_vars_in_bounds { most_vars ≤ length orders.old }
    ensures rarest_each { RarestEach query.now.volume.bytes.now query.now.plan.now orders.new }
    ensures orders_len_unchanged { length orders.new ≡ length orders.old }
{
    for &outline in table {
        rarest_first(
            &query.volume,
            query.plan,
            outline,
            &mut orders[outline.first..],
        );
    }
}
