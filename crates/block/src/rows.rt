// Rows of eight bytes, added up by columns in 16-bit lanes, which a compiler turns into vector
// instructions.
//
// Where nothing stands behind n rows, byte c of row r weighs 8 * (n - 1 - r) + 8 - c. In front of
// each row `near` grows by the rows so far of these eight, and in front of each eight `far` grows
// by all rows so far, so that row r counts n - 1 - r times in near + 8 * far. What is left, 8 - c,
// tilts the sum of all rows. No lane passes 63,240.
ghost use Rattle.std.specs.Prelude.{◌≡◌, ◌+◌, ◌*◌, ◌≤◌, length};
ghost use Rattle.block.specs.Inner.Sums.{row_at, plus, tilted, columns, AtMost, Room, Rows, Eights};

// A row of eight columns.
#[derive(Clone, Copy)]
pub struct Row([u16; 8]);

impl Row {
    const ZEROS: Row = Row([0; 8]);
}

// The sum of some rows, and `near` behind them.
#[derive(Clone, Copy)]
pub struct Stretch {
    pub more: Row,
    pub near: Row,
}

// The sums of the rows so far.
#[derive(Clone, Copy)]
pub struct RowSums {
    pub all: Row,
    pub near: Row,
    pub far: Row,
}

// The N bytes at `at`, behind zeros.
pub fn row_at<const N: usize>(s: &[u8], at: usize) -> Row
    requires most { N ≤ 8 }
    requires in_bounds { at + N ≤ length s.now }
    ensures value { result ≡ row_at N s.now at }
    ensures at_most { AtMost 255 result }
{
    let mut row = [0; 8];
    for c in 0..N {
        row[8 - N + c] = u16::from(s[at + c]);
    }
    Row(row)
}

// Two rows, column by column.
fn plus(x: Row, y: Row) -> Row
    requires { Room x y }
    ensures { result ≡ plus x y }
{
    let mut row = [0; 8];
    for c in 0..8 {
        row[c] = x.0[c] + y.0[c];
    }
    Row(row)
}

// Each column as often as there are columns from it on.
pub fn tilted(x: Row) -> Row
    requires { AtMost 8191 x }
    ensures { result ≡ tilted x }
{
    let mut row = [0; 8];
    for c in 0..8 {
        row[c] = (8 - c) as u16 * x.0[c];
    }
    Row(row)
}

// The columns, added up.
pub fn columns(x: Row) -> u32
    ensures value { result ≡ columns x }
    ensures upper_bound { result ≤ 524280 }
{
    let mut sum = 0;
    for column in x.0 {
        sum += u32::from(column);
    }
    sum
}

// n rows from `at` on, with `near` from `first` on.
fn rows_at(s: &[u8], at: usize, n: usize, first: Row) -> Stretch
    requires n_bound { n ≤ 8 }
    requires n_in_bounds { at + 8 * n ≤ length s.now }
    requires at_most { AtMost 58140 first }
    ensures { Rows s.now at first n result.more result.near }
{
    let mut more = Row::ZEROS;
    let mut near = first;
    for j in 0..n {
        near = plus(near, more);
        more = plus(more, row_at::<8>(s, at + 8 * j));
    }
    Stretch { more, near }
}

// The 31 rows behind the first four bytes: seven, and three times eight. A compiler unrolls both
// loops whole, which the lanes need to stay in vectors.
pub fn half_rows(s: &[u8]) -> RowSums
    requires { 252 ≤ length s.now }
    ensures { Eights s.now 4 3 result }
{
    let seven = rows_at(s, 4, 7, Row::ZEROS);
    let mut all = seven.more;
    let mut near = seven.near;
    let mut far = Row::ZEROS;
    for i in 0..3 {
        far = plus(far, all);
        let from = 60 + 64 * i;
        let eight = rows_at(s, from, 8, near);
        near = eight.near;
        let more = eight.more;
        all = plus(all, more);
    }
    RowSums { all, near, far }
}
