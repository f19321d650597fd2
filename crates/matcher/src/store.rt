// Words in a lent buffer.
ghost use Rattle.std.specs.Prelude.{◌≡◌, ◌++◌, ◌+◌, ◌≤◌, length, take, drop};

// Copies the first n words of a row into out from `to` on.
pub fn put_row(row: &[u32], n: usize, out: &mut [u32], to: usize)
    requires n_in_bounds { n ≤ length row.now }
    requires n_in_bounds_2 { to + n ≤ length out.old }
    ensures { out.new ≡ take to out.old ++ take n row.now ++ drop (to + n) out.old }
{
    out[to..to + n].copy_from_slice(&row[..n]);
}
