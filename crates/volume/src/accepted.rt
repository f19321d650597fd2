// A volume that has been checked.
ghost use Rattle.std.specs.Prelude.{◌≡◌, ℕ, ◌<◌, ◌≤◌, length, get_or, IfOk, IfErr};
ghost use Rattle.volume.specs.Answers.{said_refusal};
ghost use Rattle.volume.specs.Layout.{list_count, start};
ghost use Rattle.volume.specs.Check.{Accepted, verdict};
ghost use Rattle.volume.specs.Inner.Places.{list_span_of};

use super::answers::Refusal;
use super::checking::check;
use super::layout::ListSpan;
use super::reading::{list_span, list_starts};

// The bytes of an accepted volume.
#[derive(Clone, Copy)]
pub struct Volume<'a> {
    pub bytes: &'a [u8],
    ghost accepted: { Accepted bytes.now },
}

impl<'a> Volume<'a> {
    // The volume, or why it is refused.
    pub fn open(bytes: &'a [u8]) -> Result<Volume<'a>, Refusal>
        ensures ok { IfOk result (λ volume. volume.bytes.now ≡ bytes.now) }
        ensures err { IfErr result (λ why. said_refusal why ≡ verdict bytes.now) }
    {
        check(bytes)?;
        Ok(Volume { bytes })
    }

    // Where a list lies.
    pub fn list_span(&self, list: usize) -> ListSpan
        requires { list < list_count self.now.bytes.now }
        ensures { result ≡ list_span_of self.now.bytes.now list }
    {
        list_span(self.bytes, list)
    }

    // Where the first n lists lie.
    pub fn list_starts(&self, n: usize, starts: &mut [usize])
        requires n_bound { n ≤ list_count self.now.bytes.now }
        requires n_in_bounds { n < length starts.old }
        ensures by_index { (i : ℕ) → i ≤ n → get_or starts.new i 0 ≡ start self.now.bytes.now i }
        ensures starts_len_unchanged { length starts.new ≡ length starts.old }
    {
        list_starts(self.bytes, n, starts);
    }
}
