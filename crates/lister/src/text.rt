// Text, added to what stands in a lent buffer.
//
// No `write!` stands here: the program uses no heap, and a clause names each byte of the buffer.
ghost use Rattle.std.specs.Prelude.{◌≡◌, ◌∷◌, [], map, ◌+◌, ◌*◌, ◌≤◌, length};
ghost use Rattle.seq.specs.Lists.{joined};
ghost use Rattle.lister.specs.Text.{spaced, line, scene_word, done_word};
ghost use Rattle.lister.specs.Inner.Pages.{row_lines};
ghost use Rattle.lister.specs.Inner.Stored.{Added};

use itoa::Buffer;

// A lent buffer, and the index behind the text in it. Each function says that the buffer stays the
// same one: without that the lender knows nothing of its bytes.
#[derive(Drop)]
pub struct Text<'a> {
    pub out: &'a mut [u8],
    pub end: usize,
}

impl<'a> Text<'a> {
    // These bytes.
    pub fn put_bytes(&mut self, bytes: &[u8])
        requires { self.old.end + length bytes.now ≤ length self.old.out.now }
        ensures added { Added bytes.now self.old self.new }
        ensures same { self.new.out.ghost_name ≡ self.old.out.ghost_name }
    {
        let end = self.end + bytes.len();
        self.out[self.end..end].copy_from_slice(bytes);
        self.end = end;
    }

    // A space and a number.
    fn put_number(&mut self, n: u64)
        requires { self.old.end + length (spaced n) ≤ length self.old.out.now }
        ensures added { Added (spaced n) self.old self.new }
        ensures same { self.new.out.ghost_name ≡ self.old.out.ghost_name }
    {
        let mut digits = Buffer::new();
        self.put_bytes(b" ");
        self.put_bytes(digits.format(n).as_bytes());
    }

    // A space and a number, for each of several.
    fn put_numbers(&mut self, ns: &[u32])
        requires { self.old.end + length (joined (map spaced ns.now)) ≤ length self.old.out.now }
        ensures added { Added (joined (map spaced ns.now)) self.old self.new }
        ensures same { self.new.out.ghost_name ≡ self.old.out.ghost_name }
    {
        for &n in ns {
            self.put_number(u64::from(n));
        }
    }

    // A line: a word and numbers.
    pub fn put_line(&mut self, word: &[u8], ns: &[u32])
        requires { self.old.end + length (line word.now ns.now) ≤ length self.old.out.now }
        ensures added { Added (line word.now ns.now) self.old self.new }
        ensures same { self.new.out.ghost_name ≡ self.old.out.ghost_name }
    {
        self.put_bytes(word);
        self.put_numbers(ns);
        self.put_bytes(b"\n");
    }

    // The last line of a listing: the sum of the tallies. A `put_line` over two widths of numbers
    // would need a bound and a clause on their conversion, for one call each.
    pub fn put_done(&mut self, tally: u64)
        requires { self.old.end + 26 ≤ length self.old.out.now }
        ensures added { Added (line done_word (tally ∷ [])) self.old self.new }
        ensures same { self.new.out.ghost_name ≡ self.old.out.ghost_name }
    {
        self.put_bytes(b"done");
        self.put_number(tally);
        self.put_bytes(b"\n");
    }

    // The line of a row.
    fn put_row(&mut self, row: &[u32])
        requires { self.old.end + length (line scene_word row.now) ≤ length self.old.out.now }
        ensures added { Added (line scene_word row.now) self.old self.new }
        ensures same { self.new.out.ghost_name ≡ self.old.out.ghost_name }
    {
        self.put_line(b"scene", row);
    }

    // The lines of the n rows at the front of a page, each so many words wide.
    pub fn put_rows(&mut self, page: &[u32], n: usize, width: usize)
        requires width_in_bounds { n * width ≤ length page.now }
        requires width_in_bounds_2 { self.old.end + n * (6 + 11 * width) ≤ length self.old.out.now }
        ensures added { Added (row_lines width page.now n) self.old self.new }
        ensures upper_bound { self.new.end ≤ self.old.end + n * (6 + 11 * width) }
        ensures same { self.new.out.ghost_name ≡ self.old.out.ghost_name }
    {
        for i in 0..n {
            let first = i * width;
            self.put_row(&page[first..first + width]);
        }
    }
}
