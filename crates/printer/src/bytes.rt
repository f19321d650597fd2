// Text that is written from its end to its beginning: bytes and numbers.
ghost use Rattle.std.specs.Prelude.{◌∷◌, [], ◌≡◌, ◌+◌, ◌<◌, ◌≤◌, length};
ghost use Rattle.seq.specs.Decimal.{decimal};
ghost use Rattle.printer.specs.Inner.Writing.{Put, only, spaced};

// A lent buffer, and the index at which the text in it begins. Each function says that the buffer
// stays the same one: without that the lender knows nothing of its bytes.
#[derive(Drop)]
pub struct Text<'a> {
    pub out: &'a mut [u8],
    pub at: usize,
}

impl<'a> Text<'a> {
    // A byte in front. It is stored where the buffer has its index.
    pub fn put_byte(&mut self, byte: u8)
        requires { 1 ≤ self.old.at }
        ensures put { Put (byte ∷ []) self.old self.new }
        ensures same { self.new.out.ghost_name ≡ self.old.out.ghost_name }
    {
        self.at -= 1;
        if self.at < self.out.len() {
            self.out[self.at] = byte;
        }
    }

    // A byte where it is wanted, or nothing.
    pub fn put_byte_if(&mut self, wanted: bool, byte: u8)
        requires { length (only wanted byte) ≤ self.old.at }
        ensures put { Put (only wanted byte) self.old self.new }
        ensures same { self.new.out.ghost_name ≡ self.old.out.ghost_name }
    {
        if wanted {
            self.put_byte(byte);
        }
    }

    // A number in base ten, the last digit first: the loop divides, and counts nothing.
    pub fn put_number(&mut self, n: u32)
        requires { length (decimal n) ≤ self.old.at }
        ensures put { Put (decimal n) self.old self.new }
        ensures same { self.new.out.ghost_name ≡ self.old.out.ghost_name }
    {
        let mut left = n;
        while 10 <= left {
            self.put_byte(digit_of(left % 10));
            left /= 10;
        }
        self.put_byte(digit_of(left));
    }

    // A number and the space in front of it.
    pub fn put_spaced(&mut self, n: u32)
        requires { length (spaced n) ≤ self.old.at }
        ensures put { Put (spaced n) self.old self.new }
        ensures same { self.new.out.ghost_name ≡ self.old.out.ghost_name }
    {
        self.put_number(n);
        self.put_byte(b' ');
    }
}

// A digit.
pub fn digit_of(d: u32) -> u8
    requires { d < 10 }
    ensures { result ≡ 48 + d }
{
    b'0' + d as u8
}
