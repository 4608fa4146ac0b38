// Writing on a slip.
ghost use Rattle.std.specs.Prelude.{◌≡◌, ◌+◌, ◌<◌, ◌≤◌, [], ◌∷◌, ◌++◌, length, decimal};
ghost use Rattle.dayfile.specs.Replies.{padded};

use crate::slip::Slip;

impl Slip {
    // A slip on which nothing is written.
    pub(crate) fn new() -> Slip
        ensures { result ≡ [] }
    {
        Slip {
            bytes: [0; 120],
            size: 0,
        }
    }

    // Writes one byte.
    pub(crate) fn put(&mut self, byte: u8)
        requires { length self.old < 120 }
        ensures { self.new ≡ self.old ++ byte ∷ [] }
    {
        self.bytes[self.size] = byte;
        self.size += 1;
    }

    // Writes a number in base ten, digit by digit, without heap: the library's formatting is not promised to succeed, and
    // the kit's writer of numbers would be one more library to trust. Each cast is of a number below ten.
    pub(crate) fn put_number(&mut self, number: u64)
        requires { length self.old + length (decimal number) ≤ 120 }
        ensures { self.new ≡ self.old ++ decimal number }
    {
        if number < 10 {
            self.put(b'0' + number as u8);
            return;
        }
        self.put_number(number / 10);
        self.put(b'0' + (number % 10) as u8);
    }

    // Writes a comma, and a number behind it.
    pub(crate) fn put_value(&mut self, number: u64)
        requires { length self.old ≤ 99 }
        ensures text { self.new ≡ self.old ++ 44 ∷ decimal number }
        ensures size { length self.new ≤ length self.old + 21 }
    {
        self.put(b',');
        self.put_number(number);
    }

    // Hands out the bytes, zeros behind what is written, and how many are written.
    pub(crate) fn hand_out(self, out: &mut [u8; 120]) -> usize
        ensures bytes { out.new ≡ padded self }
        ensures size { result ≡ length self }
        ensures room { result ≤ 120 }
    {
        let Slip { bytes, size } = self;
        *out = bytes;
        size
    }
}
