// A text in ASCII that grows in a buffer.
ghost use Rattle.std.specs.Prelude.{◌≡◌, [], ◌∷◌, ◌++◌, ◌<◌};
ghost use mir.Val.{to_z};
ghost use Rattle.model.specs.Turn.{decimal, signed, space, hex_digit, hex};
ghost use Rattle.integers.specs.Cells.{low};
ghost use Rattle.line.specs.Append.{appended};

use itoa::{Buffer, Integer};

// A buffer and the place where the text in it ends: one past the end of the buffer where a byte had no room; that byte is not written.
#[derive(Drop)]
pub struct Text<'a> {
    out: &'a mut [u8],
    at: usize,
}

impl<'a> Text<'a> {
    // The text that `out` holds up to `at`.
    pub fn up_to(out: &'a mut [u8], at: usize) -> Text<'a>
        ensures same_buffer { result.out.ghost_name ≡ out.entry.ghost_name }
        ensures bytes { result.out.now ≡ out.old }
        ensures place { result.at ≡ at }
    {
        Text { out, at }
    }

    // Where it ends.
    pub fn end(&self) -> usize
        ensures { result ≡ self.now.at }
    {
        self.at
    }

    // One byte.
    pub fn put(&mut self, b: u8)
        ensures { self.new ≡ appended self.old (b ∷ []) }
    {
        if self.at < self.out.len() {
            self.out[self.at] = b;
            self.at += 1;
        } else {
            self.at = self.out.len() + 1;
        }
    }

    // The bytes of a text.
    pub fn word(&mut self, text: &[u8])
        ensures { self.new ≡ appended self.old text.now }
    {
        for b in text {
            self.put(*b);
        }
    }

    // A number as the kit prints it.
    fn integer<I: Integer>(&mut self, n: I)
        ensures { self.new ≡ appended self.old (I.text n) }
    {
        let mut buffer = Buffer::new();
        self.word(buffer.format(n).as_bytes());
    }

    // A number in decimal.
    pub fn decimal(&mut self, n: u64)
        ensures { self.new ≡ appended self.old (decimal n) }
    {
        self.integer(n);
    }

    // A number in decimal and the space after it.
    #[tactic(auto, using(crate::proofs::Appending::added_parts), unfolding(model::specs::Turn::space))]
    pub fn number(&mut self, n: usize)
        ensures { self.new ≡ appended self.old (decimal n ++ space) }
    {
        self.decimal(n as u64);
        self.put(b' ');
    }

    // A cell in decimal, with its sign: an int64, or the int32 in its low 32 bits.
    pub fn signed<I: integers::Integer>(&mut self, a: u64)
        ensures { self.new ≡ appended self.old (signed (to_z I.width (low I.width a))) }
    {
        self.integer(I::value(a));
    }

    // A digit of a base up to 16, upper-case.
    fn digit(&mut self, d: u64)
        requires { d < 16 }
        ensures { self.new ≡ appended self.old (hex_digit d ∷ []) }
    {
        self.put(if d < 10 { 48 + d as u8 } else { 55 + d as u8 });
    }

    // The lowest `count` hexadecimal digits.
    pub fn hex(&mut self, count: usize, n: u64)
        ensures { self.new ≡ appended self.old (hex count n []) }
    {
        if count > 0 {
            self.hex(count - 1, n / 16);
            self.digit(n % 16);
        }
    }
}
