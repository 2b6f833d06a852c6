ghost use Rattle.std.specs.Prelude.{◌+◌, ◌≤◌, length};
ghost use Rattle.text.specs.Decimal.{decimal, signed};
ghost use Rattle.text.specs.Put.{Puts};

use crate::writer::Writer;

impl Writer<'_> {
    // The last digit behind those of the tenth.
    pub fn put_decimal(&mut self, n: u64)
        requires { self.old.at + length (decimal n) ≤ length self.old.out.now }
        ensures { Puts (decimal n) self.old self.new }
    {
        if n / 10 > 0 {
            self.put_decimal(n / 10);
        }
        self.put_byte(b'0' + (n % 10) as u8);
    }

    // A minus, where there is one, and the digits behind it.
    pub fn put_signed(&mut self, x: i16)
        requires { self.old.at + length (signed x) ≤ length self.old.out.now }
        ensures { Puts (signed x) self.old self.new }
    {
        if x < 0 {
            self.put_byte(b'-');
        }
        self.put_decimal(u64::from(x.unsigned_abs()));
    }
}
