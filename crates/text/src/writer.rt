ghost use Rattle.std.specs.Prelude.{◌≡◌, ◌≤◌, length};

// Lent bytes, and the place behind the text that was put into them.
#[derive(Drop)]
pub struct Writer<'a> {
    pub out: &'a mut [u8],
    pub at: usize,
    pub ghost inside: { at ≤ length out.now },
}

impl<'a> Writer<'a> {
    // Here, since no list above a struct with a ghost field may name what names it.
    ghost use Rattle.std.specs.Prelude.{◌≡◌, [], ◌∷◌, ◌+◌, ◌≤◌, ◌<◌, length, take};
    ghost use Rattle.text.specs.Put.{Puts};

    // Nothing is put.
    pub fn new(out: &'a mut [u8]) -> Writer<'a>
        ensures start { result.at ≡ 0 }
        ensures bytes { result.out.now ≡ out.old }
        ensures same { result.out.ghost_name ≡ out.entry.ghost_name }
    {
        Writer { out, at: 0 }
    }

    // The bytes up to the place.
    pub fn text(&self) -> &[u8]
        ensures { result.now ≡ take self.now.at self.now.out.now }
    {
        &self.out[..self.at]
    }

    pub fn put_byte(&mut self, byte: u8)
        requires { self.old.at < length self.old.out.now }
        ensures { Puts (byte ∷ []) self.old self.new }
    {
        self.out[self.at] = byte;
        self.at += 1;
    }

    // Bytes as they are.
    pub fn put_text(&mut self, text: &[u8])
        requires { self.old.at + length text.now ≤ length self.old.out.now }
        ensures { Puts text.now self.old self.new }
    {
        let behind = self.at + text.len();
        self.out[self.at..behind].copy_from_slice(text);
        self.at = behind;
    }
}
