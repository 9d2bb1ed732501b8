// A writer: a lent buffer, and the place in it where the next bytes go. What has no room is not written.
ghost use Rattle.std.specs.Prelude.{◌<◌, ◌≡◌};
ghost use Rattle.wire.specs.Le.{le};
ghost use Rattle.wire.specs.Be.{be};
ghost use Rattle.wire.specs.Puts.{Puts};

#[derive(Drop)]
pub struct Writer<'a> {
    pub buf: &'a mut [u8],
    pub at: usize,
}

impl Writer<'_> {
    pub fn put_u8(&mut self, v: u8)
        ensures { Puts self.old (le 1 v) self.new }
    {
        self.at = crate::put_u8(self.buf, self.at, v);
    }

    pub fn put_u16_le(&mut self, v: u16)
        ensures { Puts self.old (le 2 v) self.new }
    {
        self.at = crate::put_u16_le(self.buf, self.at, v);
    }

    pub fn put_u32_le(&mut self, v: u32)
        ensures { Puts self.old (le 4 v) self.new }
    {
        self.at = crate::put_u32_le(self.buf, self.at, v);
    }

    pub fn put_u64_le(&mut self, v: u64)
        ensures { Puts self.old (le 8 v) self.new }
    {
        self.at = crate::put_u64_le(self.buf, self.at, v);
    }

    // A big-endian number: the highest byte first.
    pub fn put_u16(&mut self, v: u16)
        ensures { Puts self.old (be 2 v) self.new }
    {
        self.at = crate::put_u16(self.buf, self.at, v);
    }

    // The bytes of src, copied.
    pub fn put_slice(&mut self, src: &[u8])
        ensures { Puts self.old src.now self.new }
    {
        self.at = crate::put_slice(self.buf, self.at, src);
    }
}
