// Bytes put into a lent buffer, one piece after the other. A piece that has no room is left out, so that no function asks for any; the one who
// calls them all has seen to it that there is room.
ghost use Rattle.std.specs.Prelude.{◌+◌, ◌≤◌, length};
ghost use Rattle.der.specs.Head.{head_bytes};
ghost use Rattle.writer.specs.Puts.{Put};
ghost use Rattle.writer.specs.Wrote.{Wrote};

// A lent buffer, and the offset that the next piece goes to.
#[derive(Drop)]
pub(crate) struct Cursor<'a> {
    pub(crate) buf: &'a mut [u8],
    pub(crate) at: usize,
}

// By the byte: `copy_from_slice` asks the host for memmove, and the C header promises that memcpy and memset are enough.
fn copy(buf: &mut [u8], at: usize, part: &[u8]) -> usize
    requires { at + length part.now ≤ length buf.old }
    ensures { Put at result part.now buf.old buf.new }
{
    let len = part.len();
    let mut i: usize = 0;
    while i < len {
        buf[at + i] = part[i];
        i += 1;
    }
    at + len
}

impl Cursor<'_> {
    pub(crate) fn put_bytes(&mut self, part: &[u8])
        ensures { Wrote part.now self.old self.new }
    {
        let at = self.at;
        if at <= self.buf.len() && part.len() <= self.buf.len() - at {
            self.at = copy(self.buf, at, part);
        }
    }

    // Tag and length of an element around so many bytes.
    #[tactic(auto, unfolding(der::specs::Head::head_bytes))]
    pub(crate) fn put_head(&mut self, tag: u8, len: u16)
        ensures { Wrote (head_bytes tag len) self.old self.new }
    {
        let [high, low] = len.to_be_bytes();
        match len {
            0..=127 => self.put_bytes(&[tag, low]),
            128..=255 => self.put_bytes(&[tag, 0x81, low]),
            _ => self.put_bytes(&[tag, 0x82, high, low]),
        }
    }
}
