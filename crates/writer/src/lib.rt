// Messages written in DER: an order and given header fields into a lent buffer.
#![tactic(auto)]

mod body;
mod element;
mod header;
mod put;
mod size;

ghost use Rattle.std.specs.Prelude.{◌≡◌, ◌+◌, ◌<◌};
ghost use Rattle.encoding.specs.Message.{body_bytes, encode};
ghost use Rattle.writer.specs.Puts.{Puts};
ghost use Rattle.writer.specs.Wrote.{Wrote};
ghost use Rattle.writer.specs.Sizes.{Size};
ghost use Rattle.given.specs.Spans.{given_of};
ghost use Rattle.writer.specs.Code.{message_content};
ghost use Rattle.writer.specs.Write.{write_answer, buffer_after};

use crate::body::content_size;
use crate::element::field_size;
use crate::header::header_content_size;
use crate::put::Cursor;
use crate::size::{around, sum};
use given::GivenSpans;
use given::fits::all_fit;
use message::MAX_MESSAGE;
use protocol::Outgoing;

// So many bytes are written, or the call is refused by this number. No enum: `write_answer` has the number.
pub type Written = Result<usize, u8>;

// The tag of a body. Of a kind above 95 the sum would not fit, and nothing is asked: no such kind is written.
fn body_tag(kind: u8) -> u8
    ensures { kind < 96 → result ≡ 0xA0 + kind }
{
    if kind < 96 { 0xA0 + kind } else { 0 }
}

impl Cursor<'_> {
    fn put_body(&mut self, src: &[u8], g: GivenSpans, o: Outgoing)
        ensures { o.kind < 96 → Wrote (body_bytes (given_of src.now g) o) self.old self.new }
    {
        let n = content_size(src, g, o.kind, o.contents);
        self.put_head(body_tag(o.kind), n);
        self.put_content(src, g, o.kind, o.contents);
    }

    fn put_message(&mut self, src: &[u8], g: GivenSpans, o: Outgoing)
        ensures { o.kind < 96 → Wrote (encode (given_of src.now g) o) self.old self.new }
    {
        self.put_head(0x30, message_content_size(src, g, o));
        self.put_header(src, g, o);
        self.put_body(src, g, o);
        self.put_field(0xA0, 0x03, src, g.protection);
    }
}

fn message_content_size(src: &[u8], g: GivenSpans, o: Outgoing) -> u16
    ensures { Size result (message_content (given_of src.now g) o) }
{
    let header = around(header_content_size(src, g, o));
    let body = around(content_size(src, g, o.kind, o.contents));
    sum(header, sum(body, field_size(src, g.protection)))
}

// From the buffer's first byte on.
fn write_message(buf: &mut [u8], src: &[u8], g: GivenSpans, o: Outgoing) -> usize
    ensures { o.kind < 96 → Puts 0 result (encode (given_of src.now g) o) buf.old buf.new }
{
    let mut out = Cursor { buf, at: 0 };
    out.put_message(src, g, o);
    out.at
}

// Writes the order and what is given as the buffer's first bytes. Refused, with nothing changed: by 34 where the message would be over the limit,
// 35 where the buffer is too short, 36 where a part or the order does not fit.
pub fn write(o: Outgoing, g: GivenSpans, src: &[u8], buf: &mut [u8]) -> Written
    ensures { (result ≡ write_answer src.now g o buf.old) × (buf.new ≡ buffer_after src.now g o buf.old) }
{
    let n = usize::from(around(message_content_size(src, g, o)));
    if MAX_MESSAGE < n {
        return Err(34);
    }
    if buf.len() < n {
        return Err(35);
    }
    if !all_fit(src, g, o) {
        return Err(36);
    }
    write_message(buf, src, g, o);
    Ok(n)
}
