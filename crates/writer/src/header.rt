// PKIHeader.
ghost use Rattle.std.specs.Prelude.{[], ℕ};
ghost use Rattle.std.proofs.Math.Option.{some};
ghost use Rattle.encoding.specs.Element.{field};
ghost use Rattle.encoding.specs.Message.{recip_nonce, names_bytes, options_bytes, ids_bytes, header_bytes};
ghost use Rattle.writer.specs.Wrote.{Wrote};
ghost use Rattle.writer.specs.Sizes.{Size};
ghost use Rattle.given.specs.Spans.{given_of};
ghost use Rattle.writer.specs.Code.{header_content};

use crate::element::{field_size, integer_size, nested_size, part_size, wrapped_size};
use crate::put::Cursor;
use crate::size::sum;
use given::GivenSpans;
use protocol::Outgoing;

impl Cursor<'_> {
    // pvno, sender, recipient
    fn put_names(&mut self, src: &[u8], g: GivenSpans)
        ensures { Wrote (names_bytes (given_of src.now g) []) self.old self.new }
    {
        self.put_integer(g.version);
        self.put_part(src, g.sender);
        self.put_part(src, g.recipient);
    }

    // messageTime, protectionAlg, senderKID, recipKID
    fn put_options(&mut self, src: &[u8], g: GivenSpans)
        ensures { Wrote (options_bytes (given_of src.now g) []) self.old self.new }
    {
        self.put_field(0xA0, 0x18, src, g.message_time);
        self.put_wrapped(0xA1, src, g.protection_alg);
        self.put_field(0xA2, 0x04, src, g.sender_kid);
        self.put_field(0xA3, 0x04, src, g.recip_kid);
    }

    // recipNonce, where the order has one
    #[tactic(auto, unfolding(encoding::specs::Element::field))]
    fn put_recip_nonce(&mut self, o: Outgoing)
        ensures { Wrote (field 0xA6 0x04 (recip_nonce o)) self.old self.new }
    {
        if o.has_recip_nonce {
            self.put_nested(0xA6, 0x04, &o.recip_nonce.bytes);
        }
    }

    // transactionID, senderNonce, recipNonce, freeText, generalInfo
    fn put_ids(&mut self, src: &[u8], g: GivenSpans, o: Outgoing)
        ensures { Wrote (ids_bytes (given_of src.now g) o) self.old self.new }
    {
        self.put_nested(0xA4, 0x04, &o.id.bytes);
        self.put_nested(0xA5, 0x04, &o.sender_nonce.bytes);
        self.put_recip_nonce(o);
        self.put_wrapped(0xA7, src, g.free_text);
        self.put_wrapped(0xA8, src, g.general_info);
    }

    pub(crate) fn put_header(&mut self, src: &[u8], g: GivenSpans, o: Outgoing)
        ensures { Wrote (header_bytes (given_of src.now g) o) self.old self.new }
    {
        self.put_head(0x30, header_content_size(src, g, o));
        self.put_names(src, g);
        self.put_options(src, g);
        self.put_ids(src, g, o);
    }
}

fn names_size(src: &[u8], g: GivenSpans) -> u16
    ensures { Size result (names_bytes (given_of src.now g) []) }
{
    let version = integer_size(g.version);
    let sender = part_size(src, g.sender);
    let recipient = part_size(src, g.recipient);
    sum(version, sum(sender, recipient))
}

fn options_size(src: &[u8], g: GivenSpans) -> u16
    ensures { Size result (options_bytes (given_of src.now g) []) }
{
    let time = field_size(src, g.message_time);
    let alg = wrapped_size(src, g.protection_alg);
    let sender = field_size(src, g.sender_kid);
    let recip = field_size(src, g.recip_kid);
    sum(time, sum(alg, sum(sender, recip)))
}

#[tactic(auto, unfolding(encoding::specs::Element::field))]
fn recip_nonce_size(o: Outgoing) -> u16
    ensures { Size result (field 0xA6 0x04 (recip_nonce o)) }
{
    if o.has_recip_nonce {
        nested_size(&o.recip_nonce.bytes)
    } else {
        0
    }
}

fn ids_size(src: &[u8], g: GivenSpans, o: Outgoing) -> u16
    ensures { Size result (ids_bytes (given_of src.now g) o) }
{
    let id = nested_size(&o.id.bytes);
    let sender = nested_size(&o.sender_nonce.bytes);
    let recip = recip_nonce_size(o);
    let text = wrapped_size(src, g.free_text);
    let info = wrapped_size(src, g.general_info);
    sum(id, sum(sender, sum(recip, sum(text, info))))
}

pub(crate) fn header_content_size(src: &[u8], g: GivenSpans, o: Outgoing) -> u16
    ensures { Size result (header_content (given_of src.now g) o) }
{
    let names = names_size(src, g);
    let options = options_size(src, g);
    let ids = ids_size(src, g, o);
    sum(names, sum(options, ids))
}
