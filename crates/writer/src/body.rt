// What a body holds, by its kind.
ghost use Rattle.std.specs.Prelude.{◌≡◌, [], ◌∷◌, ◌++◌, cond, ◌+◌, ◌/◌, ◌%◌, eqb};
ghost use Rattle.std.proofs.Math.Option.{none};
ghost use Rattle.protocol.specs.Bytes.{zeros, bytes_of};
ghost use Rattle.protocol.specs.Message.{optional_part};
ghost use Rattle.encoding.specs.Element.{element, optional};
ghost use Rattle.encoding.specs.Message.{bit_content, failure_bits, status_bytes, requests_bytes, key_pair_bytes, responses_bytes, confirmations_bytes, error_bytes, content_bytes};
ghost use Rattle.writer.specs.Wrote.{Wrote};
ghost use Rattle.writer.specs.Sizes.{Size};
ghost use Rattle.given.specs.Spans.{given_of};
ghost use Rattle.writer.specs.Code.{status_content, response_content, confirmation_content};

use crate::element::{given_part, integer_size, part_size};
use crate::put::Cursor;
use crate::size::{around, size, sum};
use given::GivenSpans;
use grammar::Span;
use protocol::kinds::{CERT_CONF, ERROR, P10CR, is_enrolment_kind, is_response};
use protocol::{FailureInfo, Hash, OutgoingContents};

// ## PKIStatusInfo

impl Cursor<'_> {
    // The zeros before the byte with the bit: fewer than 32, as a bit's number has 8 bits, which `% 32` says to the prover.
    fn put_zeros(&mut self, n: u8)
        ensures { Wrote (zeros (n % 32)) self.old self.new }
    {
        let z = [0u8; 32];
        self.put_bytes(&z[..usize::from(n % 32)]);
    }

    // A BIT STRING in which just this bit is set, its head before it.
    fn put_bit(&mut self, bit: u8)
        ensures { Wrote (element 0x03 (bit_content bit)) self.old self.new }
    {
        let unused = 7 - bit % 8;
        self.put_head(0x03, bit_content_size(bit));
        self.put_bytes(&[unused]);
        self.put_zeros(bit / 8);
        self.put_bytes(&[1 << unused]);
    }

    #[tactic(auto, unfolding(encoding::specs::Element::optional))]
    fn put_failure(&mut self, f: FailureInfo)
        ensures { Wrote (optional 0x03 (failure_bits f)) self.old self.new }
    {
        if let Some(bit) = f {
            self.put_bit(bit);
        }
    }

    fn put_status(&mut self, status: u32, f: FailureInfo)
        ensures { Wrote (status_bytes status (failure_bits f)) self.old self.new }
    {
        self.put_head(0x30, status_content_size(status, f));
        self.put_integer(status);
        self.put_failure(f);
    }
}

fn bit_content_size(bit: u8) -> u16
    ensures { Size result (bit_content bit) }
{
    u16::from(bit / 8) + 2
}

#[tactic(auto, unfolding(encoding::specs::Element::optional))]
fn failure_size(f: FailureInfo) -> u16
    ensures { Size result (optional 0x03 (failure_bits f)) }
{
    match f {
        None => 0,
        Some(bit) => around(bit_content_size(bit)),
    }
}

fn status_content_size(status: u32, f: FailureInfo) -> u16
    ensures { Size result (status_content status f) }
{
    sum(integer_size(status), failure_size(f))
}

fn status_size(status: u32, f: FailureInfo) -> u16
    ensures { Size result (status_bytes status (failure_bits f)) }
{
    around(status_content_size(status, f))
}

// ## Requests

impl Cursor<'_> {
    fn put_requests(&mut self, src: &[u8], request: Span)
        ensures { Wrote (requests_bytes (bytes_of (optional_part src.now request))) self.old self.new }
    {
        self.put_head(0x30, part_size(src, request));
        self.put_part(src, request);
    }
}

fn requests_size(src: &[u8], request: Span) -> u16
    ensures { Size result (requests_bytes (bytes_of (optional_part src.now request))) }
{
    around(part_size(src, request))
}

// ## Responses

impl Cursor<'_> {
    #[tactic(auto, unfolding(encoding::specs::Message::key_pair_bytes))]
    fn put_key_pair(&mut self, src: &[u8], certificate: Span)
        ensures { Wrote (key_pair_bytes (optional_part src.now certificate)) self.old self.new }
    {
        if let Some(e) = given_part(src, certificate) {
            let n = size(e);
            self.put_head(0x30, around(n));
            self.put_head(0xA0, n);
            self.put_bytes(e);
        }
    }

    // What a response holds.
    fn put_response_content(&mut self, src: &[u8], certificate: Span, number: u32, status: u32)
        ensures { Wrote (response_content number status (optional_part src.now certificate)) self.old self.new }
    {
        self.put_integer(number); // certReqId
        self.put_status(status, None); // PKIStatusInfo
        self.put_key_pair(src, certificate);
    }

    fn put_responses(&mut self, src: &[u8], certificate: Span, number: u32, status: u32)
        ensures { Wrote (responses_bytes number status (optional_part src.now certificate)) self.old self.new }
    {
        let n = response_content_size(src, certificate, number, status);
        let response = around(n);
        let responses = around(response);
        self.put_head(0x30, responses);
        self.put_head(0x30, response);
        self.put_head(0x30, n);
        self.put_response_content(src, certificate, number, status);
    }
}

#[tactic(auto, unfolding(encoding::specs::Message::key_pair_bytes))]
fn key_pair_size(src: &[u8], certificate: Span) -> u16
    ensures { Size result (key_pair_bytes (optional_part src.now certificate)) }
{
    match given_part(src, certificate) {
        Some(e) => around(around(size(e))),
        None => 0,
    }
}

fn response_content_size(src: &[u8], certificate: Span, number: u32, status: u32) -> u16
    ensures { Size result (response_content number status (optional_part src.now certificate)) }
{
    let info = sum(status_size(status, None), key_pair_size(src, certificate));
    sum(integer_size(number), info)
}

fn responses_size(src: &[u8], certificate: Span, number: u32, status: u32) -> u16
    ensures { Size result (responses_bytes number status (optional_part src.now certificate)) }
{
    around(around(around(response_content_size(src, certificate, number, status))))
}

// ## certConf

impl Cursor<'_> {
    // The status info of a certConf, or nothing.
    fn put_other_status(&mut self, status: u32)
        ensures { Wrote (cond (eqb status 0) [] (status_bytes status none)) self.old self.new }
    {
        if !is_left_out(status) {
            self.put_status(status, None);
        }
    }

    fn put_confirmations(&mut self, hash: Hash, number: u32, status: u32)
        ensures { Wrote (confirmations_bytes hash.bytes number status) self.old self.new }
    {
        let n = confirmation_content_size(hash, number, status);
        self.put_head(0x30, around(n));
        self.put_head(0x30, n);
        self.put_element(0x04, &hash.bytes);
        self.put_integer(number);
        self.put_other_status(status);
    }
}

// "A certConf's status 0 being left out."
fn is_left_out(status: u32) -> bool
    ensures { result ≡ eqb status 0 }
{
    status == 0
}

fn other_status_size(status: u32) -> u16
    ensures { Size result (cond (eqb status 0) [] (status_bytes status none)) }
{
    if is_left_out(status) {
        0
    } else {
        status_size(status, None)
    }
}

fn confirmation_content_size(hash: Hash, number: u32, status: u32) -> u16
    ensures { Size result (confirmation_content hash.bytes number status) }
{
    let rest = sum(integer_size(number), other_status_size(status));
    sum(around(size(&hash.bytes)), rest)
}

fn confirmations_size(hash: Hash, number: u32, status: u32) -> u16
    ensures { Size result (confirmations_bytes hash.bytes number status) }
{
    around(around(confirmation_content_size(hash, number, status)))
}

// ## error

impl Cursor<'_> {
    fn put_error(&mut self, status: u32, f: FailureInfo)
        ensures { Wrote (error_bytes status f) self.old self.new }
    {
        self.put_head(0x30, status_size(status, f));
        self.put_status(status, f);
    }
}

fn error_size(status: u32, f: FailureInfo) -> u16
    ensures { Size result (error_bytes status f) }
{
    around(status_size(status, f))
}

// ## pkiconf

impl Cursor<'_> {
    fn put_null(&mut self)
        ensures { Wrote (element 0x05 []) self.old self.new }
    {
        self.put_head(0x05, 0);
    }
}

fn null_size() -> u16
    ensures { Size result (element 0x05 []) }
{
    around(0)
}

// ## By the kind

impl Cursor<'_> {
    #[tactic(auto, unfolding(encoding::specs::Message::content_bytes))]
    pub(crate) fn put_content(&mut self, src: &[u8], g: GivenSpans, kind: u8, c: OutgoingContents)
        ensures { Wrote (content_bytes (given_of src.now g) kind c) self.old self.new }
    {
        match kind {
            P10CR => self.put_part(src, g.request),
            _ if is_enrolment_kind(kind) => self.put_requests(src, g.request),
            _ if is_response(kind) => self.put_responses(src, g.certificate, c.number, c.status),
            ERROR => self.put_error(c.status, c.failure),
            CERT_CONF => self.put_confirmations(c.hash, c.number, c.status),
            _ => self.put_null(),
        }
    }
}

#[tactic(auto, unfolding(encoding::specs::Message::content_bytes))]
pub(crate) fn content_size(src: &[u8], g: GivenSpans, kind: u8, c: OutgoingContents) -> u16
    ensures { Size result (content_bytes (given_of src.now g) kind c) }
{
    match kind {
        P10CR => part_size(src, g.request),
        _ if is_enrolment_kind(kind) => requests_size(src, g.request),
        _ if is_response(kind) => responses_size(src, g.certificate, c.number, c.status),
        ERROR => error_size(c.status, c.failure),
        CERT_CONF => confirmations_size(c.hash, c.number, c.status),
        _ => null_size(),
    }
}
