// Refusal 36: whether the order and the given parts fit.
ghost use Rattle.std.specs.Prelude.{◌≡◌, true, false, ◌&&◌};
ghost use Rattle.protocol.specs.Bytes.{bytes_of};
ghost use Rattle.grammar.specs.Span.{part_of};
ghost use Rattle.protocol.specs.Message.{is_present, is_response, optional_part};
ghost use Rattle.std.specs.Fn.{FnOnceReturnsAt};
ghost use Rattle.encoding.specs.Fits.{if_given, name_fits, typed_fits, text_fits, info_fits, header_fits, request_message_fits, certificate_fits, request_fits, response_fits, blank, has_just, no_bit, contents_with, contents_fit, order_fits, fits, is_given, is_absent};
ghost use Rattle.der.specs.Head.{byte};
ghost use Rattle.der.specs.Content.{bit_string_ok};
ghost use Rattle.der.specs.Element.{is_element};
ghost use Rattle.given.specs.Spans.{given_of, span_inside, header_inside, spans_inside};

use crate::GivenSpans;
use der::Offset;
use der::content::bit_string_ok;
use der::element::is_element;
use grammar::alone::{is_free_text, is_general_info, is_name_tag, is_request_message, is_typed};
use grammar::{Span, part_of};
use parts::is_present;
use protocol::kinds::{CERT_CONF, ERROR, P10CR, PKI_CONF, is_enrolment_kind, is_response};
use protocol::{FailureInfo, Outgoing, OutgoingContents};

// ## Spans

fn span_inside(src: &[u8], s: Span) -> bool
    ensures { result ≡ span_inside src.now s }
{
    let Span {
        start: Offset(start),
        len,
    } = s;
    if start == 0 {
        return len == 0;
    }
    start <= src.len() && len <= src.len() - start
}

#[tactic(auto, unfolding(crate::specs::Spans::header_inside))]
fn header_inside(src: &[u8], g: GivenSpans) -> bool
    ensures { result ≡ header_inside src.now g }
{
    span_inside(src, g.sender)
        && span_inside(src, g.recipient)
        && span_inside(src, g.message_time)
        && span_inside(src, g.protection_alg)
        && span_inside(src, g.sender_kid)
        && span_inside(src, g.recip_kid)
        && span_inside(src, g.free_text)
        && span_inside(src, g.general_info)
}

#[tactic(auto, unfolding(crate::specs::Spans::spans_inside))]
fn spans_inside(src: &[u8], g: GivenSpans) -> bool
    ensures { result ≡ spans_inside src.now g }
{
    header_inside(src, g)
        && span_inside(src, g.protection)
        && span_inside(src, g.request)
        && span_inside(src, g.certificate)
}

// ## Given parts

// Whether a part is absent, or passes the test.
fn if_given<F: FnOnce(&[u8]) -> bool>(src: &[u8], s: Span, fits: F) -> bool
    requires { F.IsAlwaysCallable fits }
    ensures absent { is_present s ≡ false → result ≡ true }
    ensures given { is_present s ≡ true → FnOnceReturnsAt F.FnOnce fits (part_of src.now s) result }
{
    !is_present(s) || fits(part_of(src, s))
}

// Whether a part is there, and passes the test.
fn is_given<F: FnOnce(&[u8]) -> bool>(src: &[u8], s: Span, fits: F) -> bool
    requires { F.IsAlwaysCallable fits }
    ensures absent { is_present s ≡ false → result ≡ false }
    ensures given { is_present s ≡ true → FnOnceReturnsAt F.FnOnce fits (part_of src.now s) result }
{
    is_present(s) && fits(part_of(src, s))
}

// ## The header's fields

// The first byte; 0, which is no tag, where there is none.
fn first(e: &[u8]) -> u8
    ensures { result ≡ byte e.now 0 }
{
    e.first().copied().unwrap_or(0)
}

#[tactic(auto, unfolding(encoding::specs::Fits::name_fits), using(crate::proofs::FitsLaws::no_element))]
fn name_fits(src: &[u8], s: Span) -> bool
    ensures { result ≡ name_fits (bytes_of (optional_part src.now s)) }
{
    is_given(src, s, |e| is_element(e, 14) && is_name_tag(first(e)))
}

// The three of 13 levels, each by the rule of its definition.

#[tactic(auto, unfolding(encoding::specs::Fits::typed_fits))]
fn typed_fits(e: &[u8]) -> bool
    ensures { result ≡ typed_fits e.now }
{
    is_element(e, 13) && is_typed(e)
}

#[tactic(auto, unfolding(encoding::specs::Fits::text_fits))]
fn text_fits(e: &[u8]) -> bool
    ensures { result ≡ text_fits e.now }
{
    is_element(e, 13) && is_free_text(e)
}

#[tactic(auto, unfolding(encoding::specs::Fits::info_fits))]
fn info_fits(e: &[u8]) -> bool
    ensures { result ≡ info_fits e.now }
{
    is_element(e, 13) && is_general_info(e)
}

#[tactic(auto, unfolding(encoding::specs::Fits::header_fits))]
fn header_fits(src: &[u8], g: GivenSpans) -> bool
    ensures { result ≡ header_fits (given_of src.now g) }
{
    name_fits(src, g.sender)
        && name_fits(src, g.recipient)
        && if_given(src, g.protection_alg, typed_fits)
        && if_given(src, g.free_text, text_fits)
        && if_given(src, g.general_info, info_fits)
        && if_given(src, g.protection, bit_string_ok)
}

// ## The caller's element

#[tactic(auto, unfolding(encoding::specs::Fits::request_message_fits))]
fn request_message_fits(e: &[u8]) -> bool
    ensures { result ≡ request_message_fits e.now }
{
    is_element(e, 13) && is_request_message(e)
}

#[tactic(auto, unfolding(encoding::specs::Fits::certificate_fits))]
fn certificate_fits(e: &[u8]) -> bool
    ensures { result ≡ certificate_fits e.now }
{
    is_element(e, 9) && first(e) == 0x30
}

#[tactic(auto, unfolding(encoding::specs::Fits::request_fits))]
fn request_fits(src: &[u8], s: Span, kind: u8) -> bool
    ensures { result ≡ request_fits kind (optional_part src.now s) }
{
    match kind {
        P10CR => is_given(src, s, |e| is_element(e, 14)),
        _ if is_enrolment_kind(kind) => is_given(src, s, request_message_fits),
        _ => !is_present(s),
    }
}

#[tactic(auto, unfolding(encoding::specs::Fits::response_fits))]
fn response_fits(src: &[u8], s: Span, kind: u8, status: u32) -> bool
    ensures { result ≡ response_fits kind status (optional_part src.now s) }
{
    if is_response(kind) && status == 0 {
        is_given(src, s, certificate_fits)
    } else {
        !is_present(s)
    }
}

// ## The order

// Whether all bytes are zero.
fn blank(x: &[u8]) -> bool
    ensures { result ≡ blank x.now }
{
    x.iter().all(|b| *b == 0)
}

// A flag beside its value, and no Option: what is not there has to be zero (definition `has_just`), which an Option could not say.
fn has_just(asked: bool, there: bool, unset: bool) -> bool
    ensures { result ≡ has_just asked there unset }
{
    if asked { there } else { !there && unset }
}

// Contents with just a status, a number, a hash, perhaps a failure bit, as said.
#[tactic(auto, unfolding(encoding::specs::Fits::contents_with))]
fn contents_with(status: bool, number: bool, hash: bool, bit: bool, c: OutgoingContents) -> bool
    ensures { result ≡ contents_with status number hash bit c }
{
    has_just(status, c.has_status, c.status == 0)
        && has_just(number, c.has_number, c.number == 0)
        && (hash || blank(&c.hash.bytes))
        && (bit || c.failure.is_none())
}

#[tactic(auto, unfolding(encoding::specs::Fits::contents_fit))]
fn contents_fit(kind: u8, c: OutgoingContents) -> bool
    ensures { result ≡ contents_fit kind c }
{
    match kind {
        _ if is_enrolment_kind(kind) || kind == PKI_CONF => {
            contents_with(false, false, false, false, c)
        }
        _ if is_response(kind) => contents_with(true, true, false, false, c),
        CERT_CONF => contents_with(true, true, true, false, c),
        ERROR => contents_with(true, false, false, true, c),
        _ => false,
    }
}

fn order_fits(o: Outgoing) -> bool
    ensures { result ≡ order_fits o }
{
    (o.has_recip_nonce || blank(&o.recip_nonce.bytes)) && contents_fit(o.kind, o.contents)
}

// ## All of it

#[tactic(auto, unfolding(encoding::specs::Fits::fits))]
fn parts_fit(src: &[u8], g: GivenSpans, o: Outgoing) -> bool
    ensures { result ≡ fits (given_of src.now g) o }
{
    order_fits(o)
        && header_fits(src, g)
        && request_fits(src, g.request, o.kind)
        && response_fits(src, g.certificate, o.kind, o.contents.status)
}

// Whether every given part lies in the lent bytes, and the parts and the order fit.
pub fn all_fit(src: &[u8], g: GivenSpans, o: Outgoing) -> bool
    ensures { result ≡ (spans_inside src.now g && fits (given_of src.now g) o) }
{
    spans_inside(src, g) && parts_fit(src, g, o)
}
