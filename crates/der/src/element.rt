// Whole elements with all that they hold: point 3 of document 01, "DER as we take it", over the other three.
ghost use Rattle.std.specs.Prelude.{◌≡◌, ◌<◌, ◌≤◌, length, drop};
ghost use Rattle.der.specs.Head.{head_of};
ghost use Rattle.der.specs.Element.{form_ok, check_at, check, fills, is_element};
ghost use Rattle.der.specs.Code.{kind_of, rule_of, fault_of, check_of, EndsAt};

use crate::Offset;
use crate::content::content_ok;
use crate::head::{self, tag_ok};

// At most so many elements deep, the message being depth 1.
pub const MAX_DEPTH: u8 = 16;

// One element by itself, its content not looked into: a type of the definitions. The code has `Kind`, which names no rule: of a sound
// element none is asked.
#[derive(Clone, Copy)]
pub enum Element {
    // its size, tag and length included
    Primitive(usize),
    // where its content starts and how long it is
    Constructed { start: usize, len: usize },
    // the lowest rule that it breaks
    Faulty(u8),
}

// The first fault: its offset, and the lowest rule broken there.
#[derive(Clone, Copy)]
pub struct FirstFault {
    pub at: Offset,
    pub rule: u8,
}

// Elements with all that they hold: no fault, or the first one.
pub type Check = Result<(), FirstFault>;

// Universal tags are primitive, but for SEQUENCE and SET; other classes may be either.
#[tactic(auto, unfolding(crate::specs::Element::form_ok))]
fn form_ok(tag: u8) -> bool
    ensures { result ≡ form_ok tag }
{
    matches!(tag, 0x40.. | 0x30 | 0x31 | 0x00..=0x0F | 0x12..=0x1F)
}

// What an element is by its tag and content, wherever it stands.
#[derive(Clone, Copy)]
enum Kind {
    Primitive,
    Constructed,
    Faulty,
}

// The most frequent tags come first: tried with the tests of the definition in their order, and too slow.
#[tactic(auto, unfolding(crate::specs::Code::kind_of, crate::specs::Head::tag_ok, crate::specs::Element::form_ok, crate::specs::Content::content_ok))]
fn kind_with(tag: u8, c: &[u8]) -> Kind
    ensures { result ≡ kind_of tag c.now }
{
    match tag {
        0x30 | 0x31 => Kind::Constructed,
        0x00..=0x0F => {
            if content_ok(tag, c) {
                Kind::Primitive
            } else {
                Kind::Faulty
            }
        }
        // 00 is told above, and 20 is a bad form
        _ if tag % 32 == 31 || !form_ok(tag) => Kind::Faulty,
        _ if tag / 32 % 2 == 1 => Kind::Constructed,
        _ => Kind::Primitive,
    }
}

// What the check of a run of elements finds: its end where all are sound, else the first fault by its rule, and where it is. A `Check`,
// which has three fields, would be returned through memory: tried, a fifth more instructions for a message.
#[derive(Clone, Copy)]
enum Run {
    Sound(usize),
    BadTag(Offset),
    BadLength(Offset),
    BadForm(Offset),
    BadContent(Offset),
}

// The fault of the element at `at`, where a level is left or none is. Few elements are faulty: the way of the sound ones stays short.
#[cold]
#[inline(never)]
#[tactic(auto, unfolding(crate::specs::Code::rule_of, crate::specs::Head::head_of), using(crate::proofs::HeadLaws::bad_length_is, crate::proofs::ElementLaws::tail_is))]
fn fault(m: &[u8], at: usize, level: bool) -> Run
    requires { at < length m.now }
    ensures { check_of result ≡ fault_of at (rule_of level (head_of (drop at m.now))) }
{
    let s = &m[at..];
    if !tag_ok(s[0]) {
        return Run::BadTag(Offset(at));
    }
    match head::read_length(s) {
        Err(_) => Run::BadLength(Offset(at)),
        Ok(whole) if level && form_ok(whole.tag) => Run::BadContent(Offset(at)),
        Ok(_) => Run::BadForm(Offset(at)),
    }
}

// The elements of `m` from `from` on, where `depth` levels are left. What an element holds is checked by a call, a level deeper.
#[tactic(auto, using(crate::proofs::HeadLaws::ok_length_fits))]
fn elements(m: &[u8], from: usize, depth: u8) -> Run
    requires { from ≤ length m.now }
    ensures checked { check_of result ≡ check_at depth from (drop from m.now) }
    ensures ends { EndsAt (length m.now) result }
{
    let mut at = from;
    while at < m.len() {
        let rest = &m[at..];
        if depth == 0 {
            return fault(m, at, false);
        }
        let Ok(whole) = head::read_length(rest) else {
            return fault(m, at, true);
        };
        match kind_with(whole.tag, &rest[whole.start..whole.start + whole.len]) {
            Kind::Primitive => at += whole.start + whole.len,
            Kind::Constructed => {
                let content = at + whole.start;
                let end = content + whole.len;
                match elements(&m[..end], content, depth - 1) {
                    Run::Sound(to) => at = to,
                    found => return found,
                }
            }
            Kind::Faulty => return fault(m, at, true),
        }
    }
    Run::Sound(at)
}

// Whether all of `s` is whole elements, the first at depth 1; or the first fault.
#[tactic(auto, unfolding(crate::specs::Element::check))]
pub fn check_elements(s: &[u8]) -> Check
    ensures { result ≡ check s.now }
{
    let (at, rule) = match elements(s, 0, MAX_DEPTH) {
        Run::Sound(_) => return Ok(()),
        Run::BadTag(at) => (at, 1),
        Run::BadLength(at) => (at, 2),
        Run::BadForm(at) => (at, 3),
        Run::BadContent(at) => (at, 4),
    };
    Err(FirstFault { at, rule })
}

#[tactic(auto, unfolding(crate::specs::Element::fills), using(crate::proofs::HeadLaws::ok_fits))]
fn fills(s: &[u8]) -> bool
    ensures { result ≡ fills s.now }
{
    matches!(head::read(s), Ok(whole) if whole.start + whole.len == s.len())
}

// Whether `s` is exactly one element with nothing after it, nested at most `depth` deep.
#[tactic(auto, unfolding(crate::specs::Element::is_element))]
pub fn is_element(s: &[u8], depth: u8) -> bool
    ensures { result ≡ is_element depth s.now }
{
    fills(s) && matches!(elements(s, 0, depth), Run::Sound(_))
}
