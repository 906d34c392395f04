// The content rules of primitive elements: point 4 of document 01, "DER as we take it".
ghost use Rattle.std.specs.Prelude.{◌≡◌, true, not, ◌&&◌, eqb};
ghost use Rattle.der.specs.Content.{boolean_ok, integer_ok, bit_string_ok, arcs_ok, oid_ok, content_ok};

#[tactic(auto, unfolding(crate::specs::Content::boolean_ok))]
fn boolean_ok(c: &[u8]) -> bool
    ensures { result ≡ boolean_ok c.now }
{
    matches!(c, [0 | 255])
}

#[tactic(auto, unfolding(crate::specs::Content::integer_ok))]
fn integer_ok(c: &[u8]) -> bool
    ensures { result ≡ integer_ok c.now }
{
    match c {
        [] => false,
        [_] => true,
        [0, second, ..] => 128 <= *second,
        [255, second, ..] => *second < 128,
        _ => true,
    }
}

#[tactic(auto, unfolding(crate::specs::Content::bit_string_ok))]
pub fn bit_string_ok(c: &[u8]) -> bool
    ensures { result ≡ bit_string_ok c.now }
{
    match c {
        [] => false,
        [unused] => *unused == 0,
        [unused, .., last] => *unused <= 7 && *last % (1 << *unused) == 0,
    }
}

// Whether the bytes are whole arcs, none beginning 80.
fn arcs_ok(c: &[u8]) -> bool
    ensures { result ≡ arcs_ok true c.now }
{
    // an arc begins here
    let mut fresh = true;
    for x in c {
        if *x == 128 && fresh {
            return false;
        }
        fresh = *x < 128;
    }
    fresh
}

// Most object identifiers have no byte 80: then only the last byte is asked.
#[tactic(auto, unfolding(crate::specs::Content::oid_ok), using(crate::proofs::ContentLaws::oid_plain))]
fn oid_ok(c: &[u8]) -> bool
    ensures { result ≡ oid_ok c.now }
{
    match c {
        [] => false,
        [.., last] if !c.contains(&128) => *last < 128,
        _ => arcs_ok(c),
    }
}

// Whether a primitive element with this tag may have this content; of 0, which is no tag, none.
#[tactic(auto, unfolding(crate::specs::Content::content_ok))]
pub(crate) fn content_ok(tag: u8, c: &[u8]) -> bool
    ensures { result ≡ (not (eqb tag 0) && content_ok tag c.now) }
{
    match tag {
        0 => false,
        1 => boolean_ok(c),
        2 => integer_ok(c),
        3 => bit_string_ok(c),
        5 => c.is_empty(),
        6 => oid_ok(c),
        _ => true,
    }
}
