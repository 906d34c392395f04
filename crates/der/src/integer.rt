// The number that an INTEGER says.
ghost use Rattle.std.specs.Prelude.{◌≡◌, [], ◌∷◌, cond, leb, ◌^◌, ◌<◌};
ghost use Rattle.der.specs.Integer.{shift_in, signed32};

fn shift_in(first: u64, s: &[u8]) -> u32
    requires { first < 2 ^ 32 }
    ensures { result ≡ shift_in first s.now }
{
    let mut v = first;
    for x in s {
        v = (v * 256 + u64::from(*x)) % 4294967296;
    }
    v as u32
}

// The number that one byte says.
#[tactic(auto, using(crate::proofs::IntegerLaws::byte_low, crate::proofs::IntegerLaws::byte_high))]
fn of_byte(x: u8) -> u32
    ensures { result ≡ shift_in (cond (leb 128 x) 4294967295 0) (x ∷ []) }
{
    if x < 128 {
        u32::from(x)
    } else {
        4294967040 + u32::from(x)
    }
}

// A number in two's complement, as its low 32 bits; 0 where there is no byte. Most have one, which is no loop's work.
#[tactic(auto, unfolding(crate::specs::Integer::signed32), using(crate::proofs::IntegerLaws::signed_none, crate::proofs::IntegerLaws::signed_one))]
pub fn signed32(s: &[u8]) -> u32
    ensures { result ≡ signed32 s.now }
{
    match s {
        [] => 0,
        [x] => of_byte(*x),
        [x, ..] if 128 <= *x => shift_in(4294967295, s),
        _ => shift_in(0, s),
    }
}
