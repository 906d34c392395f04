// Parts of lent bytes: read, and put in. A caller keeps them inside the bytes. The place stays an argument: a slice cut
// at each call would be no plainer.
ghost use Rattle.std.specs.Prelude.{◌≡◌, [], ◌∷◌, ◌+◌, ◌≤◌, length};
ghost use Rattle.packed.specs.Bytes.{part, Placed, flag, flag_at};

// N bytes from an offset.
#[inline(always)]
pub(crate) fn get<const N: usize>(bytes: &[u8], at: usize) -> [u8; N]
    requires { at + N ≤ length bytes.now }
    ensures { result ≡ part at N bytes.now }
{
    let mut x = [0u8; N];
    x.copy_from_slice(&bytes[at..at + N]);
    x
}

// The flag in a byte: set where it is 1.
pub(crate) fn get_flag(bytes: &[u8], at: usize) -> bool
    requires { at + 1 ≤ length bytes.now }
    ensures { result ≡ flag_at at bytes.now }
{
    bytes[at] == 1
}

// It says too how long what it put in is: a caller has an array's length from here. `part` lies nowhere in the bytes, so
// that no test for that is compiled.
#[inline(always)]
pub(crate) fn put<const N: usize>(bytes: &mut [u8], at: usize, x: &[u8; N])
    requires { at + N ≤ length bytes.old }
    ensures { Placed at N x.now bytes.old bytes.new }
{
    let part = *x;
    bytes[at..at + N].copy_from_slice(&part);
}

pub(crate) fn put_flag(bytes: &mut [u8], at: usize, b: bool)
    requires { at + 1 ≤ length bytes.old }
    ensures { Placed at 1 (flag b ∷ []) bytes.old bytes.new }
{
    bytes[at] = u8::from(b);
}
