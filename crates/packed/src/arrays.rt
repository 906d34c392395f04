// Ids, nonces and hashes that the host hands in as slices.
ghost use Rattle.std.specs.Prelude.{◌≡◌};
ghost use Rattle.packed.specs.Arrays.{unpack};

// The bytes of an id, a nonce or a hash, where there are exactly as many as it has.
#[tactic(auto, unfolding(crate::specs::Arrays::unpack))]
pub fn unpack<const N: usize>(bytes: &[u8]) -> Option<[u8; N]>
    ensures { result ≡ unpack N bytes.now }
{
    <[u8; N]>::try_from(bytes).ok()
}
