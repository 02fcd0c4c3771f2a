//! Hashes of street names.
ghost use Rattle.std.specs.Prelude.{◌≡◌};
ghost use Rattle.geocode.specs.NameHash.{hash_of, hash_with};

/// The hash of a blank name: the initial value of the 64-bit FNV-1a hash.
pub(crate) const FNV_OFFSET: u64 = 0xcbf2_9ce4_8422_2325;

const FNV_PRIME: u64 = 0x100_0000_01b3;

/// Returns the FNV-1a hash of a name's nonblank bytes, with ASCII letters in lower case, so that names that are equal by `name_equals` have the same
/// hash. Not resistant to chosen names.
#[tactic(auto, unfolding(crate::specs::NameHash::hash_of))]
pub(crate) fn hash_of(name: &[u8]) -> u64
    ensures { result ≡ hash_of name.now }
{
    let mut hash = FNV_OFFSET;
    for byte in name {
        hash = hash_with(hash, *byte);
    }
    hash
}

fn hash_with(hash: u64, byte: u8) -> u64
    ensures { result ≡ hash_with hash byte }
{
    let byte = byte.to_ascii_lowercase();
    if byte == b' ' {
        return hash;
    }
    (hash ^ u64::from(byte)).wrapping_mul(FNV_PRIME)
}
