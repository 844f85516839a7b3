// What a key's bytes are hashed to.
ghost use Rattle.std.specs.Prelude.{◌≡◌, ◌<◌};
ghost use Rattle.keys.specs.Hashes.{fold_of, fnv1a_of, modulus};

// The prime modulus of the fold, and of the hash functions that path rules build on it.
pub const MODULUS: u64 = 2147483647;

// 32-bit FNV-1a of any bytes.
pub fn fnv1a(bytes: &[u8]) -> u32
    ensures { result ≡ fnv1a_of bytes.now }
{
    let mut hash: u32 = 2166136261;
    for b in bytes {
        hash = (hash ^ u32::from(*b)).wrapping_mul(16777619);
    }
    hash
}

// The digest of a key: FNV-1a over its 12 bytes.
pub fn digest(key: &[u8; 12]) -> u32
    ensures { result ≡ fnv1a_of key.now }
{
    fnv1a(key)
}

// The fold of a key: its 12 bytes as one number, modulo the prime.
pub fn fold(key: &[u8; 12]) -> u32
    ensures value { result ≡ fold_of key.now }
    ensures below { result < modulus }
{
    let mut rest: u64 = 0;
    for b in key {
        rest = (rest * 256 + u64::from(*b)) % MODULUS;
    }
    rest as u32
}
