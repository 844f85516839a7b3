// What a kind of key is.
ghost use Rattle.std.specs.Prelude.{◌≡◌, ℕ, Bool, true, false, List, Ok, MatchResult};
ghost use Rattle.keys.specs.Laws.{KeyLaws};

use crate::fault::KeyFault;

// A kind of key, by the type of its keys.
pub trait Key: Copy {
    // The kind's number, as it stands in an entry.
    ghost mark: { ℕ };

    // The 12 bytes of a key.
    ghost spelling: { Self → List ℕ };

    // Which bytes are those of a key.
    ghost admissible: { List ℕ → Bool };

    ghost laws: { KeyLaws spelling admissible };

    fn kind() -> u8
        ensures { result ≡ mark };

    fn to_bytes(&self) -> [u8; 12]
        ensures { result ≡ spelling self.now };

    // The key that these bytes spell; 4 KEY where they spell none.
    fn from_bytes(bytes: &[u8]) -> Result<Self, KeyFault>
        ensures { MatchResult result (λ k. (admissible bytes.now ≡ true) × (spelling k ≡ bytes.now)) (λ _. admissible bytes.now ≡ false) };

    // Whether these are the bytes of a key.
    fn admits(bytes: &[u8]) -> bool
        ensures { result ≡ admissible bytes.now }
    {
        Self::from_bytes(bytes).is_ok()
    }
}

// A key read back from its own bytes: the same key, whatever its kind.
pub fn read_back<K: Key>(key: &K) -> Result<K, KeyFault>
    ensures { result ≡ Ok key.now }
{
    K::from_bytes(&key.to_bytes())
}
