//! Lists of 1 to 64 bytes, and the words that spell them.

ghost use Rattle.std.specs.Prelude.{◌≡◌, ◌≤◌, ◌<◌, ◌⊎◌, ◌-◌, ◌*◌, ◌++◌, ◌↔◌, ℕ, IsTrue, length, take, replicate, MatchOption};
ghost use Rattle.std.specs.Int.{w64, to_le_bytes};
ghost use Rattle.any_size.specs.Bytes.{bytes_of, IsPadded};

/// A list of 1 to 64 bytes, which is copied. Contracts see the list.
#[derive(Clone, Copy)]
pub struct Block64 {
    bytes: [u8; 64],
    len: usize,
}

impl std::marker::Model for Block64 {
    ghost use Rattle.std.specs.Prelude.{List, ℕ, take, length, replicate, ◌-◌, ◌++◌};
    ghost use Rattle.any_size.specs.Bytes.{IsPadded};
    ghost use Rattle.any_size.specs.Padding.{padded_bytes, padded_count};

    ghost Value = { List ℕ };

    ghost view = { λ b. take b.len b.bytes };

    ghost invariant = { λ b. IsPadded b.len b.bytes };

    ghost inverse = { λ v. record { bytes = v ++ replicate (64 - length v) 0; len = length v } };

    ghost inverse_ok = { λ b padded i. record { bytes = padded_bytes b.len b.bytes padded i; len = padded_count b.len b.bytes padded i } };
}

impl Block64 {
    /// The block of these bytes; None exactly where there are none or more than 64.
    pub fn of(bytes: &[u8]) -> Option<Block64>
        ensures { MatchOption result ((length bytes.now ≡ 0) ⊎ (64 < length bytes.now)) (λ b. (b ≡ bytes.now) × (1 ≤ length bytes.now) × (length bytes.now ≤ 64)) }
    {
        let len = bytes.len();
        if len == 0 || 64 < len {
            return None;
        }
        let mut all = [0; 64];
        all[..len].copy_from_slice(bytes);
        Some(Block64 { bytes: all, len })
    }

    /// Its bytes, in order.
    #[inline]
    pub fn bytes(&self) -> &[u8]
        ensures value { result.now ≡ self.now }
        ensures few { (1 ≤ length self.now) × (length self.now ≤ 64) }
    {
        &self.bytes[..self.len]
    }

    /// How many bytes it has, 1 to 64.
    #[inline]
    pub(crate) fn count(&self) -> usize
        ensures value { result ≡ length self.now }
        ensures few { (1 ≤ result) × (result ≤ 64) }
    {
        self.len
    }

    /// Eight words that spell it, with 0 after its bytes: the first eight bytes are the first word, the first of them lowest.
    #[inline]
    pub(crate) fn words(&self) -> [u64; 8]
        ensures { bytes_of result ≡ self.now ++ replicate (64 - length self.now) 0 }
    {
        let (parts, _) = self.bytes.as_chunks::<8>();
        let mut words = [0; 8];
        for i in 0..8 {
            words[i] = word_of(&parts[i]);
        }
        words
    }

    /// The block of so many bytes that words spell, with 0 after its bytes.
    #[inline]
    pub(crate) fn spelled(words: &[u64; 8], value_len: usize) -> Block64
        requires len { (1 ≤ value_len) × (value_len ≤ 64) }
        requires zeros { bytes_of words.now ≡ take value_len (bytes_of words.now) ++ replicate (64 - value_len) 0 }
        ensures { result ≡ take value_len (bytes_of words.now) }
    {
        let mut parts = [[0; 8]; 8];
        for i in 0..8 {
            parts[i] = words[i].to_le_bytes();
        }
        let mut bytes = [0; 64];
        bytes.copy_from_slice(parts.as_flattened());
        Block64 {
            bytes,
            len: value_len,
        }
    }

    /// Whether both have the same bytes.
    #[inline]
    pub(crate) fn same(&self, other: &Block64) -> bool
        ensures { IsTrue result ↔ (self.now ≡ other.now) }
    {
        self.bytes() == other.bytes()
    }
}

/// The word of eight bytes, the first of them lowest.
#[inline(always)]
fn word_of(part: &[u8; 8]) -> u64
    ensures { to_le_bytes w64 result ≡ part.now }
{
    u64::from_le_bytes(*part)
}
