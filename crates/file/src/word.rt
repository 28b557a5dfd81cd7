// Little-endian 32-bit numbers in a file's bytes.
ghost use Rattle.std.specs.Prelude.{◌≡◌, ◌+◌, ◌≤◌, ◌<◌, length};
ghost use Rattle.file.specs.Word.{word, signed_word};

// The number whose four bytes start at `at`.
#[tactic(auto, unfolding(crate::specs::Word::word))]
pub fn word(s: &[u8], at: usize) -> u32
    requires { at + 4 ≤ length s.now }
    ensures { result ≡ word s.now at }
{
    u32::from_le_bytes([s[at], s[at + 1], s[at + 2], s[at + 3]])
}

// The same bits, read with a sign.
#[tactic(auto, unfolding(crate::specs::Word::signed_word))]
pub fn signed_word(s: &[u8], at: usize) -> i64
    requires { at + 4 ≤ length s.now }
    ensures { result ≡ signed_word s.now at }
{
    i64::from(word(s, at).cast_signed())
}
