//! Words of graphic characters with a limit: the common form of identifiers and codes.

ghost use Rattle.std.specs.Prelude.{◌≡◌, ℕ, ◌↔◌, IsNone, IfSome};

/// Why the bytes aren't an identifier or a code.
#[derive(Clone, Copy, Debug, PartialEq, Eq)]
pub enum IdRefusal {
    /// The first byte that isn't allowed or is past the limit; 0 where there are no bytes.
    BadId { at: usize },
    /// Memory ran out.
    NoMemory,
}

/// The two kinds of word.
#[derive(Clone, Copy, Debug, PartialEq, Eq)]
pub enum Word {
    /// 1 to 255 bytes from `!` to `~` without `<` and `>`.
    Identifier,
    /// 1 to 64 bytes from `!` to `~`.
    ErrorCode,
}

impl Word {
    ghost use Rattle.as4_values.specs.Word.{allows, limit_of, GoesWrong, IsWord};

    fn limit(self) -> usize
        ensures { result ≡ limit_of self }
    {
        match self {
            Word::Identifier => 255,
            Word::ErrorCode => 64,
        }
    }

    fn allows(self, byte: u8) -> bool
        ensures { result ≡ allows self byte }
    {
        match self {
            Word::Identifier => (33..=126).contains(&byte) && byte != b'<' && byte != b'>',
            Word::ErrorCode => (33..=126).contains(&byte),
        }
    }

    /// Where the bytes stop being such a word; None where they are one.
    pub fn first_wrong(self, bytes: &[u8]) -> Option<usize>
        ensures none { IsNone result ↔ IsWord self bytes.now }
        ensures wrong { IfSome result (GoesWrong self bytes.now) }
        ensures only { (at : ℕ) → GoesWrong self bytes.now at → result ≡ Some at }
    {
        if bytes.is_empty() {
            return Some(0);
        }
        for (at, byte) in bytes.iter().enumerate() {
            if at == self.limit() || !self.allows(*byte) {
                return Some(at);
            }
        }
        None
    }
}
