//! Error codes.

ghost use Rattle.std.specs.Prelude.{◌≡◌, ℕ, ◌↔◌, ◌++◌, codes, IfOk, IfErr, List};
ghost use Rattle.as4_values.specs.Word.{IsWord, GoesWrong};
ghost use Rattle.as4_values.specs.declared.word.Word.TheVariants.{ErrorCode};

use crate::lists::Octets;
use crate::memory::NoMemory;
use crate::plain_data::PlainData;
use crate::word::{IdRefusal, Word};
use std::alloc::Global;
use std::marker::Model;

/// An error code (ebMS 3.0 Core, section 6.2.5), as `EBMS:0006`: 1 to 64 bytes from `!` to `~`.
#[derive(Drop)]
pub struct Code {
    octets: Octets,
}

impl Model for Code {
    ghost Value = { List ℕ };

    ghost view = { λ code. code.octets };

    ghost invariant = { λ code. IsWord ErrorCode code.octets };
}

impl Code {
    /// Reads a code: all of the bytes, unchanged.
    pub fn read(alloc: Global, bytes: &[u8]) -> Result<Code, IdRefusal>
        ensures found { IfOk result (λ code. (code ≡ bytes.now) × IsWord ErrorCode bytes.now) }
        ensures only { IsWord ErrorCode bytes.now → IfErr result (λ e. e ≡ IdRefusal.NoMemory) }
        ensures bad_id { (at : ℕ) → (result ≡ Err (IdRefusal.BadId at)) ↔ GoesWrong ErrorCode bytes.now at }
    {
        if let Some(at) = Word::ErrorCode.first_wrong(bytes) {
            return Err(IdRefusal::BadId { at });
        }
        match Vec::from_slice(alloc, bytes) {
            Ok(items) => Ok(Code {
                octets: Octets::of(items),
            }),
            Err(_) => Err(IdRefusal::NoMemory),
        }
    }

    pub fn bytes(&self) -> &[u8]
        ensures value { result.now ≡ self.now }
        ensures spelled { IsWord ErrorCode self.now }
    {
        self.octets.bytes()
    }
}

impl PlainData for Code {
    fn try_clone(&self, alloc: Global) -> Result<Code, NoMemory> {
        Ok(Code {
            octets: self.octets.try_clone(alloc)?,
        })
    }

    fn same(&self, other: &Code) -> bool {
        self.octets.same(&other.octets)
    }
}
