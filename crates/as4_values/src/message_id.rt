//! Message identifiers: read, and made for this handler's own messages.

ghost use Rattle.std.specs.Prelude.{◌≡◌, ℕ, ◌<◌, ◌^◌, ◌↔◌, ◌++◌, codes, IfOk, IfErr, List, OnOk};
ghost use Rattle.as4_values.specs.Identifiers.{uuid_text, signal_id, submission_id};
ghost use Rattle.as4_values.specs.Word.{IsWord, GoesWrong};
ghost use Rattle.as4_values.specs.declared.word.Word.TheVariants.{Identifier};

use crate::lists::Octets;
use crate::memory::NoMemory;
use crate::plain_data::PlainData;
use crate::word::{IdRefusal, Word};
use std::alloc::Global;
use std::marker::Model;
use uuid::Uuid;

/// A message identifier (ebMS 3.0 Core, section 5.2.2.1; RFC 2822, section 3.6.4): 1 to 255 bytes from
/// `!` to `~` without `<` and `>`.
#[derive(Drop)]
pub struct MessageId {
    octets: Octets,
}

impl Model for MessageId {
    ghost Value = { List ℕ };

    ghost view = { λ id. id.octets };

    ghost invariant = { λ id. IsWord Identifier id.octets };
}

impl MessageId {
    /// Reads an identifier: all of the bytes, unchanged.
    pub fn read(alloc: Global, bytes: &[u8]) -> Result<MessageId, IdRefusal>
        ensures found { IfOk result (λ id. (id ≡ bytes.now) × IsWord Identifier bytes.now) }
        ensures only { IsWord Identifier bytes.now → IfErr result (λ e. e ≡ IdRefusal.NoMemory) }
        ensures bad_id { (at : ℕ) → (result ≡ Err (IdRefusal.BadId at)) ↔ GoesWrong Identifier bytes.now at }
    {
        if let Some(at) = Word::Identifier.first_wrong(bytes) {
            return Err(IdRefusal::BadId { at });
        }
        match Vec::from_slice(alloc, bytes) {
            Ok(items) => Ok(MessageId {
                octets: Octets::of(items),
            }),
            Err(_) => Err(IdRefusal::NoMemory),
        }
    }

    /// The identifier of a signal message, made of a nonce.
    #[tactic(auto, using(crate::proofs::IdentifierLemmas::signal_id_is_word))]
    pub fn of_signal(alloc: Global, nonce: u128) -> Result<MessageId, NoMemory>
        ensures { IfOk result (λ id. id ≡ signal_id nonce) }
    {
        let mut items = Vec::from_slice(alloc, b"s.")?;
        push_uuid(&mut items, nonce)?;
        items.extend_from_slice(b"@as4")?;
        Ok(MessageId {
            octets: Octets::of(items),
        })
    }

    /// The identifier of the user message of a submission, made of its number and a nonce.
    pub fn of_submission(alloc: Global, number: u64, nonce: u128) -> Result<MessageId, NoMemory>
        ensures { IfOk result (λ id. id ≡ submission_id number nonce) }
    {
        let mut items = format!(in alloc; "{number}.")?.into_bytes();
        push_uuid(&mut items, nonce)?;
        items.extend_from_slice(b"@as4")?;
        Ok(MessageId {
            octets: Octets::of(items),
        })
    }

    pub fn bytes(&self) -> &[u8]
        ensures value { result.now ≡ self.now }
        ensures spelled { IsWord Identifier self.now }
    {
        self.octets.bytes()
    }
}

impl PlainData for MessageId {
    fn try_clone(&self, alloc: Global) -> Result<MessageId, NoMemory> {
        Ok(MessageId {
            octets: self.octets.try_clone(alloc)?,
        })
    }

    fn same(&self, other: &MessageId) -> bool {
        self.octets.same(&other.octets)
    }
}

/// Submissions with different numbers have different identifiers, whatever their nonces are.
pub fn submission_ids_differ()
    ensures { (number other nonce another : ℕ) → number < 2 ^ 64 → other < 2 ^ 64
        → submission_id number nonce ≡ submission_id other another → number ≡ other }
{}

/// Appends the text of the UUID with these 128 bits.
fn push_uuid(out: &mut Vec<u8>, nonce: u128) -> Result<(), NoMemory>
    ensures { OnOk result (out.new.items ≡ out.old.items ++ uuid_text nonce) }
{
    let mut buffer = Uuid::encode_buffer();
    let id = Uuid::from_u128(nonce).hyphenated();
    let text = id.encode_lower(&mut buffer);
    out.extend_from_slice(text.as_bytes())?;
    Ok(())
}
