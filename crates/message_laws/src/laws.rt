//! A written message is read back as that message.

ghost use Rattle.std.specs.Prelude.{◌≡◌, ℕ, List, Result, Ok, Some};
ghost use Rattle.as4_message.specs.Meaning.{AnswersBy, Copies, ReceivedValue, Means, IsMessage, ArePaired};
ghost use Rattle.as4_message.specs.declared.received.MessageRefusal.{MessageRefusal};
ghost use Rattle.message_model.specs.Wire.{file_at, media_and_body, message_file, IsFile, IsWire};
ghost use Rattle.as4_values.specs.declared.message.Message.{Message as MessageValue};
ghost use Rattle.message_laws.specs.Answers.{IsReadAs};
ghost use Rattle.message_laws.specs.Files.{HasNoCr};
ghost use Rattle.message_laws.specs.Readable.{IsShort};

use as4_values::Message;
use package_laws::{envelope_is_read_again, package_is_read_again};
use unit_laws::{header_is_read_again, pair_is_read_again, signal_is_read_again};

/// A written message is read back as that message (RFC 2046; RFC 2387; ebMS 3.0 Core, section 5.2) if its envelope is
/// at most as long as a document may be and its part infos pair with its payloads.
pub fn message_is_read_again(message: &Message)
    ensures { (media body : List ℕ) → IsWire message.now media body → IsShort message.now → ArePaired message.now
        → (received : ReceivedValue) × Means media body (Ok received) × IsMessage received message.now }
{
    match message {
        Message::User { header, payloads } => {
            // Laws: the header and the package are read back.
            header_is_read_again(header);
            package_is_read_again(payloads);
        }
        Message::Signal(signal) => {
            // Laws: the signal and its bare envelope are read back.
            signal_is_read_again(signal);
            envelope_is_read_again();
        }
        Message::Pair(pair) => {
            // Laws: the pair and its bare envelope are read back.
            pair_is_read_again(pair);
            envelope_is_read_again();
        }
    }
}

/// `read_message` returns the message that `write_message` wrote, unless memory runs out. The message's envelope must
/// be short enough for a document, and its part infos must pair with its payloads.
pub fn answer_is_the_message(message: &Message)
    ensures { (media body : List ℕ) (answer : Result MessageValue MessageRefusal) → IsWire message.now media body
        → IsShort message.now → ArePaired message.now
        → AnswersBy (λ read. read) answer (Copies (Means media body)) → IsReadAs answer message.now }
{
    message_is_read_again(message);
    // Laws: a written message is read back.
}

/// A written message file is cut into a media text and a body that carry the message.
pub fn file_is_cut_again()
    ensures { (message : MessageValue) (file : List ℕ) → IsFile message file → IsWire message (media_and_body file).0 (media_and_body file).1 }
{}

/// Cutting a message file and joining its parts are inverse if the media text has no CR.
pub fn a_file_is_its_parts()
    ensures joined { (media body : List ℕ) → HasNoCr media → media_and_body (message_file media body) ≡ (media, body) }
    ensures cut { (file media body : List ℕ) → file_at file ≡ Some (media, body) → file ≡ message_file media body }
{}
