//! What is submitted by a mode is short enough to be read back, and so are the signals about it.

ghost use Rattle.std.specs.Prelude.{◌≡◌, ℕ, ◌≤◌, Some, replicate};
ghost use Rattle.as4_effects.specs.declared.submission.Submission.{Submission};
ghost use Rattle.as4_message.specs.Meaning.{ArePaired};
ghost use Rattle.as4_values.specs.declared.message.Message.{Message as MessageValue};
ghost use Rattle.exchange_model.specs.Table.{message_of};
ghost use Rattle.message_laws.specs.Readable.{IsShort};
ghost use Rattle.submitted_laws.specs.Answered.{IsAnswerTo};
ghost use Rattle.submitted_laws.specs.Door.{IsSubmittedAtDoor};
ghost use Rattle.submitted_laws.specs.Submitted.{IsShortlySubmitted, IsReceiptFor, IsErrorSignalFor, IsPullRequest, IsPairFor, IsReadBack};

use as4_values::Message;
use message_laws::{answer_is_the_message, message_is_read_again};

/// The user message of a submission has an envelope that is short enough for a document, and its part infos pair with
/// its payloads.
pub fn a_submission_is_short()
    ensures short { (s : Submission) → IsShortlySubmitted s → IsShort (message_of s) }
    ensures paired { (s : Submission) → ArePaired (message_of s) }
{}

/// The envelopes of the signals about it are short enough: its receipt, which holds a copy of the header (AS4 Profile,
/// section 5.1.8), an error signal, any answer to its user message, and the receipt bundled with a pull request (ebMS
/// 3.0 Core, section 5.2.1). So is that of a pull request alone.
pub fn its_signals_are_short()
    ensures receipt { (s : Submission) (m : MessageValue) → IsShortlySubmitted s → IsReceiptFor s m → IsShort m }
    ensures error_signal { (s : Submission) (m : MessageValue) → IsShortlySubmitted s → IsErrorSignalFor s m → IsShort m }
    ensures answer { (s : Submission) (m : MessageValue) → IsShortlySubmitted s → IsAnswerTo s m → IsShort m }
    ensures pair { (s : Submission) (m : MessageValue) → IsShortlySubmitted s → IsPairFor s m → IsShort m }
    ensures pull_request { (m : MessageValue) → IsPullRequest m → IsShort m }
{}

/// What is written of a submission's user message is read back as that message.
pub fn a_submission_is_read_again(message: &Message)
    ensures { (s : Submission) → IsShortlySubmitted s → message.now ≡ message_of s → IsReadBack message.now }
{
    short_is_read_again(message);
}

/// What is written of its receipt is read back as that receipt.
pub fn its_receipt_is_read_again(message: &Message)
    ensures { (s : Submission) → IsShortlySubmitted s → IsReceiptFor s message.now → IsReadBack message.now }
{
    short_is_read_again(message);
}

/// What is written of an error signal about it is read back as that signal.
pub fn its_error_signal_is_read_again(message: &Message)
    ensures { (s : Submission) → IsShortlySubmitted s → IsErrorSignalFor s message.now → IsReadBack message.now }
{
    short_is_read_again(message);
}

/// What is written of the answer to its user message is read back as that answer.
pub fn its_answer_is_read_again(message: &Message)
    ensures { (s : Submission) → IsShortlySubmitted s → IsAnswerTo s message.now → IsReadBack message.now }
{
    short_is_read_again(message);
}

/// What is written of its receipt and a pull request is read back as that pair.
pub fn their_pair_is_read_again(message: &Message)
    ensures { (s : Submission) → IsShortlySubmitted s → IsPairFor s message.now → IsReadBack message.now }
{
    short_is_read_again(message);
}

/// What is written of a pull request is read back as that request.
pub fn a_pull_request_is_read_again(message: &Message)
    ensures { IsPullRequest message.now → IsReadBack message.now }
{
    short_is_read_again(message);
}

/// What a step submits for a request at the local door has a short conversation.
pub fn the_local_door_submits_shortly()
    ensures { (s : Submission) → IsSubmittedAtDoor s → IsShortlySubmitted s }
{}

/// The limit of a conversation can't be left out: 43,691 quotation marks, which a text may have, are too long.
pub fn a_long_conversation_is_too_long()
    ensures { (s : Submission) (n : ℕ) → 43691 ≤ n → s.header.conversation ≡ Some (replicate n 34) → ¬ IsShort (message_of s) }
{}

/// The laws of `message_laws`, of a message whose envelope is short enough and whose part infos pair with its payloads.
fn short_is_read_again(message: &Message)
    ensures { IsShort message.now → ArePaired message.now → IsReadBack message.now }
{
    message_is_read_again(message);
    answer_is_the_message(message);
}
