//! A message is read as itself, and so is the answer to it.

ghost use Rattle.std.specs.Prelude.{◌≡◌, ℕ, List};
ghost use Rattle.answer_laws.specs.ReadBack.{IsAnswer, IsReadAsItself};
ghost use Rattle.as4_message.specs.Meaning.{ArePaired};
ghost use Rattle.exchange_model.specs.Apply.{applied};
ghost use Rattle.exchange_model.specs.End.{End, empty_end};
ghost use Rattle.exchange_model.specs.Table.{Step};
ghost use Rattle.exchange_model.specs.declared.event.Event.{Event};
ghost use Rattle.exchange_model.specs.declared.outcome.Outcome.{Outcome};
ghost use Rattle.exchange_model.specs.declared.what.What.TheVariants.{Came};
ghost use Rattle.mode_values.specs.declared.mode.Mode.{Mode as ModeValue};
ghost use Rattle.msh_recovery.specs.Records.{RecordsLead};

use as4_values::Message;
use unit_laws::Again;

/// Whatever message is read of what is written of this one is this one, if its part infos pair with its payloads. It
/// may be refused, if its envelope is longer than a document may be.
pub fn a_message_is_read_as_itself(message: &Message)
    ensures { ArePaired message.now → IsReadAsItself message.now }
{
    match message {
        Message::User { header, .. } => header.show(),
        Message::Signal(signal) => signal.show(),
        Message::Pair(pair) => {
            pair.receipt.show();
            pair.pull.show();
        }
    }
}

/// What an endpoint answers the message with is read as itself: a receipt, an error signal, or the user message of a
/// submission. The records of a journal lead to the endpoint after the step.
pub fn its_answer_is_read_as_itself(message: &Message)
    ensures { (modes : List ModeValue) (end : End) (event : Event) (outcome : Outcome) (bodies : List (List ℕ))
        → Step modes end event outcome → event.what ≡ Came message.now
        → RecordsLead bodies empty_end (applied outcome.effects end) → IsAnswer outcome.reply }
{
    match message {
        Message::User { header, .. } => {
            header.show();
            header.id.show();
        }
        Message::Signal(signal) => signal.id.show(),
        Message::Pair(pair) => {
            pair.receipt.id.show();
            pair.pull.id.show();
        }
    }
}
