//! A message that is read may come.

ghost use Rattle.std.specs.Prelude.{ℕ, ◌≤◌, List, Ok, IsTrue, length};
ghost use Rattle.as4_http.specs.Limits.{the_limits};
ghost use Rattle.as4_message.specs.Meaning.{ReceivedValue, Means, IsMessage};
ghost use Rattle.as4_values.specs.declared.message.Message.{Message};
ghost use Rattle.exchange_model.specs.Coming.{may_come};
ghost use Rattle.exchange_model.specs.declared.what.What.TheVariants.{Came};

/// An endpoint can take each message that is read from a body within the limit of an HTTP body: the references of a
/// user message pair with its payloads, and an effect has room for its delivery.
pub fn a_read_message_may_come()
    ensures { (media body : List ℕ) (received : ReceivedValue) (message : Message) → length body ≤ the_limits.body
        → Means media body (Ok received) → IsMessage received message → IsTrue (may_come (Came message)) }
{}
