//! Plans of events.

ghost use Rattle.std.specs.Prelude.{◌≡◌};
ghost use Rattle.msh_core.specs.Machine.{IsReady, Machine, filled, filled_reply};

use as4_effects::{Effect, Queue};
use as4_values::{Payload, Seq};
use exchange_model::{Outcome, Reply};
use std::marker::Model;

/// What an endpoint is about to do: all memory for it is taken. Only `Core::prepare` makes one.
#[derive(Drop)]
pub struct Plan {
    outcome: Outcome,
    queues: Seq<Queue>,
}

impl Model for Plan {
    ghost use Rattle.msh_core.specs.Machine.{Planned};

    ghost Value = { Planned };

    ghost view = { λ plan. record { outcome = plan.outcome; queues = plan.queues } };
}

impl Plan {
    /// The outcome, with the queue in which each effect moves a submission.
    pub(crate) fn of(outcome: Outcome, queues: Seq<Queue>) -> Plan
        ensures { result ≡ record { outcome = outcome; queues = queues } }
    {
        Plan { outcome, queues }
    }

    pub fn reply(&self) -> &Reply
        ensures { result.now ≡ self.now.outcome.reply }
    {
        &self.outcome.reply
    }

    pub fn effects(&self) -> &Seq<Effect>
        ensures { result.now ≡ self.now.outcome.effects }
    {
        &self.outcome.effects
    }

    /// The plan with these payloads of the message that it reads. A plan with another reply stays as it is. Takes no
    /// memory.
    pub fn filled(self, payloads: Seq<Payload>) -> Plan
        ensures value { result ≡ record self { outcome = filled payloads self.outcome } }
        ensures ready { (machine : Machine) → IsReady machine self → IsReady machine result }
    {
        let (effects, queues, reply) = self.into_parts();
        let reply = filled_reply(reply, payloads);
        Plan::of(Outcome { effects, reply }, queues)
    }

    /// The plan with another reply. Takes no memory.
    pub fn replying(self, reply: Reply) -> Plan
        ensures { result ≡ record self { outcome = record self.outcome { reply = reply } } }
    {
        let (effects, queues, before) = self.into_parts();
        drop(before);
        Plan::of(Outcome { effects, reply }, queues)
    }

    /// Takes the plan apart.
    pub(crate) fn into_parts(self) -> (Seq<Effect>, Seq<Queue>, Reply)
        ensures effects { result.0 ≡ self.outcome.effects }
        ensures queues { result.1 ≡ self.queues }
        ensures reply { result.2 ≡ self.outcome.reply }
    {
        let Plan { outcome, queues } = self;
        let Outcome { effects, reply } = outcome;
        (effects, queues, reply)
    }
}

/// The reply, with these payloads if it is a message that was read.
fn filled_reply(reply: Reply, payloads: Seq<Payload>) -> Reply
    ensures { result ≡ filled_reply payloads reply }
{
    match reply {
        Reply::Entry {
            header,
            payloads: others,
        } => {
            drop(others);
            Reply::Entry { header, payloads }
        }
        other => {
            drop(payloads);
            other
        }
    }
}
