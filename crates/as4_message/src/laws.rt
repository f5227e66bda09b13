//! Laws of the meaning of media texts and bodies.
ghost use Rattle.std.specs.Prelude.{◌≡◌, ℕ, List, Result};
ghost use Rattle.as4_message.specs.Meaning.{ReceivedValue, Means};
ghost use Rattle.as4_message.specs.declared.received.Refusal.{Refusal};

/// A media text and a body have at most one meaning.
pub fn one_meaning()
    ensures { (media body : List ℕ) (one other : Result ReceivedValue Refusal) → Means media body one → Means media body other → one ≡ other }
{}

/// They have at least one: they are a message, or a code refuses them.
pub fn each_has_a_meaning()
    ensures { (media body : List ℕ) → ¬ ((meant : Result ReceivedValue Refusal) → ¬ Means media body meant) }
{}
