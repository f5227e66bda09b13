//! A message file has one line and at most one answer.
ghost use Rattle.std.specs.Prelude.{◌≡◌, ℕ, List, Bool};
ghost use Rattle.as4_tool.specs.Answer.{IsAnswer, IsSignalFile, IsFileLine};

/// A message file has one line, and is either refused or not.
pub fn one_line()
    ensures { (file line other : List ℕ) (refused also : Bool) → IsFileLine file line refused → IsFileLine file other also
        → (line ≡ other) × (refused ≡ also) }
{}

/// A message file has at most one answer: what `answer` writes depends on nothing else.
pub fn one_answer()
    ensures { (stamp nonce : ℕ) (file answer other : List ℕ) → IsAnswer stamp nonce file answer → IsAnswer stamp nonce file other
        → answer ≡ other }
{}

/// The file of a signal has no answer.
pub fn a_signal_has_no_answer()
    ensures { (stamp nonce : ℕ) (file answer : List ℕ) → IsSignalFile file → ¬ (IsAnswer stamp nonce file answer) }
{}
