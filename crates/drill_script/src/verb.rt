//! The first word of a line.
ghost use Rattle.std.specs.Prelude.{◌≡◌, Some, IfSome};

/// The verbs of the lines that can be stopped.
#[derive(Clone, Copy, Debug, PartialEq, Eq)]
pub(crate) enum RunVerb {
    Submit,
    Tick,
    Take,
    Came,
    Confirm,
}

/// The verbs that are followed by an endpoint and a number, of lines that can't be stopped.
#[derive(Clone, Copy, Debug, PartialEq, Eq)]
pub(crate) enum Counted {
    Read,
    Status,
}

/// The kind of a line.
#[derive(Clone, Copy, Debug, PartialEq, Eq)]
pub(crate) enum Verb {
    Mode,
    Run(RunVerb),
    Ask,
    Relay,
    Pair,
    Lost,
    Count(Counted),
    Crash,
    Stop,
    Fold,
}

ghost use Rattle.drill_script.specs.LineParts.{verb_text, run_verb_text, counted_text};

/// Reads the first word of a line.
pub(crate) fn read_verb(word: &[u8]) -> Option<Verb>
    ensures found { IfSome result (λ verb. word.now ≡ verb_text verb) }
    ensures only { (verb : Verb) → word.now ≡ verb_text verb → result ≡ Some verb }
{
    if let Some(verb) = read_run_verb(word) {
        return Some(Verb::Run(verb));
    }
    if let Some(counted) = read_counted(word) {
        return Some(Verb::Count(counted));
    }
    if word == b"mode".as_slice() {
        return Some(Verb::Mode);
    }
    if word == b"ask".as_slice() {
        return Some(Verb::Ask);
    }
    if word == b"relay".as_slice() {
        return Some(Verb::Relay);
    }
    if word == b"pair".as_slice() {
        return Some(Verb::Pair);
    }
    if word == b"lost".as_slice() {
        return Some(Verb::Lost);
    }
    if word == b"crash".as_slice() {
        return Some(Verb::Crash);
    }
    if word == b"stop".as_slice() {
        return Some(Verb::Stop);
    }
    if word == b"fold".as_slice() {
        return Some(Verb::Fold);
    }
    None
}

/// Reads the first word of a line that can be stopped.
pub(crate) fn read_run_verb(word: &[u8]) -> Option<RunVerb>
    ensures found { IfSome result (λ verb. word.now ≡ run_verb_text verb) }
    ensures only { (verb : RunVerb) → word.now ≡ run_verb_text verb → result ≡ Some verb }
{
    if word == b"submit".as_slice() {
        return Some(RunVerb::Submit);
    }
    if word == b"tick".as_slice() {
        return Some(RunVerb::Tick);
    }
    if word == b"take".as_slice() {
        return Some(RunVerb::Take);
    }
    if word == b"came".as_slice() {
        return Some(RunVerb::Came);
    }
    if word == b"confirm".as_slice() {
        return Some(RunVerb::Confirm);
    }
    None
}

// Reads another verb that is followed by an endpoint and a number.
fn read_counted(word: &[u8]) -> Option<Counted>
    ensures found { IfSome result (λ counted. word.now ≡ counted_text counted) }
    ensures only { (counted : Counted) → word.now ≡ counted_text counted → result ≡ Some counted }
{
    if word == b"read".as_slice() {
        return Some(Counted::Read);
    }
    if word == b"status".as_slice() {
        return Some(Counted::Status);
    }
    None
}
