//! The ends of a run of the program.
//!
//!      0  success                  7  not a user message
//!      1  refused, see the output  8  modes refused
//!      2  line N                   9  host fault
//!      3  read fault              10  not a journal at N
//!      4  write fault             11  input too long
//!      5  no memory               12  bad response
//!      6  more than 100000 events 14  not relayed, see the errors
//!                                 64  bad words
ghost use Rattle.std.specs.Prelude.{◌≡◌, ◌≤◌, ◌++◌, codes};
ghost use Rattle.std.specs.Fmt.{decimal};
ghost use Rattle.as4_tool.specs.Status.{Tells, text_of_refusal};

use as4_flow::{SendFailed, Sink, send_all};
use auditor::AuditEnd;
use clients::{CollectEnd, SubmitEnd};
use conformance::SuiteEnd;
use drill::DrillEnd;
use handler::HandlerEnd;
use itoa::Buffer;
use relayer::{RelayRefusal, RelayerEnd};

/// The end of a run.
#[derive(Clone, Copy, Debug, PartialEq, Eq)]
pub enum Status {
    Done,
    /// The checked message is refused, and the output names the error. Or a handler has refused a request. Or a record of
    /// the audited journal isn't right, or a row of the suite isn't as wanted, and the output names it.
    Refused,
    /// This line of the script (the first is 1) isn't a valid line, or isn't allowed at its place. The replies to the
    /// lines before it were written.
    WrongLine { number: u64 },
    /// The input failed, or a response couldn't be read. Nothing was written, except the replies to a script's lines
    /// before the fault, and the lines of what was collected.
    ReadFault,
    /// The output failed, and only a prefix of the text was written. Or a request wasn't sent whole.
    WriteFault,
    /// Out of memory. Nothing was written, except the replies to a script's earlier lines, and the lines of what was
    /// collected.
    NoMemory,
    /// The next line would make event 100,001. Nothing was written, except the replies to a script's earlier lines.
    TooManyEvents,
    /// The message to be answered is a signal or a pair. Nothing was written.
    NotUser,
    /// The file of the modes isn't one, or is missing or too long.
    ModesRefused,
    /// The machine failed: a file, a connection or the journal.
    HostFault,
    /// The files of the journal aren't one from this byte on.
    NotJournal { at: u64 },
    /// The input is longer than the limit. Nothing was written.
    TooLong,
    /// What came ended inside a response, is none, or is over a limit.
    BadResponse,
    /// The next message isn't relayed. The lines of the messages before it were written.
    NotRelayed(RelayRefusal),
    /// The words name no command. Nothing was read or written.
    BadWords,
}

impl Status {
    ghost use Rattle.as4_tool.specs.Status.{code_of, line_of, status_of, status_of_submission, status_of_collection, status_of_handler, status_of_audit, status_of_relaying, status_of_suite};

    /// The status of a drill's end.
    pub fn of_drill(end: DrillEnd) -> Status
        ensures { result ≡ status_of end }
    {
        match end {
            DrillEnd::Read => Status::Done,
            DrillEnd::Line { number } => Status::WrongLine { number },
            DrillEnd::TooMany => Status::TooManyEvents,
            DrillEnd::ReadFault => Status::ReadFault,
            DrillEnd::WriteFault => Status::WriteFault,
            DrillEnd::NoMemory => Status::NoMemory,
        }
    }

    /// The status of a submission's end, except for the text of the response.
    pub fn of_submission(end: &SubmitEnd) -> Status
        ensures { result ≡ status_of_submission end.now }
    {
        match end {
            SubmitEnd::Accepted(_) => Status::Done,
            SubmitEnd::Refused { .. } => Status::Refused,
            SubmitEnd::BadResponse => Status::BadResponse,
            SubmitEnd::LinkFault => Status::HostFault,
            SubmitEnd::WriteFault => Status::WriteFault,
            SubmitEnd::ReadFault => Status::ReadFault,
            SubmitEnd::NoMemory => Status::NoMemory,
        }
    }

    /// The status of a collection's end.
    pub fn of_collection(end: CollectEnd) -> Status
        ensures { result ≡ status_of_collection end }
    {
        match end {
            CollectEnd::Done | CollectEnd::NoEntry => Status::Done,
            CollectEnd::Refused { .. } => Status::Refused,
            CollectEnd::BadResponse => Status::BadResponse,
            CollectEnd::LinkFault | CollectEnd::FileFault => Status::HostFault,
            CollectEnd::WriteFault | CollectEnd::OutputFault => Status::WriteFault,
            CollectEnd::ReadFault => Status::ReadFault,
            CollectEnd::NoMemory => Status::NoMemory,
        }
    }

    /// The status of a handler's end.
    pub fn of_handler(end: HandlerEnd) -> Status
        ensures { result ≡ status_of_handler end }
    {
        match end {
            HandlerEnd::Served => Status::Done,
            HandlerEnd::NoMemory => Status::NoMemory,
            HandlerEnd::HostFault => Status::HostFault,
            HandlerEnd::ModesRefused => Status::ModesRefused,
            HandlerEnd::NotJournal { at } => Status::NotJournal { at },
        }
    }

    /// The status of an audit's end.
    pub fn of_audit(end: AuditEnd) -> Status
        ensures { result ≡ status_of_audit end }
    {
        match end {
            AuditEnd::Yes => Status::Done,
            AuditEnd::No => Status::Refused,
            AuditEnd::NoMemory => Status::NoMemory,
            AuditEnd::WriteFault => Status::WriteFault,
            AuditEnd::ModesRefused => Status::ModesRefused,
            AuditEnd::HostFault => Status::HostFault,
            AuditEnd::NotJournal { at } => Status::NotJournal { at },
            AuditEnd::TooLong => Status::TooLong,
        }
    }

    /// The status of a relaying's end.
    pub fn of_relaying(end: RelayerEnd) -> Status
        ensures { result ≡ status_of_relaying end }
    {
        match end {
            RelayerEnd::Done => Status::Done,
            RelayerEnd::Refused(refusal) => Status::NotRelayed(refusal),
            RelayerEnd::NoMemory => Status::NoMemory,
            RelayerEnd::WriteFault => Status::WriteFault,
            RelayerEnd::ModesRefused => Status::ModesRefused,
            RelayerEnd::HostFault => Status::HostFault,
            RelayerEnd::NotJournal { at } => Status::NotJournal { at },
        }
    }

    /// The status of the end of a suite.
    pub fn of_suite(end: SuiteEnd) -> Status
        ensures { result ≡ status_of_suite end }
    {
        match end {
            SuiteEnd::Done => Status::Done,
            SuiteEnd::WriteFault => Status::WriteFault,
            SuiteEnd::NoMemory => Status::NoMemory,
        }
    }

    /// The exit status of the program.
    pub fn code(self) -> u8
        ensures { result ≡ code_of self }
    {
        match self {
            Status::Done => 0,
            Status::Refused => 1,
            Status::WrongLine { .. } => 2,
            Status::ReadFault => 3,
            Status::WriteFault => 4,
            Status::NoMemory => 5,
            Status::TooManyEvents => 6,
            Status::NotUser => 7,
            Status::ModesRefused => 8,
            Status::HostFault => 9,
            Status::NotJournal { .. } => 10,
            Status::TooLong => 11,
            Status::BadResponse => 12,
            Status::NotRelayed(_) => 14,
            Status::BadWords => 64,
        }
    }

    /// Reports the end on the errors, in one line. A success needs no line, nor does a refusal, which the output
    /// reports. Doesn't allocate.
    pub fn tell<E: Sink>(self, errors: &mut E)
        ensures told { Tells (line_of self) (E.taken errors.old) (E.taken errors.new) (E.faults errors.old) (E.faults errors.new) }
        ensures counted { E.faults errors.old ≤ E.faults errors.new }
    {
        match self {
            Status::Done | Status::Refused => tell_text(errors, b""),
            Status::WrongLine { number } => tell_number(errors, b"line ", number),
            Status::ReadFault => tell_text(errors, b"read fault\n"),
            Status::WriteFault => tell_text(errors, b"write fault\n"),
            Status::NoMemory => tell_text(errors, b"no memory\n"),
            Status::TooManyEvents => tell_text(errors, b"more than 100000 events\n"),
            Status::NotUser => tell_text(errors, b"not a user message\n"),
            Status::ModesRefused => tell_text(errors, b"modes refused\n"),
            Status::HostFault => tell_text(errors, b"host fault\n"),
            Status::NotJournal { at } => tell_number(errors, b"not a journal at ", at),
            Status::TooLong => tell_text(errors, b"input too long\n"),
            Status::BadResponse => tell_text(errors, b"bad response\n"),
            Status::NotRelayed(refusal) => tell_text(errors, text_of_refusal(refusal)),
            Status::BadWords => tell_text(errors, b"bad words\n"),
        }
    }
}

// The line of a message that isn't relayed.
fn text_of_refusal(refusal: RelayRefusal) -> &'static [u8]
    ensures { result.now ≡ text_of_refusal refusal }
{
    match refusal {
        RelayRefusal::NoMode => b"no mode\n",
        RelayRefusal::Gone => b"gone\n",
        RelayRefusal::OutboxFull => b"outbox full\n",
        RelayRefusal::TooLarge => b"too large\n",
        RelayRefusal::JournalFull => b"journal full\n",
    }
}

// Reports a line that ends in a number. If the errors fail, there is nowhere left to report that.
fn tell_number<E: Sink>(errors: &mut E, words: &[u8], number: u64)
    ensures told { Tells (words.now ++ (decimal number ++ codes "\n")) (E.taken errors.old) (E.taken errors.new)
        (E.faults errors.old) (E.faults errors.new) }
    ensures counted { E.faults errors.old ≤ E.faults errors.new }
{
    let _ = send_line(errors, words, number);
}

// Sends the parts of the line.
fn send_line<E: Sink>(errors: &mut E, words: &[u8], number: u64) -> Result<(), SendFailed>
    ensures told { Tells (words.now ++ (decimal number ++ codes "\n")) (E.taken errors.old) (E.taken errors.new)
        (E.faults errors.old) (E.faults errors.new) }
    ensures counted { E.faults errors.old ≤ E.faults errors.new }
{
    let mut buffer = Buffer::new();
    send_all(errors, words)?;
    send_all(errors, buffer.format(number).as_bytes())?;
    send_all(errors, b"\n")
}

// Reports this text. If the errors fail, there is nowhere left to report that.
fn tell_text<E: Sink>(errors: &mut E, text: &[u8])
    ensures told { Tells text.now (E.taken errors.old) (E.taken errors.new) (E.faults errors.old) (E.faults errors.new) }
    ensures counted { E.faults errors.old ≤ E.faults errors.new }
{
    let _ = send_all(errors, text);
}
