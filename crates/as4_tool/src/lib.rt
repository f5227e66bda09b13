//! The program `as4` for any source, sinks and host: its words, its statuses and its run.
#![tactic(auto)]

mod answering;
mod answers;
mod auditing;
mod checking;
mod collecting;
mod command;
mod drawing;
mod drilling;
mod laws;
mod limit;
mod numbers;
mod parser;
mod relaying;
mod running;
mod services;
mod serving;
mod status;
mod submitting;
mod suites;
mod texts;
mod values;
mod writing;

pub use command::{
    Collection, Command, DrillKind, Journal, MAX_COUNT, Relaying, Service, Submission, Suite,
    WordsRefusal, command_of, one_spelling, texts_of,
};
pub use laws::{a_signal_has_no_answer, one_answer, one_line};
pub use limit::LIMIT;
pub use running::run_alone;
pub use serving::run;
pub use status::Status;
pub use texts::{HELP, VERSION};
