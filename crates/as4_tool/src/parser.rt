//! The program as a command of `clap`.
ghost use Rattle.std.specs.Prelude.{◌≡◌, IfOk, codes, false};
ghost use Rattle.clap.specs.Walk.{rule_of};
ghost use Rattle.clap.specs.Simple.{Shape};
ghost use Rattle.as4_tool.specs.Words.{as4, program, value, option, option_of_two, answer_command, drill_command, handler_command, submit_command, collect_command, audit_command, relay_command, suite_command, flag};
ghost use Rattle.as4_tool.specs.Adds.{AddsRule, AddsShape, IsApp, alone};

use clap::{Arg, ArgAction, Command};
use std::alloc::{AllocError, Global};

/// The program with its commands.
pub(crate) fn parser<'a>(alloc: Global) -> Result<Command<'a>, AllocError>
    ensures { IfOk result (IsApp as4) }
{
    let top = with_command(program(alloc), answer(alloc)?)?;
    let top = with_command(top, Command::new(alloc, "check"))?;
    let top = with_command(top, drill(alloc)?)?;
    let top = with_command(top, handler(alloc)?)?;
    let top = with_command(top, submit(alloc)?)?;
    let top = with_command(top, collect(alloc)?)?;
    let top = with_command(top, audit(alloc)?)?;
    let top = with_command(top, relay(alloc)?)?;
    with_command(top, suite(alloc)?)
}

// The program without its commands.
fn program<'a>(alloc: Global) -> Command<'a>
    ensures { IsApp (alone program) result }
{
    Command::new(alloc, "as4")
        .version("1.0.0")
        .no_binary_name(true)
        .subcommand_required(true)
        .disable_help_subcommand(true)
}

fn answer<'a>(alloc: Global) -> Result<Command<'a>, AllocError>
    ensures { IfOk result (IsApp (alone answer_command)) }
{
    let answer = with_value(alloc, Command::new(alloc, "answer"), "STAMP")?;
    with_value(alloc, answer, "NONCE")
}

fn drill<'a>(alloc: Global) -> Result<Command<'a>, AllocError>
    ensures { IfOk result (IsApp (alone drill_command)) }
{
    let drill = Command::new(alloc, "drill").arg(generate(alloc))?;
    let drill = with_flag(alloc, drill, "draw")?;
    with_flag(alloc, drill, "hub")
}

fn generate<'a>(alloc: Global) -> Arg<'a>
    ensures rule { rule_of result ≡ option_of_two (codes "generate") }
    ensures local { result.global ≡ false }
{
    Arg::new(alloc, "generate").long("generate").num_args(2)
}

fn handler<'a>(alloc: Global) -> Result<Command<'a>, AllocError>
    ensures { IfOk result (IsApp (alone handler_command)) }
{
    let handler = with_value(alloc, Command::new(alloc, "handler"), "MODES")?;
    let handler = with_value(alloc, handler, "JOURNAL")?;
    let handler = with_value(alloc, handler, "PEER")?;
    let handler = with_value(alloc, handler, "LOCAL")?;
    let handler = with_option(alloc, handler, "workers")?;
    let handler = with_option(alloc, handler, "turns")?;
    with_option(alloc, handler, "keep")
}

fn submit<'a>(alloc: Global) -> Result<Command<'a>, AllocError>
    ensures { IfOk result (IsApp (alone submit_command)) }
{
    let submit = with_value(alloc, Command::new(alloc, "submit"), "LOCAL")?;
    let submit = with_value(alloc, submit, "MODE")?;
    let submit = with_value(alloc, submit, "CONVERSATION")?;
    with_value(alloc, submit, "MEDIA")
}

fn collect<'a>(alloc: Global) -> Result<Command<'a>, AllocError>
    ensures { IfOk result (IsApp (alone collect_command)) }
{
    let collect = with_value(alloc, Command::new(alloc, "collect"), "LOCAL")?;
    let collect = with_value(alloc, collect, "FIRST")?;
    let collect = with_value(alloc, collect, "COUNT")?;
    with_value(alloc, collect, "FOLDER")
}

fn audit<'a>(alloc: Global) -> Result<Command<'a>, AllocError>
    ensures { IfOk result (IsApp (alone audit_command)) }
{
    let audit = with_value(alloc, Command::new(alloc, "audit"), "MODES")?;
    let audit = with_value(alloc, audit, "JOURNAL")?;
    with_flag(alloc, audit, "draw")
}

fn relay<'a>(alloc: Global) -> Result<Command<'a>, AllocError>
    ensures { IfOk result (IsApp (alone relay_command)) }
{
    let relay = with_value(alloc, Command::new(alloc, "relay"), "MODES")?;
    let relay = with_value(alloc, relay, "JOURNAL")?;
    let relay = with_value(alloc, relay, "MODE")?;
    with_value(alloc, relay, "COUNT")
}

fn suite<'a>(alloc: Global) -> Result<Command<'a>, AllocError>
    ensures { IfOk result (IsApp (alone suite_command)) }
{
    let suite = with_flag(alloc, Command::new(alloc, "suite"), "verify")?;
    with_flag(alloc, suite, "list")
}

// Adds a value that has to be there.
fn with_value<'a>(
    alloc: Global,
    command: Command<'a>,
    id: &'a str,
) -> Result<Command<'a>, AllocError>
    ensures { IfOk result (AddsRule (value id.entry.now) command.entry) }
{
    command.arg(Arg::new(alloc, id).required(true))
}

// Adds an option with a value.
fn with_option<'a>(
    alloc: Global,
    command: Command<'a>,
    name: &'a str,
) -> Result<Command<'a>, AllocError>
    ensures { IfOk result (AddsRule (option name.entry.now) command.entry) }
{
    command.arg(Arg::new(alloc, name).long(name))
}

// Adds an option without a value.
fn with_flag<'a>(
    alloc: Global,
    command: Command<'a>,
    name: &'a str,
) -> Result<Command<'a>, AllocError>
    ensures { IfOk result (AddsRule (flag name.entry.now) command.entry) }
{
    command.arg(Arg::new(alloc, name).long(name).action(ArgAction::SetTrue))
}

// Adds a command.
fn with_command<'a>(top: Command<'a>, command: Command<'a>) -> Result<Command<'a>, AllocError>
    ensures { (shape : Shape) → IsApp (alone shape) command.entry → IfOk result (AddsShape shape top.entry) }
{
    top.subcommand(command)
}
