//! The commands as `clap` has them.

ghost use Rattle.std.specs.Prelude.{◌≡◌, IfOk};
ghost use Rattle.clap.specs.Words.{app_of, with_rule};
ghost use Rattle.command_line.specs.Rules as rules;

use crate::request::CommandName;
use clap::{Arg, ArgAction, Command};
use std::alloc::{AllocError, Global};

// Adds an option of this name, which takes a value.
fn named<'a>(alloc: Global, command: Command<'a>, name: &'a str) -> Result<Command<'a>, AllocError>
    ensures { IfOk result (λ c. app_of c ≡ with_rule (app_of command.entry) (rules.named name.entry.now)) }
{
    let option = Arg::new(alloc, name).long(name);
    command.arg(option)
}

// Adds an option of this name with the value that it has where it isn't used.
fn defaulted<'a>(
    alloc: Global,
    command: Command<'a>,
    name: &'a str,
    value: &'a str,
) -> Result<Command<'a>, AllocError>
    ensures { IfOk result (λ c. app_of c ≡ with_rule (app_of command.entry) (rules.defaulted name.entry.now value.entry.now)) }
{
    let option = Arg::new(alloc, name).long(name).default_value(value);
    command.arg(option)
}

// Adds an option of this name, which takes no value.
fn flag<'a>(alloc: Global, command: Command<'a>, name: &'a str) -> Result<Command<'a>, AllocError>
    ensures { IfOk result (λ c. app_of c ≡ with_rule (app_of command.entry) (rules.flag name.entry.now)) }
{
    let option = Arg::new(alloc, name).long(name).action(ArgAction::SetTrue);
    command.arg(option)
}

// Adds a word that must be there.
fn needed<'a>(alloc: Global, command: Command<'a>, id: &'a str) -> Result<Command<'a>, AllocError>
    ensures { IfOk result (λ c. app_of c ≡ with_rule (app_of command.entry) (rules.needed id.entry.now)) }
{
    let word = Arg::new(alloc, id).required(true);
    command.arg(word)
}

// Adds the files, one or more.
fn files<'a>(alloc: Global, command: Command<'a>) -> Result<Command<'a>, AllocError>
    ensures { IfOk result (λ c. app_of c ≡ with_rule (app_of command.entry) rules.files) }
{
    let files = Arg::new(alloc, "file")
        .required(true)
        .action(ArgAction::Append);
    command.arg(files)
}

// Adds the options of a group.
fn group<'a>(alloc: Global, command: Command<'a>) -> Result<Command<'a>, AllocError>
    ensures { IfOk result (λ c. app_of c ≡ rules.with_rules (app_of command.entry) rules.group) }
{
    let command = defaulted(alloc, command, "nodes", "3")?;
    let command = defaulted(alloc, command, "resilience", "0")?;
    Ok(command)
}

// Adds the options of a run: its workers and what it may use up.
fn budgets<'a>(alloc: Global, command: Command<'a>) -> Result<Command<'a>, AllocError>
    ensures { IfOk result (λ c. app_of c ≡ rules.with_rules (app_of command.entry) rules.budgets) }
{
    let command = defaulted(alloc, command, "workers", "4")?;
    let command = defaulted(alloc, command, "turns", "1000000")?;
    let command = defaulted(alloc, command, "events", "1000000")?;
    Ok(command)
}

// The options of `run`.
#[tactic(auto, unfolding(crate::specs::Rules::app))]
fn run<'a>(alloc: Global) -> Result<Command<'a>, AllocError>
    ensures { IfOk result (λ c. app_of c ≡ rules.app CommandName.Run) }
{
    let command = group(alloc, Command::new(alloc, "run"))?;
    let command = budgets(alloc, command)?;
    let command = named(alloc, command, "script")?;
    let command = flag(alloc, command, "history")?;
    let command = flag(alloc, command, "explain")?;
    files(alloc, command)
}

// The options of `make`.
#[tactic(auto, unfolding(crate::specs::Rules::app))]
fn make<'a>(alloc: Global) -> Result<Command<'a>, AllocError>
    ensures { IfOk result (λ c. app_of c ≡ rules.app CommandName.Make) }
{
    let command = group(alloc, Command::new(alloc, "make"))?;
    let command = defaulted(alloc, command, "workers", "4")?;
    let command = defaulted(alloc, command, "lose", "0")?;
    let command = flag(alloc, command, "source")?;
    needed(alloc, command, "number")
}

// The options of `join`.
#[tactic(auto, unfolding(crate::specs::Rules::app))]
fn join<'a>(alloc: Global) -> Result<Command<'a>, AllocError>
    ensures { IfOk result (λ c. app_of c ≡ rules.app CommandName.Join) }
{
    let command = group(alloc, Command::new(alloc, "join"))?;
    let command = defaulted(alloc, command, "at", "0")?;
    let command = named(alloc, command, "script")?;
    files(alloc, command)
}

// The options of `code`.
#[tactic(auto, unfolding(crate::specs::Rules::app))]
fn code<'a>(alloc: Global) -> Result<Command<'a>, AllocError>
    ensures { IfOk result (λ c. app_of c ≡ rules.app CommandName.Code) }
{
    let command = flag(alloc, Command::new(alloc, "code"), "source")?;
    files(alloc, command)
}

// The options of `choice`.
#[tactic(auto, unfolding(crate::specs::Rules::app))]
fn choice<'a>(alloc: Global) -> Result<Command<'a>, AllocError>
    ensures { IfOk result (λ c. app_of c ≡ rules.app CommandName.Choice) }
{
    let command = defaulted(alloc, Command::new(alloc, "choice"), "nodes", "3")?;
    files(alloc, command)
}

// The words of `replay`.
#[tactic(auto, unfolding(crate::specs::Rules::app))]
fn replay<'a>(alloc: Global) -> Result<Command<'a>, AllocError>
    ensures { IfOk result (λ c. app_of c ≡ rules.app CommandName.Replay) }
{
    let command = needed(alloc, Command::new(alloc, "replay"), "history")?;
    files(alloc, command)
}

/// The command of this name, with its arguments. It is one of those whose meaning `clap` states.
#[tactic(auto, unfolding(crate::specs::Rules::app))]
pub fn command<'a>(alloc: Global, name: CommandName) -> Result<Command<'a>, AllocError>
    ensures { IfOk result (λ c. app_of c ≡ rules.app name) }
{
    match name {
        CommandName::Check => files(alloc, Command::new(alloc, "check")),
        CommandName::Run => run(alloc),
        CommandName::Code => code(alloc),
        CommandName::Choice => choice(alloc),
        CommandName::Replay => replay(alloc),
        CommandName::Make => make(alloc),
        CommandName::Join => join(alloc),
    }
}
