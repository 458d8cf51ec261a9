//! What `make` runs.

ghost use Rattle.std.specs.Prelude.{◌≡◌, IfOk};
ghost use Rattle.command_line.specs.Asked.{IsMakeWithin, IsRunWithin};
ghost use Rattle.orca_front.specs.Sources.{file_of};
ghost use Rattle.generated_program.specs.Program.{program_file};
ghost use Rattle.make_command.specs.Losses.{losses};
ghost use Rattle.make_command.specs.Runs.{run_options};

use crate::script::losses;
use command_line::{MakeOptions, RunOptions};
use fault_scripts::Script;
use generated_program::program_source;
use orca_base::NoMemory;
use orca_front::SourceFile;
use std::alloc::Global;

// The turns that each process may take, and the events that the run may have: those of a `run` whose words name none.
const USUAL_TURNS: u64 = 1_000_000;

const USUAL_EVENTS: u64 = 1_000_000;

/// What is run: a program, over the wire that a script tells, by these options.
#[derive(Drop)]
pub struct MakeJob {
    pub source: SourceFile<'static>,
    pub script: Script,
    pub options: RunOptions,
}

/// The options of the run that `make` is (docs/FORMATS.md, The generated program).
pub fn run_options(options: MakeOptions) -> RunOptions
    requires { IsMakeWithin options }
    ensures is { result ≡ run_options options }
    ensures within { IsRunWithin result }
{
    RunOptions {
        group: options.group,
        workers: options.workers,
        turns: USUAL_TURNS,
        events: USUAL_EVENTS,
        history: false,
        explain: false,
    }
}

/// What `make` runs, by its options and its number: the generated program, the script of losses, and the options of the run.
pub fn job_of(alloc: Global, options: MakeOptions, number: u64) -> Result<MakeJob, NoMemory>
    requires { IsMakeWithin options }
    ensures source { IfOk result (λ job. file_of job.source ≡ program_file number) }
    ensures script { IfOk result (λ job. job.script ≡ losses options.lose) }
    ensures options { IfOk result (λ job. job.options ≡ run_options options) }
    ensures within { IfOk result (λ job. IsRunWithin job.options) }
{
    let source = program_source(alloc, number)?;
    let script = losses(alloc, options.lose)?;
    let options = run_options(options);
    Ok(MakeJob {
        source,
        script,
        options,
    })
}
