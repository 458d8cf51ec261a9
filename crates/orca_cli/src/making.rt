//! The run of a program that is made of a number.

ghost use Rattle.std.specs.Prelude.{◌≡◌, ◌<◌, ◌≤◌, ℕ, List, IfNone, IfSome, Option, Some, length};
ghost use Rattle.command_line.specs.Asked.{IsMakeWithin};
ghost use Rattle.command_files.specs.Sources.{Word};
ghost use Rattle.command_files.specs.Stopped.{StoppedAt};
ghost use Rattle.command_output.specs.Printed.{HasStopped};
ghost use Rattle.orca_io.specs.Causes.{Rose};
ghost use Rattle.orca_io.specs.Files.{File};
ghost use Rattle.orca_io.specs.Reading.{FileRead};
ghost use Rattle.orca_answers.specs.Choosing.{chooser_of};
ghost use Rattle.orca_answers.specs.Endings.{IsAnswer};
ghost use Rattle.orca_answers.specs.Job.{deed_in, makes};
ghost use Rattle.orca_cli.specs.Headline.{AreUntouched, IsRunOf, wires_of};

use crate::kept::{Ended, unkept};
use crate::printing::Printing;
use crate::top::{run_program, settings_of};
use command_line::MakeOptions;
use command_output::{NO_MEMORY, WRITE_FAULT};
use make_command::{MakeJob, job_of};
use orca_answers::{made_machine, made_program};
use orca_io::Sink;
use replica_choice::Policy;
use std::alloc::Global;
use wires::Wire;

/// Runs the program that is made of a number, over wires of which the first is loaded with the script of losses, and prints its summary, or
/// the line of how it ended (docs/FORMATS.md, The generated program). Where nothing is kept memory lacked: no number's program is refused.
pub fn run_made<K: Sink, W: Wire, P: Policy>(
    alloc: Global,
    options: MakeOptions,
    number: u64,
    out: &mut K,
    wires: &mut [W],
    policy: &mut P,
) -> Ended
    requires options { IsMakeWithin options }
    requires wires { (1 ≤ length wires.old) × (length wires.old ≤ 1000) }
    ensures refused { (words : List Word) (told : Option (List File)) (before now : ℕ) (reads : List FileRead) →
        deed_in words ≡ Some (makes options number) →
        IfNone result.kept (IsAnswer (chooser_of P.rule P.told policy.old) words told reads reads (StoppedAt before now reads reads)
        (K.told out.old) (K.told out.new) result.status (P.told policy.new)) }
    ensures kept { (words : List Word) (told : Option (List File)) (reads : List FileRead) → deed_in words ≡ Some (makes options number) →
        IfSome result.kept (λ k. IsRunOf (chooser_of P.rule P.told policy.old) words told reads reads
        k result.status (K.told out.old) (K.told out.new)
        (wires_of W.told W.rule W.loaded wires.old) (wires_of W.told W.rule W.loaded wires.new) (P.told policy.new)) }
    ensures untouched { (words : List Word) (told : Option (List File)) (reads : List FileRead) →
        deed_in words ≡ Some (makes options number) →
        IfNone result.kept (AreUntouched (chooser_of P.rule P.told policy.old) words told reads reads result.status
        (wires_of W.told W.rule W.loaded wires.old) (wires_of W.told W.rule W.loaded wires.new) (P.told policy.new)) }
    ensures same_rule { P.rule policy.new ≡ P.rule policy.old }
    ensures later { K.faults out.old ≤ K.faults out.new }
    ensures failed { result.status ≡ WRITE_FAULT → Rose (K.faults out.old) (K.faults out.new) }
    ensures stopped { K.faults out.old < K.faults out.new → HasStopped result.status }
{
    let job = match job_of(alloc, options, number) {
        Ok(job) => job,
        Err(_) => return unkept(NO_MEMORY),
    };
    let MakeJob {
        source,
        script,
        options: running,
    } = job;
    let program = match made_program(alloc, &source) {
        Ok(program) => program,
        Err(_) => return unkept(NO_MEMORY),
    };
    let machine = match made_machine(alloc, &program) {
        Ok(machine) => machine,
        Err(_) => return unkept(NO_MEMORY),
    };
    let settings = match settings_of(alloc, &machine, running, wires, policy) {
        Ok(settings) => settings,
        Err(_) => return unkept(NO_MEMORY),
    };
    run_program(
        alloc,
        &machine,
        running,
        Printing::Summary { number },
        settings,
        &script,
        out,
        wires,
    )
}
