//! The top call.

ghost use Rattle.std.specs.Prelude.{◌≡◌, ◌⊎◌, ◌<◌, ◌≤◌, ◌++◌, List, None, IfNone, IfOk, IfSome, OnErr, OnOk, Option, Some};
ghost use Rattle.std.specs.Prelude.{length, map, option_map, string_bytes};
ghost use Rattle.command_line.specs.Asked.{IsRunWithin};
ghost use Rattle.orca_io.specs.Causes.{Rose};
ghost use Rattle.orca_io.specs.Reading.{HasAsked};
ghost use Rattle.command_files.specs.Stopped.{StoppedAt};
ghost use Rattle.meaning_rules.specs.Meanings.{computes_of, performs_of};
ghost use Rattle.program_names.specs.Naming.{HistoriesNamed};
ghost use Rattle.history_commands.specs.ReadBack.{ReadsBack};
ghost use Rattle.history_text.specs.Sound.{AreTables};
ghost use Rattle.run_loop.specs.Asked.{HaveToldOn, WereAskedIn};
ghost use Rattle.run_loop.specs.Left.{run_of};
ghost use Rattle.orca_answers.specs.Choosing.{WasAskedFirst, chooser_of};
ghost use Rattle.orca_answers.specs.Endings.{IsAnswer};
ghost use Rattle.orca_cli.specs.Headline.{AreLoaded, AreUntouched, HaveObeyed, IsProgramRun, IsRun, IsRunOf, WasBegun};
ghost use Rattle.orca_cli.specs.Headline.{settings_for, told_for, wires_of};
ghost use Rattle.command_files.specs.Sources.{Word};
ghost use Rattle.orca_answers.specs.Job.{deed_in, named_in, runs, script_names};
ghost use Rattle.orca_cli.specs.Laws.{RunLaws};
ghost use Rattle.orca_cli.specs.Made.{said};
ghost use Rattle.command_output.specs.Printed.{HasStopped};
ghost use Rattle.orca_answers.specs.Programs.{units_of};
ghost use Rattle.orca_cli.specs.Standings.{awaited_name};
ghost use Rattle.world_rules.specs.Frame.{AreSettings};

use crate::kept::{Ended, Kept, unkept};
use crate::making::run_made;
use crate::printing::Printing;
use crate::report::report;
use code_machine::CodeMachine;
use command_files::sources;
use command_line::RunOptions;
use command_output::{FINISHED, NO_MEMORY, READ_FAULT, USAGE, WRITE_FAULT, print_ending};
use fault_scripts::Script;
use history_text::{Names, lines_fit};
use orca_answers::{
    Job, check_files, choose_files, job_of, linked_program, list_program, machine_of,
    replay_history, said_refused, said_unread, said_unscripted, script_of, show_program,
    usage_line, whole,
};
use orca_base::{NoMemory, Refusal};
use orca_io::{Shelf, Sink};
use program_names::names;
use replica_choice::Policy;
use run_choices::run_settings;
use run_law::run_law;
use run_loop::{Ran, Settings, run};
use std::alloc::Global;
use wires::{Wire, have_obeyed};
use world_book::legal_book;
use world_enough::{events_are_enough, events_are_enough_with_singles};
use world_facts::{book_by_places, ends_stand, processes_stand, standings_mean, worlds_count};
use world_idle::{idle_ticks_are_counted, stretches_are_short};

/// The settings of a run with these options over these wires, with each object where the policy keeps it, which is asked where no member
/// may be lost.
pub(crate) fn settings_of<W: Wire, P: Policy>(
    alloc: Global,
    machine: &CodeMachine<'_>,
    options: RunOptions,
    wires: &[W],
    policy: &mut P,
) -> Result<Settings, NoMemory>
    requires options { IsRunWithin options }
    requires wires { (1 ≤ length wires.now) × (length wires.now ≤ 1000) }
    ensures settings { IfOk result (λ s.
        s ≡ settings_for (chooser_of P.rule P.told policy.old) (units_of machine.now) options (length wires.now)) }
    ensures ranges { IfOk result (λ s. AreSettings s) }
    ensures told { IfOk result (λ s.
        P.told policy.new ≡ told_for (chooser_of P.rule P.told policy.old) (units_of machine.now) options) }
    ensures first { OnErr result ((options.group.resilience ≡ 0) × WasAskedFirst (chooser_of P.rule P.told policy.old)
        options.group.nodes (units_of machine.now) (P.told policy.new)) }
    ensures same_rule { P.rule policy.new ≡ P.rule policy.old }
{
    run_settings(
        alloc,
        machine.tables.checked(),
        options,
        wires.len() as u16,
        policy,
    )
}

// Loads the first wire with a script.
fn load_first<W: Wire>(alloc: Global, script: &Script, wires: &mut [W]) -> Result<(), NoMemory>
    requires { 1 ≤ length wires.old }
    ensures loaded { OnOk result (AreLoaded script.now
        (wires_of W.told W.rule W.loaded wires.old) (wires_of W.told W.rule W.loaded wires.new)) }
    ensures unchanged { OnErr result
        (wires_of W.told W.rule W.loaded wires.new ≡ wires_of W.told W.rule W.loaded wires.old) }
    ensures told { map W.told wires.new ≡ map W.told wires.old }
    ensures count { length wires.new ≡ length wires.old }
{
    wires[0].load(alloc, script)
}

// What is so of each run of the program. A call of this function does nothing.
fn laws_of_runs(machine: &CodeMachine<'_>)
    ensures { RunLaws (performs_of (units_of machine.now)) (computes_of (units_of machine.now)) }
{
    book_by_places();
    ends_stand();
    events_are_enough(machine);
    events_are_enough_with_singles(machine);
    idle_ticks_are_counted();
    legal_book(machine);
    processes_stand();
    run_law(machine);
    standings_mean();
    stretches_are_short(machine);
    worlds_count();
}

// Runs a program over wires as they are loaded, and tells what came of it, the history by these names.
fn run_loaded<K: Sink, W: Wire>(
    alloc: Global,
    machine: &CodeMachine<'_>,
    names: &Names,
    options: RunOptions,
    printing: Printing,
    settings: Settings,
    out: &mut K,
    wires: &mut [W],
) -> Ended
    requires tables { AreTables names.now }
    requires named { HistoriesNamed (units_of machine.now) names.now }
    requires ranges { AreSettings settings }
    requires turns { settings.turns ≡ options.turns }
    requires wires { settings.wires ≡ length wires.old }
    ensures none { IfNone result.kept ((result.status ≡ NO_MEMORY) × (K.told out.new ≡ K.told out.old)) }
    ensures kept { IfSome result.kept (λ k. IsRun
        (run_of (performs_of (units_of machine.now)) (computes_of (units_of machine.now)) settings)
        (awaited_name names.now) (said printing options names.now) k result.status (K.told out.old) (K.told out.new)
        (map W.told wires.old) (map W.told wires.new)) }
    ensures back { IfSome result.kept (λ k.
        ReadsBack (performs_of (units_of machine.now)) (computes_of (units_of machine.now)) names.now k.book.items) }
    ensures told { HaveToldOn (map W.told wires.old) (map W.told wires.new) }
    ensures asked { WereAskedIn
        (run_of (performs_of (units_of machine.now)) (computes_of (units_of machine.now)) settings)
        (map W.told wires.old) (map W.told wires.new) }
    ensures scripts { map W.rule wires.new ≡ map W.rule wires.old }
    ensures loaded { map W.loaded wires.new ≡ map W.loaded wires.old }
    ensures later { K.faults out.old ≤ K.faults out.new }
    ensures failed { result.status ≡ WRITE_FAULT → Rose (K.faults out.old) (K.faults out.new) }
    ensures stopped { K.faults out.old < K.faults out.new → HasStopped result.status }
{
    laws_of_runs(machine);
    let ran = run(alloc, machine, settings, wires);
    let Ran { standing, end } = ran;
    let Some(end) = end else {
        return unkept(NO_MEMORY);
    };
    lines_fit(names, &end.book);
    let status = report(alloc, out, names, options, printing, standing, &end);
    Ended {
        status,
        kept: Some(Kept {
            book: end.book,
            places: end.places,
            events: end.steps,
            nodes: end.nodes,
            processes: end.processes,
        }),
    }
}

// Runs a program over wires as they are loaded, and tells what came of it, the history by the program's names.
fn run_named<K: Sink, W: Wire>(
    alloc: Global,
    machine: &CodeMachine<'_>,
    options: RunOptions,
    printing: Printing,
    settings: Settings,
    out: &mut K,
    wires: &mut [W],
) -> Ended
    requires ranges { AreSettings settings }
    requires turns { settings.turns ≡ options.turns }
    requires wires { settings.wires ≡ length wires.old }
    ensures none { IfNone result.kept ((result.status ≡ NO_MEMORY) × (K.told out.new ≡ K.told out.old)) }
    ensures kept { IfSome result.kept (λ k. IsProgramRun (units_of machine.now) (said printing options) settings k result.status
        (K.told out.old) (K.told out.new) (map W.told wires.old) (map W.told wires.new)) }
    ensures told { HaveToldOn (map W.told wires.old) (map W.told wires.new) }
    ensures asked { WereAskedIn
        (run_of (performs_of (units_of machine.now)) (computes_of (units_of machine.now)) settings)
        (map W.told wires.old) (map W.told wires.new) }
    ensures scripts { map W.rule wires.new ≡ map W.rule wires.old }
    ensures loaded { map W.loaded wires.new ≡ map W.loaded wires.old }
    ensures later { K.faults out.old ≤ K.faults out.new }
    ensures failed { result.status ≡ WRITE_FAULT → Rose (K.faults out.old) (K.faults out.new) }
    ensures stopped { K.faults out.old < K.faults out.new → HasStopped result.status }
{
    match names(alloc, machine.tables.checked()) {
        Ok(names) => run_loaded(
            alloc, machine, &names, options, printing, settings, out, wires,
        ),
        Err(_) => unkept(NO_MEMORY),
    }
}

/// Runs a program with this script, and tells what came of it. Where memory lacks for the script, the wires are as before.
pub(crate) fn run_program<K: Sink, W: Wire>(
    alloc: Global,
    machine: &CodeMachine<'_>,
    options: RunOptions,
    printing: Printing,
    settings: Settings,
    script: &Script,
    out: &mut K,
    wires: &mut [W],
) -> Ended
    requires ranges { AreSettings settings }
    requires turns { settings.turns ≡ options.turns }
    requires wires { settings.wires ≡ length wires.old }
    ensures none { IfNone result.kept ((result.status ≡ NO_MEMORY) × (K.told out.new ≡ K.told out.old)) }
    ensures kept { IfSome result.kept (λ k. IsProgramRun (units_of machine.now) (said printing options) settings k result.status
        (K.told out.old) (K.told out.new) (map W.told wires.old) (map W.told wires.new)) }
    ensures loaded { IfSome result.kept (λ k. AreLoaded script.now
        (wires_of W.told W.rule W.loaded wires.old) (wires_of W.told W.rule W.loaded wires.new)) }
    ensures untouched { IfNone result.kept (
        (wires_of W.told W.rule W.loaded wires.new ≡ wires_of W.told W.rule W.loaded wires.old) ⊎
        WasBegun (units_of machine.now) settings script.now
        (wires_of W.told W.rule W.loaded wires.old) (wires_of W.told W.rule W.loaded wires.new)) }
    ensures later { K.faults out.old ≤ K.faults out.new }
    ensures failed { result.status ≡ WRITE_FAULT → Rose (K.faults out.old) (K.faults out.new) }
    ensures stopped { K.faults out.old < K.faults out.new → HasStopped result.status }
{
    match load_first(alloc, script, wires) {
        Ok(()) => run_named(alloc, machine, options, printing, settings, out, wires),
        Err(_) => unkept(NO_MEMORY),
    }
}

// Runs the program in the files with the script in another, or says why not.
fn run_files<F: Shelf, K: Sink, W: Wire, P: Policy>(
    alloc: Global,
    options: RunOptions,
    script: Option<&str>,
    files: &[&str],
    shelf: &mut F,
    out: &mut K,
    wires: &mut [W],
    policy: &mut P,
) -> Ended
    requires options { IsRunWithin options }
    requires wires { (1 ≤ length wires.old) × (length wires.old ≤ 1000) }
    ensures refused { (words : List Word) →
        deed_in words ≡ Some (runs options (option_map (λ f. f.now) script.entry) (map (λ f. f.now) files.now)) →
        IfNone result.kept (IsAnswer (chooser_of P.rule P.told policy.old) words (F.told shelf.old) (F.reads shelf.old) (F.reads shelf.new)
        (StoppedAt (F.faults shelf.old) (F.faults shelf.new) (F.reads shelf.old) (F.reads shelf.new))
        (K.told out.old) (K.told out.new) result.status (P.told policy.new)) }
    ensures kept { (words : List Word) →
        deed_in words ≡ Some (runs options (option_map (λ f. f.now) script.entry) (map (λ f. f.now) files.now)) →
        IfSome result.kept (λ k. IsRunOf (chooser_of P.rule P.told policy.old) words (F.told shelf.old) (F.reads shelf.old)
        (F.reads shelf.new) k result.status (K.told out.old) (K.told out.new)
        (wires_of W.told W.rule W.loaded wires.old) (wires_of W.told W.rule W.loaded wires.new) (P.told policy.new)) }
    ensures untouched { (words : List Word) →
        deed_in words ≡ Some (runs options (option_map (λ f. f.now) script.entry) (map (λ f. f.now) files.now)) →
        IfNone result.kept (AreUntouched (chooser_of P.rule P.told policy.old) words (F.told shelf.old) (F.reads shelf.old)
        (F.reads shelf.new) result.status
        (wires_of W.told W.rule W.loaded wires.old) (wires_of W.told W.rule W.loaded wires.new) (P.told policy.new)) }
    ensures same_rule { P.rule policy.new ≡ P.rule policy.old }
    ensures same { F.told shelf.new ≡ F.told shelf.old }
    ensures read { F.faults shelf.old ≤ F.faults shelf.new }
    ensures asked { HasAsked (F.may_fail shelf.old) (map (λ f. f.now) files.now ++ script_names (option_map (λ f. f.now) script.entry))
        (F.reads shelf.old) (F.reads shelf.new) }
    ensures may { F.may_fail shelf.new ≡ F.may_fail shelf.old }
    ensures read_fault { F.faults shelf.old < F.faults shelf.new → (result.status ≡ READ_FAULT) ⊎ HasStopped result.status }
    ensures later { K.faults out.old ≤ K.faults out.new }
    ensures failed { result.status ≡ WRITE_FAULT → Rose (K.faults out.old) (K.faults out.new) }
    ensures stopped { K.faults out.old < K.faults out.new → HasStopped result.status }
{
    let sources = match sources(alloc, shelf, files) {
        Ok(sources) => sources,
        Err(Refusal::Because { cause }) => return unkept(said_unread(alloc, out, cause)),
        Err(Refusal::NoMemory) => return unkept(NO_MEMORY),
    };
    let script = match script_of(alloc, shelf, script) {
        Ok(script) => script,
        Err(Refusal::Because { cause }) => return unkept(said_unscripted(alloc, out, cause)),
        Err(Refusal::NoMemory) => return unkept(NO_MEMORY),
    };
    let program = match linked_program(alloc, &sources) {
        Ok(program) => program,
        Err(Refusal::Because { cause }) => return unkept(said_refused(alloc, out, &cause)),
        Err(Refusal::NoMemory) => return unkept(NO_MEMORY),
    };
    let machine = match machine_of(alloc, &program) {
        Ok(machine) => machine,
        Err(Refusal::Because { cause }) => return unkept(said_refused(alloc, out, &cause)),
        Err(Refusal::NoMemory) => return unkept(NO_MEMORY),
    };
    let settings = match settings_of(alloc, &machine, options, wires, policy) {
        Ok(settings) => settings,
        Err(_) => return unkept(NO_MEMORY),
    };
    run_program(
        alloc,
        &machine,
        options,
        Printing::Output,
        settings,
        &script,
        out,
        wires,
    )
}

// What these wires were asked since their scripts were loaded, they answered by their rules. A call of this function does nothing.
fn obeyed<W: Wire>(wires: &[W])
    ensures { HaveObeyed (wires_of W.told W.rule W.loaded wires.now) }
{
    have_obeyed(wires);
}

/// What `orca_main` does, over wires of one kind, of which its owner may know how they answer, and any policy.
pub fn orca_main_over<F: Shelf, K: Sink, W: Wire, P: Policy>(
    alloc: Global,
    words: &[String],
    shelf: &mut F,
    out: &mut K,
    wires: &mut [W],
    policy: &mut P,
) -> Ended
    requires wires { (1 ≤ length wires.old) × (length wires.old ≤ 1000) }
    ensures refused { IfNone result.kept (IsAnswer (chooser_of P.rule P.told policy.old) (map string_bytes words.now) (F.told shelf.old)
        (F.reads shelf.old) (F.reads shelf.new)
        (StoppedAt (F.faults shelf.old) (F.faults shelf.new) (F.reads shelf.old) (F.reads shelf.new))
        (K.told out.old) (K.told out.new) result.status (P.told policy.new)) }
    ensures untouched { IfNone result.kept (AreUntouched (chooser_of P.rule P.told policy.old) (map string_bytes words.now)
        (F.told shelf.old) (F.reads shelf.old) (F.reads shelf.new) result.status
        (wires_of W.told W.rule W.loaded wires.old) (wires_of W.told W.rule W.loaded wires.new) (P.told policy.new)) }
    ensures headline { IfSome result.kept (λ k. IsRunOf (chooser_of P.rule P.told policy.old) (map string_bytes words.now)
        (F.told shelf.old) (F.reads shelf.old) (F.reads shelf.new) k result.status (K.told out.old) (K.told out.new)
        (wires_of W.told W.rule W.loaded wires.old) (wires_of W.told W.rule W.loaded wires.new) (P.told policy.new)) }
    ensures write_fault { result.status ≡ WRITE_FAULT → Rose (K.faults out.old) (K.faults out.new) }
    ensures stopped { K.faults out.old < K.faults out.new → HasStopped result.status }
    ensures same { F.told shelf.new ≡ F.told shelf.old }
    ensures read_fault { F.faults shelf.old < F.faults shelf.new → (result.status ≡ READ_FAULT) ⊎ HasStopped result.status }
    ensures read { F.faults shelf.old ≤ F.faults shelf.new }
    ensures asked { HasAsked (F.may_fail shelf.old) (named_in (map string_bytes words.now)) (F.reads shelf.old) (F.reads shelf.new) }
    ensures may { F.may_fail shelf.new ≡ F.may_fail shelf.old }
    ensures written { K.faults out.old ≤ K.faults out.new }
    ensures same_rule { P.rule policy.new ≡ P.rule policy.old }
{
    match job_of(alloc, words) {
        Ok(Some(Job::Says { text })) => unkept(print_ending(out, whole(alloc, text), FINISHED)),
        Ok(Some(Job::Checks { files })) => unkept(check_files(alloc, &files, shelf, out)),
        Ok(Some(Job::Lists { what, files })) => unkept(list_program(
            alloc, what, &files, shelf, out,
        )),
        Ok(Some(Job::Chooses { nodes, files })) => unkept(choose_files(
            alloc, nodes, &files, shelf, out, policy,
        )),
        Ok(
            Some(
                Job::Runs {
                    options,
                    script,
                    files,
                },
            ),
        ) => run_files(alloc, options, script, &files, shelf, out, wires, policy),
        Ok(Some(Job::Replays { history, files })) => unkept(replay_history(
            alloc, history, &files, shelf, out,
        )),
        Ok(Some(Job::Shows { number })) => unkept(show_program(alloc, number, out)),
        Ok(Some(Job::Makes { options, number })) => run_made(
            alloc, options, number, out, wires, policy,
        ),
        Ok(None) => unkept(print_ending(out, usage_line(alloc), USAGE)),
        Err(_) => unkept(NO_MEMORY),
    }
}

/// Does what the words ask for: `run` runs the accepted program in the files on as many members as they say, over the wires; `check` says
/// whether the program in the files is accepted; `code` lists its code, with the source's lines or not; `choice` says how often each of its
/// objects is estimated to be read and written, and where the policy would keep it among as many members; `replay` says whether the history
/// in a file is one of the accepted program in the others; `make` makes a program of a number and runs it, or says its text; `--help` and
/// `--version` say what they name. A run in which no member may be lost keeps each object where the policy chooses.
///
/// `words` leaves out the program's name; of the wires, from 1 to 1,000, the first is in use at the beginning, and is loaded with the
/// script of the words, with that of the losses of `make`, or with the empty one. The status is that of docs/FORMATS.md. Nothing is kept
/// where the words ask for no run, a file wasn't read, the script is none, or the texts are no accepted program; nor, maybe, where memory
/// lacked. Each refusal prints its line; a run prints what its history writes, behind that the history and the places of its lines, where
/// the words ask for these, and the line of how it ended; `make` prints the summary of its run, or that line.
pub fn orca_main<F: Shelf, K: Sink>(
    alloc: Global,
    words: &[String],
    shelf: &mut F,
    out: &mut K,
    wires: &mut Vec<Box<dyn Wire + Send>>,
    policy: &mut Box<dyn Policy + Send>,
) -> Ended
    requires wires { (1 ≤ length wires.old.items) × (length wires.old.items ≤ 1000) }

    // Nothing is kept: an ending by its cause, with its line, or want of memory. Where that tells choices, the policy was asked about each
    // site of that program, in order, or about so many from the front where memory lacked before; it may have been asked so for a run, too,
    // for which memory lacked; and else about nothing. What the wires tell, their scripts, and when these were loaded, are as before,
    // unless memory lacked for the run that the words name: then that may have been begun, once the policy had been asked all that it is
    // asked.
    ensures refused { IfNone result.kept (IsAnswer
        (chooser_of (λ b. (Policy-box b).rule b.value) (λ b. (Policy-box b).told b.value) policy.old)
        (map string_bytes words.now) (F.told shelf.old) (F.reads shelf.old) (F.reads shelf.new)
        (StoppedAt (F.faults shelf.old) (F.faults shelf.new) (F.reads shelf.old) (F.reads shelf.new))
        (K.told out.old) (K.told out.new) result.status ((Policy-box policy.new).told policy.new.value)) }
    ensures untouched { IfNone result.kept (AreUntouched
        (chooser_of (λ b. (Policy-box b).rule b.value) (λ b. (Policy-box b).told b.value) policy.old)
        (map string_bytes words.now) (F.told shelf.old)
        (F.reads shelf.old) (F.reads shelf.new) result.status
        (wires_of (λ b. (Wire-box b).told b.value) (λ b. (Wire-box b).rule b.value) (λ b. (Wire-box b).loaded b.value)
        wires.old.items)
        (wires_of (λ b. (Wire-box b).told b.value) (λ b. (Wire-box b).rule b.value) (λ b. (Wire-box b).loaded b.value)
        wires.new.items)
        ((Policy-box policy.new).told policy.new.value)) }

    // A kept run is one of the program that the words name, whose texts were read, or that `make` makes of their number: a history of it in
    // the source's meaning, whose replies and copies its members have, and each line of which was performed at its kept place; what it
    // writes was printed, and its own text and its places, where these are asked for, or of `make` the summary; its text is read back and
    // is legal. Its network was really used, by the script that the words name, or by that of the losses. `bounded`, `idle` and `counted`
    // of `IsRun` say how many events and how many idle ticks it may have. Where no member may be lost, each object is where the policy's
    // rule keeps it, which was asked about each site of the program, in order; else it was asked nothing.
    ensures headline { IfSome result.kept (λ k. IsRunOf
        (chooser_of (λ b. (Policy-box b).rule b.value) (λ b. (Policy-box b).told b.value) policy.old)
        (map string_bytes words.now) (F.told shelf.old)
        (F.reads shelf.old) (F.reads shelf.new) k result.status (K.told out.old) (K.told out.new)
        (wires_of (λ b. (Wire-box b).told b.value) (λ b. (Wire-box b).rule b.value) (λ b. (Wire-box b).loaded b.value)
        wires.old.items)
        (wires_of (λ b. (Wire-box b).told b.value) (λ b. (Wire-box b).rule b.value) (λ b. (Wire-box b).loaded b.value)
        wires.new.items)
        ((Policy-box policy.new).told policy.new.value)) }

    // A write fault is told only where the sink's count of faults rose; and where it rose, that or want of memory is told.
    ensures write_fault { result.status ≡ WRITE_FAULT → Rose (K.faults out.old) (K.faults out.new) }
    ensures stopped { K.faults out.old < K.faults out.new → HasStopped result.status }
    ensures same { F.told shelf.new ≡ F.told shelf.old }

    // A read fault is told only where the shelf's count of faults rose; and where it rose, that is told, unless its line couldn't be.
    ensures read_fault { F.faults shelf.old < F.faults shelf.new → (result.status ≡ READ_FAULT) ⊎ HasStopped result.status }

    // The shelf is asked for the files that the words name and for no other, in their order, up to the first that isn't read.
    ensures asked { HasAsked (F.may_fail shelf.old) (named_in (map string_bytes words.now)) (F.reads shelf.old) (F.reads shelf.new) }
    ensures may { F.may_fail shelf.new ≡ F.may_fail shelf.old }

    // The counts of faults don't fall.
    ensures read { F.faults shelf.old ≤ F.faults shelf.new }
    ensures written { K.faults out.old ≤ K.faults out.new }

    // Each wire answered what it was asked since its script was loaded as its rule says.
    ensures obeyed { HaveObeyed
        (wires_of (λ b. (Wire-box b).told b.value) (λ b. (Wire-box b).rule b.value) (λ b. (Wire-box b).loaded b.value)
        wires.new.items) }

    // The policy keeps its rule.
    ensures same_rule { (Policy-box policy.new).rule policy.new.value ≡ (Policy-box policy.old).rule policy.old.value }
{
    let ended = orca_main_over(alloc, words, shelf, out, wires, policy);
    obeyed(wires);
    ended
}
