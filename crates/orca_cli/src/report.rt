//! What is told of a run, once it is over.

ghost use Rattle.std.specs.Prelude.{◌≡◌, ◌==◌, ◌≤◌, ◌<◌, ◌++◌, All, IfOk, IsErrOf, OnOk, option_map};
ghost use Rattle.orca_io.specs.Causes.{Rose};
ghost use Rattle.orca_io.specs.Sinks.{Puts};
ghost use Rattle.value_core.specs.History.{output_by, output_of};
ghost use Rattle.history_text.specs.Sound.{AreTables, IsPrintable};
ghost use Rattle.world_rules.specs.declared.standing.Standing.TheVariants.{Going};
ghost use Rattle.orca_cli.specs.Lines.{line_with};
ghost use Rattle.command_output.specs.Printed.{Ends, EndsAs, Grew, HasStopped, WroteOf};
ghost use Rattle.orca_cli.specs.Made.{made_said, said};
ghost use Rattle.orca_cli.specs.Said.{ending_line, fault_said, first_faulted, first_spent, first_waiting, kept_of, spent_said, wait_said};
ghost use Rattle.orca_cli.specs.Standings.{awaited_name, awaited_of, fault_of, history_said, places_said, run_status, standing_status};

use crate::lines::{
    blocked_line, events_line, faulted_line, no_group_line, run_limit_line, turns_line,
};
use crate::names::awaited_name;
use crate::places::print_places;
use crate::printing::Printing;
use command_line::RunOptions;
use command_output::{
    BLOCKED, FAULTED, FINISHED, LIMIT, NO_GROUP, NO_MEMORY, OUT_OF_EVENTS, OUT_OF_TURNS,
    WRITE_FAULT,
};
use history_commands::print_lines;
use history_text::Names;
use make_command::{Summary, print_made};
use orca_base::{FaultKind, KindNo, NoMemory};
use orca_io::{Sink, SinkFault};
use run_loop::{ProcessEnd, ProcessStanding, RunEnd, Standing};
use std::alloc::Global;
use value_core::{Action, Line, Parts, Value};

/// Prints what is to be printed of a run, up to the first put that fails, and gives the status.
pub fn report<K: Sink>(
    alloc: Global,
    out: &mut K,
    names: &Names,
    options: RunOptions,
    printing: Printing,
    standing: Standing,
    end: &RunEnd,
) -> u8
    requires tables { AreTables names.now }
    requires lines { All (IsPrintable names.now) end.now.book.items }
    ensures ends { EndsAs (standing_status standing) result }
    ensures lacked { standing ≡ Going → result ≡ NO_MEMORY }
    ensures printed { Grew (K.told out.old) (K.told out.new) (Ends (standing_status standing) result
        (said printing options names.now standing end.now.longest (kept_of end.now)
        (ending_line (awaited_name names.now) options.turns standing end.now.processes.items))) }
    ensures later { K.faults out.old ≤ K.faults out.new }
    ensures failed { result ≡ WRITE_FAULT → Rose (K.faults out.old) (K.faults out.new) }
    ensures stopped { K.faults out.old < K.faults out.new → HasStopped result }
{
    let printed = print_as(alloc, out, names, options, printing, standing, end);
    run_status(standing, printed)
}

// Prints what is to be printed of a run.
fn print_as<K: Sink>(
    alloc: Global,
    out: &mut K,
    names: &Names,
    options: RunOptions,
    printing: Printing,
    standing: Standing,
    end: &RunEnd,
) -> Result<(), SinkFault>
    requires tables { AreTables names.now }
    requires lines { All (IsPrintable names.now) end.now.book.items }
    ensures wrote { Grew (K.told out.old) (K.told out.new) (WroteOf result
        (said printing options names.now standing end.now.longest (kept_of end.now)
        (ending_line (awaited_name names.now) options.turns standing end.now.processes.items))) }
    ensures later { K.faults out.old ≤ K.faults out.new }
    ensures failed { IsErrOf result SinkFault.Failed → Rose (K.faults out.old) (K.faults out.new) }
    ensures quiet { OnOk result (K.faults out.new ≡ K.faults out.old) }
{
    match printing {
        Printing::Output => print_run(alloc, out, names, options, standing, end),
        Printing::Summary { number } => print_summary(
            alloc,
            out,
            names,
            options.turns,
            number,
            standing,
            end,
        ),
    }
}

// Prints the summary of the program that was made of a number, where the run has finished, and else the line of the standing.
fn print_summary<K: Sink>(
    alloc: Global,
    out: &mut K,
    names: &Names,
    turns: u64,
    number: u64,
    standing: Standing,
    end: &RunEnd,
) -> Result<(), SinkFault>
    ensures wrote { Grew (K.told out.old) (K.told out.new) (WroteOf result (made_said number standing end.now.longest (kept_of end.now)
        (ending_line (awaited_name names.now) turns standing end.now.processes.items))) }
    ensures later { K.faults out.old ≤ K.faults out.new }
    ensures failed { IsErrOf result SinkFault.Failed → Rose (K.faults out.old) (K.faults out.new) }
    ensures quiet { OnOk result (K.faults out.new ≡ K.faults out.old) }
{
    let line = ending_line(alloc, names, turns, standing, &end.processes)?;
    let summary = Summary {
        number,
        processes: end.processes.len(),
        entries: end.longest,
        book: &end.book,
    };
    print_made(alloc, out, standing, &summary, line)
}

// The status of a run that stands so, of which so much was printed.
fn run_status(standing: Standing, printed: Result<(), SinkFault>) -> u8
    ensures { result ≡ run_status standing printed }
{
    match (standing, printed) {
        (Standing::Going, _) | (_, Err(SinkFault::NoMemory)) => NO_MEMORY,
        (_, Err(SinkFault::Failed)) => WRITE_FAULT,
        (standing, Ok(())) => standing_status(standing),
    }
}

// The status of a run that stands so, all of which was printed.
fn standing_status(standing: Standing) -> u8
    ensures { result ≡ standing_status standing }
{
    match standing {
        Standing::Finished => FINISHED,
        Standing::Faulted => FAULTED,
        Standing::Blocked => BLOCKED,
        Standing::NoGroup => NO_GROUP,
        Standing::OutOfEvents => OUT_OF_EVENTS,
        Standing::OutOfTurns => OUT_OF_TURNS,
        Standing::Limit { .. } => LIMIT,
        Standing::Going => NO_MEMORY,
    }
}

// Prints what the history writes, one put a line, and what is said behind it.
fn print_run<K: Sink>(
    alloc: Global,
    out: &mut K,
    names: &Names,
    options: RunOptions,
    standing: Standing,
    end: &RunEnd,
) -> Result<(), SinkFault>
    requires tables { AreTables names.now }
    requires lines { All (IsPrintable names.now) end.now.book.items }
    ensures wrote { Grew (K.told out.old) (K.told out.new) (WroteOf result (output_of end.now.book.items
        ++ (history_said options.history names.now end.now.book.items
        ++ (places_said options.explain end.now.book.items end.now.places.items
        ++ ending_line (awaited_name names.now) options.turns standing end.now.processes.items)))) }
    ensures later { K.faults out.old ≤ K.faults out.new }
    ensures failed { IsErrOf result SinkFault.Failed → Rose (K.faults out.old) (K.faults out.new) }
    ensures quiet { OnOk result (K.faults out.new ≡ K.faults out.old) }
{
    print_book(alloc, out, &end.book)?;
    print_behind(alloc, out, names, options, standing, end)
}

// Prints the history and the places of its lines, where these are asked for, and the line of the standing.
fn print_behind<K: Sink>(
    alloc: Global,
    out: &mut K,
    names: &Names,
    options: RunOptions,
    standing: Standing,
    end: &RunEnd,
) -> Result<(), SinkFault>
    requires tables { AreTables names.now }
    requires lines { All (IsPrintable names.now) end.now.book.items }
    ensures wrote { Grew (K.told out.old) (K.told out.new) (WroteOf result (history_said options.history names.now end.now.book.items
        ++ (places_said options.explain end.now.book.items end.now.places.items
        ++ ending_line (awaited_name names.now) options.turns standing end.now.processes.items))) }
    ensures later { K.faults out.old ≤ K.faults out.new }
    ensures failed { IsErrOf result SinkFault.Failed → Rose (K.faults out.old) (K.faults out.new) }
    ensures quiet { OnOk result (K.faults out.new ≡ K.faults out.old) }
{
    print_history(alloc, out, names, options.history, &end.book)?;
    print_ending(alloc, out, names, options, standing, end)
}

// Prints the places of the history's lines, where they are asked for, and the line of the standing.
fn print_ending<K: Sink>(
    alloc: Global,
    out: &mut K,
    names: &Names,
    options: RunOptions,
    standing: Standing,
    end: &RunEnd,
) -> Result<(), SinkFault>
    ensures wrote { Grew (K.told out.old) (K.told out.new) (WroteOf result
        (places_said options.explain end.now.book.items end.now.places.items
        ++ ending_line (awaited_name names.now) options.turns standing end.now.processes.items)) }
    ensures later { K.faults out.old ≤ K.faults out.new }
    ensures failed { IsErrOf result SinkFault.Failed → Rose (K.faults out.old) (K.faults out.new) }
    ensures quiet { OnOk result (K.faults out.new ≡ K.faults out.old) }
{
    print_places(alloc, out, options.explain, &end.book, &end.places)?;
    let line = ending_line(alloc, names, options.turns, standing, &end.processes)?;
    put_some(out, &line)
}

// Prints the history, one put a line, where it is asked for.
fn print_history<K: Sink>(
    alloc: Global,
    out: &mut K,
    names: &Names,
    asked: bool,
    book: &[Line],
) -> Result<(), SinkFault>
    requires tables { AreTables names.now }
    requires lines { All (IsPrintable names.now) book.now }
    ensures wrote { Grew (K.told out.old) (K.told out.new) (WroteOf result (history_said asked names.now book.now)) }
    ensures later { K.faults out.old ≤ K.faults out.new }
    ensures failed { IsErrOf result SinkFault.Failed → Rose (K.faults out.old) (K.faults out.new) }
    ensures quiet { OnOk result (K.faults out.new ≡ K.faults out.old) }
{
    if asked {
        return print_lines(alloc, out, names, book);
    }
    Ok(())
}

// The line of the standing; nothing where there is none.
fn ending_line(
    alloc: Global,
    names: &Names,
    turns: u64,
    standing: Standing,
    ends: &[ProcessEnd],
) -> Result<Vec<u8>, NoMemory>
    ensures { IfOk result (λ line. line.items ≡
        ending_line (awaited_name names.now) turns standing ends.now) }
{
    match standing {
        Standing::Faulted => fault_said(alloc, ends),
        Standing::Blocked => wait_said(alloc, names, ends),
        Standing::NoGroup => no_group_line(alloc),
        Standing::OutOfEvents => events_line(alloc),
        Standing::OutOfTurns => spent_said(alloc, turns, ends),
        Standing::Limit { what, number } => run_limit_line(alloc, what, number),
        Standing::Finished | Standing::Going => Ok(Vec::new(alloc)),
    }
}

// Of the lowest process that faulted.
fn fault_said(alloc: Global, ends: &[ProcessEnd]) -> Result<Vec<u8>, NoMemory>
    ensures { IfOk result (λ line. line.items ≡ fault_said (first_faulted ends.now)) }
{
    match first_faulted(ends) {
        Some((process, fault)) => faulted_line(alloc, process, fault),
        None => Ok(Vec::new(alloc)),
    }
}

// The lowest process that faulted, and how.
fn first_faulted(ends: &[ProcessEnd]) -> Option<(usize, FaultKind)>
    ensures { option_map (λ p. (p.0, p.1)) result ≡ first_faulted ends.now }
{
    'ends: for (number, end) in ends.iter().enumerate() {
        if let Some(fault) = fault_of(&end.standing) {
            return Some((number, fault));
        }
    }
    None
}

// How it faulted, if it did.
fn fault_of(standing: &ProcessStanding) -> Option<FaultKind>
    ensures { result ≡ fault_of standing.now }
{
    match standing {
        ProcessStanding::Faulted { fault } => Some(*fault),
        ProcessStanding::Ended
        | ProcessStanding::Waits { .. }
        | ProcessStanding::Busy
        | ProcessStanding::Crashed => None,
    }
}

// Of the lowest process that waits.
fn wait_said(alloc: Global, names: &Names, ends: &[ProcessEnd]) -> Result<Vec<u8>, NoMemory>
    ensures { IfOk result (λ line. line.items ≡ wait_said (awaited_name names.now) (first_waiting ends.now)) }
{
    match first_waiting(ends) {
        Some((process, action)) => {
            let name = awaited_name(alloc, names, action)?;
            blocked_line(alloc, process, &name)
        }
        None => Ok(Vec::new(alloc)),
    }
}

// The lowest process that waits, and at which action.
fn first_waiting(ends: &[ProcessEnd]) -> Option<(usize, &Action)>
    ensures { option_map (λ p. (p.0, p.1.now)) result ≡ first_waiting ends.now }
{
    'ends: for (number, end) in ends.iter().enumerate() {
        if let Some(action) = awaited_of(&end.standing) {
            return Some((number, action));
        }
    }
    None
}

// The action at which it waits, if it does.
fn awaited_of(standing: &ProcessStanding) -> Option<&Action>
    ensures { option_map (λ a. a.now) result ≡ awaited_of standing.now }
{
    match standing {
        ProcessStanding::Waits { action } => Some(action),
        ProcessStanding::Ended
        | ProcessStanding::Faulted { .. }
        | ProcessStanding::Busy
        | ProcessStanding::Crashed => None,
    }
}

// Of the lowest process that took so many turns.
fn spent_said(alloc: Global, turns: u64, ends: &[ProcessEnd]) -> Result<Vec<u8>, NoMemory>
    ensures { IfOk result (λ line. line.items ≡ spent_said (first_spent turns ends.now)) }
{
    match first_spent(turns, ends) {
        Some(process) => turns_line(alloc, process),
        None => Ok(Vec::new(alloc)),
    }
}

// The lowest process that took so many turns.
fn first_spent(turns: u64, ends: &[ProcessEnd]) -> Option<usize>
    ensures { option_map (λ number. (number, tt)) result ≡ first_spent turns ends.now }
{
    'ends: for (number, end) in ends.iter().enumerate() {
        if has_spent(turns, end) {
            return Some(number);
        }
    }
    None
}

// Whether it took so many turns.
fn has_spent(turns: u64, end: &ProcessEnd) -> bool
    ensures { result ≡ (end.now.turns == turns) }
{
    end.turns == turns
}

// Prints what the lines of a book write, one put a line, up to the first that fails.
fn print_book<K: Sink>(alloc: Global, out: &mut K, book: &[Line]) -> Result<(), SinkFault>
    ensures wrote { Grew (K.told out.old) (K.told out.new) (WroteOf result (output_of book.now)) }
    ensures later { K.faults out.old ≤ K.faults out.new }
    ensures failed { IsErrOf result SinkFault.Failed → Rose (K.faults out.old) (K.faults out.new) }
    ensures quiet { OnOk result (K.faults out.new ≡ K.faults out.old) }
{
    'lines: for line in book {
        let text = output(alloc, &line.action)?;
        put_some(out, &text)?;
    }
    Ok(())
}

// What an action writes.
fn output(alloc: Global, action: &Action) -> Result<Vec<u8>, NoMemory>
    ensures { IfOk result (λ bytes. bytes.items ≡ output_by action.now) }
{
    match action {
        Action::Call { kind, op, args, .. } if *kind == KindNo::OUTPUT && op.0 == 0 => line(
            alloc, args,
        ),
        _ => Ok(Vec::new(alloc)),
    }
}

// The string that is the first argument, and a line feed.
fn line(alloc: Global, args: &Parts) -> Result<Vec<u8>, NoMemory>
    ensures { IfOk result (λ bytes. bytes.items ≡ line_with args.now) }
{
    let mut bytes = Vec::new(alloc);
    if let Some(Value::Text(text)) = args.as_slice().first() {
        bytes.extend_from_slice(text.as_bytes())?;
    }
    bytes.push(b'\n')?;
    Ok(bytes)
}

// Puts a text, unless it is empty.
fn put_some<K: Sink>(out: &mut K, text: &[u8]) -> Result<(), SinkFault>
    ensures puts { Puts (K.told out.old) (K.told out.new) text.now result }
    ensures later { K.faults out.old ≤ K.faults out.new }
    ensures failed { IsErrOf result SinkFault.Failed → Rose (K.faults out.old) (K.faults out.new) }
    ensures quiet { OnOk result (K.faults out.new ≡ K.faults out.old) }
{
    if text.is_empty() {
        return Ok(());
    }
    out.put(text)
}
