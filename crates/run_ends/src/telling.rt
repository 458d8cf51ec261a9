//! What is told of a run.

ghost use Rattle.std.specs.Prelude.{◌≡◌, ◌++◌, ◌∷◌, [], if◌then◌else◌, nat_lt, List, IfOk, OnOk, length, map, None};
ghost use Rattle.std.specs.Option.{option_copied};
ghost use Rattle.book_law.specs.Performed.{placed};
ghost use Rattle.node_parts.specs.Shown.{on_stage};
ghost use Rattle.value_core.specs.declared.action.Line.{Line as LineOf};
ghost use Rattle.world_facts.specs.Ends.{end_at, end_crashed, end_living, end_of, end_over, process_end, replies_in};
ghost use Rattle.world_rules.specs.Worlds.{Book, places, played_in};
ghost use Rattle.world_facts.specs.Logs.{longest_log};
ghost use Rattle.world_parts.specs.Recorded.{of_piece, of_pieces};
ghost use Rattle.world_parts.specs.Standing.{Is, Stands};
ghost use Rattle.run_ends.specs.Telling.{AreNodeEnds, AreProcessEnds, HasHeard, IsInOrder, TellsNode, on_process_end, on_standing, standing_as};

use crate::ends::{NodeEnd, ProcessEnd, ProcessStanding, RunEnd};
use crate::placing::notes_of;
use book_law::{Placed, sort_by_place};
use node_core::Node;
use node_parts::{OneRun, Resident, Stage};
use orca_base::{Items, NoMemory, ProcessNo};
use std::alloc::Global;
use value_core::{Action, Line, Reply};
use world_parts::{Parts, Piece};

// ---- the book

/// The book: the performed operations by place. Within a place the lines of its entry come first, in the order in which they ran, then
/// all others in order of events and of their burst.
pub fn book<P: OneRun>(parts: &Parts<P>, alloc: Global) -> Result<Vec<Line>, NoMemory>
    requires { Stands P.stood P.left P.run.frame parts.now }
    ensures { Is P.stood P.left P.run.frame parts.now (λ w. IfOk result (λ lines. lines.items ≡ Book P.run.frame w)) }
{
    let performed = in_order(parts, alloc)?;
    let lines = lines_of(alloc, performed)?;
    Ok(lines)
}

/// What was performed, in the order of the book.
pub(crate) fn in_order<P: OneRun>(parts: &Parts<P>, alloc: Global) -> Result<Vec<Placed>, NoMemory>
    requires { Stands P.stood P.left P.run.frame parts.now }
    ensures { IfOk result (λ performed. IsInOrder P.stood P.left P.run.frame parts.now performed.items) }
{
    let mut performed = copied(alloc, parts.ledger.pieces())?;
    sort_by_place(&mut performed)?;
    Ok(performed)
}

// What was performed, piece by piece, copied.
fn copied(alloc: Global, pieces: &[Piece]) -> Result<Vec<Placed>, NoMemory>
    ensures { IfOk result (λ performed. performed.items ≡ of_pieces pieces.now) }
{
    let mut performed = Vec::new(alloc);
    'pieces: for piece in pieces {
        copy_piece(alloc, &mut performed, piece)?;
    }
    Ok(performed)
}

// What came together, one by one, copied.
fn copy_piece(alloc: Global, performed: &mut Vec<Placed>, piece: &Piece) -> Result<(), NoMemory>
    ensures { OnOk result (performed.new.items ≡ performed.old.items ++ of_piece piece.now) }
{
    match piece {
        Piece::Lines { place, lines } => copy_lines(alloc, performed, *place, lines.as_slice()),
        Piece::One { placed } => copy_line(alloc, performed, placed.place, &placed.line),
    }
}

// Lines, all at one place, copied.
fn copy_lines(
    alloc: Global,
    performed: &mut Vec<Placed>,
    place: u64,
    lines: &[Line],
) -> Result<(), NoMemory>
    ensures { OnOk result (performed.new.items ≡ performed.old.items ++ placed place lines.now) }
{
    'lines: for line in lines {
        copy_line(alloc, performed, place, line)?;
    }
    Ok(())
}

// A line at this place, copied.
fn copy_line(
    alloc: Global,
    performed: &mut Vec<Placed>,
    place: u64,
    line: &Line,
) -> Result<(), NoMemory>
    ensures { OnOk result (performed.new.items ≡ performed.old.items ++ record { place = place; line = line.now } ∷ []) }
{
    let line = line.copy(alloc)?;
    performed.push(Placed { place, line })?;
    Ok(())
}

// The lines of these operations.
fn lines_of(alloc: Global, performed: Vec<Placed>) -> Result<Vec<Line>, NoMemory>
    ensures { IfOk result (λ lines. lines.items ≡ map (λ (r : Placed). r.line) performed.items) }
{
    let mut lines = Vec::new(alloc);
    'lines: for placed in performed {
        lines.push(placed.line)?;
    }
    Ok(lines)
}

// ---- members

/// The members as they stand, by their numbers.
pub fn node_ends<P: OneRun>(parts: &Parts<P>, alloc: Global) -> Result<Vec<NodeEnd>, NoMemory>
    requires { Stands P.stood P.left P.run.frame parts.now }
    ensures { Is P.stood P.left P.run.frame parts.now (λ w. IfOk result (λ ends. AreNodeEnds P.run.frame w ends.items)) }
{
    let mut ends = Vec::new(alloc);
    'members: for member in 0..parts.numbers.nodes {
        let node = parts.member_of(member);
        let end = node_end(alloc, node, parts.lives(member))?;
        ends.push(end)?;
    }
    Ok(ends)
}

// A member as it stands.
fn node_end<P: OneRun>(alloc: Global, node: &Node<P>, lives: bool) -> Result<NodeEnd, NoMemory>
    ensures { IfOk result (TellsNode P.stood P.left node.now lives) }
{
    let copies = node.copies().held(alloc)?;
    let member = node.member();
    Ok(NodeEnd {
        applied: member.applied(),
        incarnation: member.installed(),
        crashed: !lives,
        outside: member.is_outside(),
        copies,
    })
}

// ---- processes

/// The processes as they stand, by their numbers. Their replies are read off the book.
pub fn process_ends<P: OneRun>(parts: &Parts<P>, alloc: Global) -> Result<Vec<ProcessEnd>, NoMemory>
    requires { Stands P.stood P.left P.run.frame parts.now }
    ensures { Is P.stood P.left P.run.frame parts.now (λ w. IfOk result (λ ends. AreProcessEnds P.run.frame w ends.items)) }
{
    let lines = book(parts, alloc)?;
    ends_by(parts, alloc, lines.as_slice())
}

// The processes as they stand, by these lines, which are the book.
fn ends_by<P: OneRun>(
    parts: &Parts<P>,
    alloc: Global,
    lines: &[Line],
) -> Result<Vec<ProcessEnd>, NoMemory>
    requires stands { Stands P.stood P.left P.run.frame parts.now }
    requires book { Is P.stood P.left P.run.frame parts.now (λ w. lines.now ≡ Book P.run.frame w) }
    ensures { Is P.stood P.left P.run.frame parts.now (λ w. IfOk result (λ ends. AreProcessEnds P.run.frame w ends.items)) }
{
    let replies = heard(parts, alloc, lines)?;
    ends_with(parts, alloc, replies)
}

// The replies that the processes received, off these lines, which are the book.
fn heard<P: OneRun>(
    parts: &Parts<P>,
    alloc: Global,
    lines: &[Line],
) -> Result<Vec<Vec<Reply>>, NoMemory>
    requires { Stands P.stood P.left P.run.frame parts.now }
    ensures { Is P.stood P.left P.run.frame parts.now (λ w. IfOk result (λ replies. HasHeard P.run.frame w lines.now (map (λ v. v.items) replies.items))) }
{
    let mut replies = no_replies(parts, alloc)?;
    'lines: for line in lines {
        hear(parts, alloc, &mut replies, line)?;
    }
    Ok(replies)
}

// A list of replies for each process.
fn no_replies<P: OneRun>(parts: &Parts<P>, alloc: Global) -> Result<Vec<Vec<Reply>>, NoMemory>
    requires { Stands P.stood P.left P.run.frame parts.now }
    ensures { Is P.stood P.left P.run.frame parts.now (λ w. IfOk result (λ replies. HasHeard P.run.frame w [] (map (λ v. v.items) replies.items))) }
{
    let mut replies = Vec::new(alloc);
    'processes: for _process in 0..parts.process_count() {
        replies.push(Vec::new(alloc))?;
    }
    Ok(replies)
}

// The reply of this line goes to its process, if that has received it.
fn hear<P: OneRun>(
    parts: &Parts<P>,
    alloc: Global,
    replies: &mut Vec<Vec<Reply>>,
    line: &Line,
) -> Result<(), NoMemory>
    requires { Stands P.stood P.left P.run.frame parts.now }
    ensures { OnOk result (Is P.stood P.left P.run.frame parts.now (λ w. (before : List LineOf) →
        HasHeard P.run.frame w before (map (λ v. v.items) replies.old.items) →
        HasHeard P.run.frame w (before ++ line.now ∷ []) (map (λ v. v.items) replies.new.items))) }
{
    let received = received(parts, line.process);
    let at = line.process.0 as usize;
    if at < replies.len() {
        hear_one(alloc, &mut replies[at], received, &line.reply)?;
        Ok(())
    } else {
        Ok(())
    }
}

// How many replies the process received.
fn received<P: OneRun>(parts: &Parts<P>, process: ProcessNo) -> u64
    requires { Stands P.stood P.left P.run.frame parts.now }
    ensures { Is P.stood P.left P.run.frame parts.now (λ w. result ≡ length (replies_in (played_in P.run.frame w process.0))) }
{
    match parts.resident(process) {
        Some(resident) => resident.next_call().0,
        None => 0,
    }
}

// One reply more, where fewer than so many were heard.
fn hear_one(
    alloc: Global,
    heard: &mut Vec<Reply>,
    received: u64,
    reply: &Reply,
) -> Result<(), NoMemory>
    ensures { OnOk result (heard.new.items ≡ (if nat_lt (length heard.old.items) received then heard.old.items ++ reply.now ∷ [] else heard.old.items)) }
{
    if (heard.len() as u64) < received {
        heard.push(reply.copy(alloc)?)?;
        Ok(())
    } else {
        Ok(())
    }
}

// The processes as they stand, with these replies.
fn ends_with<P: OneRun>(
    parts: &Parts<P>,
    alloc: Global,
    replies: Vec<Vec<Reply>>,
) -> Result<Vec<ProcessEnd>, NoMemory>
    requires stands { Stands P.stood P.left P.run.frame parts.now }
    requires heard { Is P.stood P.left P.run.frame parts.now (λ w. HasHeard P.run.frame w (Book P.run.frame w) (map (λ v. v.items) replies.items)) }
    ensures { Is P.stood P.left P.run.frame parts.now (λ w. IfOk result (λ ends. AreProcessEnds P.run.frame w ends.items)) }
{
    let _count = parts.process_count();
    let mut ends = Vec::new(alloc);
    let mut process = 0u16;
    'processes: for one in replies {
        let end = end_with(parts, alloc, ProcessNo(process), one)?;
        ends.push(end)?;
        process += 1;
    }
    Ok(ends)
}

// The process as it stands, with these replies.
fn end_with<P: OneRun>(
    parts: &Parts<P>,
    alloc: Global,
    process: ProcessNo,
    replies: Vec<Reply>,
) -> Result<ProcessEnd, NoMemory>
    requires stands { Stands P.stood P.left P.run.frame parts.now }
    requires heard { Is P.stood P.left P.run.frame parts.now (λ w. replies.items ≡ replies_in (played_in P.run.frame w process.0)) }
    ensures { Is P.stood P.left P.run.frame parts.now (λ w. IfOk result (λ end. on_process_end end ≡ process_end P.run.frame w process.0)) }
{
    let node = parts.home_of(process);
    let turns = parts.turns_of(process);
    let lives = parts.lives(node);
    let standing = standing_of(alloc, lives, parts.resident(process))?;
    Ok(ProcessEnd {
        node,
        replies: Items::new(replies),
        turns,
        standing,
    })
}

// Where a process stands, whose member lives or crashed.
fn standing_of<S: Drop>(
    alloc: Global,
    lives: bool,
    resident: Option<&Resident<S>>,
) -> Result<ProcessStanding, NoMemory>
    ensures { IfOk result (λ standing. on_standing standing ≡ standing_as lives (option_copied resident.entry)) }
{
    match resident {
        Some(resident) => standing_at(alloc, lives, resident.stage()),
        None => Ok(hidden(lives)),
    }
}

// Where a process stands that its member hasn't begun.
fn hidden(lives: bool) -> ProcessStanding
    ensures { on_standing result ≡ end_of lives None }
{
    if lives {
        ProcessStanding::Busy
    } else {
        ProcessStanding::Crashed
    }
}

// Where a process stands at this stage.
fn standing_at(alloc: Global, lives: bool, stage: &Stage) -> Result<ProcessStanding, NoMemory>
    ensures { IfOk result (λ standing. on_standing standing ≡ end_at lives (on_stage stage.now)) }
{
    if lives {
        living(alloc, stage)
    } else {
        crashed(alloc, stage)
    }
}

// On a living member.
fn living(alloc: Global, stage: &Stage) -> Result<ProcessStanding, NoMemory>
    ensures { IfOk result (λ standing. on_standing standing ≡ end_living (on_stage stage.now)) }
{
    match stage {
        Stage::Over { action } => over(alloc, action),
        Stage::Computing => Ok(ProcessStanding::Busy),
        Stage::Acting { action }
        | Stage::Submitted { action }
        | Stage::Reading { action }
        | Stage::Asking { action } => Ok(ProcessStanding::Waits {
            action: action.copy(alloc)?,
        }),
    }
}

// On a crashed one.
fn crashed(alloc: Global, stage: &Stage) -> Result<ProcessStanding, NoMemory>
    ensures { IfOk result (λ standing. on_standing standing ≡ end_crashed (on_stage stage.now)) }
{
    match stage {
        Stage::Over { action } => over(alloc, action),
        _ => Ok(ProcessStanding::Crashed),
    }
}

// Where a process stands that is over.
fn over(alloc: Global, action: &Action) -> Result<ProcessStanding, NoMemory>
    ensures { IfOk result (λ standing. on_standing standing ≡ end_over action.now) }
{
    match action {
        Action::Ended => Ok(ProcessStanding::Ended),
        Action::Faulted { fault } => Ok(ProcessStanding::Faulted { fault: *fault }),
        _ => Ok(ProcessStanding::Waits {
            action: action.copy(alloc)?,
        }),
    }
}

// ---- all of it

/// All that is kept of the run. The history is copied once. Where there is no memory, it is gone.
pub fn into_end<P: OneRun>(parts: Parts<P>, alloc: Global) -> Result<RunEnd, NoMemory>
    requires { Stands P.stood P.left P.run.frame parts }
    ensures steps { IfOk result (λ end. end.steps.items ≡ parts.ledger.steps) }
    ensures longest { Is P.stood P.left P.run.frame parts (λ w. IfOk result (λ end. end.longest ≡ longest_log P.run.frame w)) }
    ensures book { Is P.stood P.left P.run.frame parts (λ w. IfOk result (λ end. end.book.items ≡ Book P.run.frame w)) }
    ensures places { Is P.stood P.left P.run.frame parts (λ w. IfOk result (λ end. end.places.items ≡ places P.run.frame w)) }
    ensures nodes { Is P.stood P.left P.run.frame parts (λ w. IfOk result (λ end. AreNodeEnds P.run.frame w end.nodes.items)) }
    ensures processes { Is P.stood P.left P.run.frame parts (λ w. IfOk result (λ end. AreProcessEnds P.run.frame w end.processes.items)) }
{
    let nodes = node_ends(&parts, alloc)?;
    let performed = in_order(&parts, alloc)?;
    let order = performed.as_slice();
    let notes = notes_of(&parts, alloc, order)?;
    let lines = lines_of(alloc, performed)?;
    let processes = ends_by(&parts, alloc, lines.as_slice())?;
    let longest = parts.longest_log();
    let (steps, _) = parts.ledger.into_parts();
    Ok(RunEnd {
        book: lines,
        places: notes,
        steps,
        longest,
        nodes,
        processes,
    })
}
