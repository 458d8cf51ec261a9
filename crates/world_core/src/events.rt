//! What each event leaves, where it is possible.

ghost use Rattle.std.specs.Prelude.{◌≡◌, ◌<◌, ◌≤◌, ◌-◌, ◌&&◌, Err, IfOk, OnOk, is_some, length, min, nat_le, suc, true};
ghost use Rattle.net_rules.specs.Flights.{ready_copy};
ghost use Rattle.orca_base.specs.declared.limits.TheConstants.{BURST_TURNS};
ghost use Rattle.run_law.specs.Earlier.{view_at};
ghost use Rattle.world_rules.specs.Worlds.{home_of, played_in};
ghost use Rattle.world_core.specs.Bursting.{is_between, may_burst};
ghost use Rattle.node_core.specs.Stands.{fitness_of};
ghost use Rattle.node_rules.specs.Starts.Start.{Acts, Suspects, Ticks};
ghost use Rattle.world_calls.specs.Law.{ticking};
ghost use Rattle.world_rules.specs.Standings.{is_quiet, standing};
ghost use Rattle.world_rules.specs.Steps.{may_swap};
ghost use Rattle.world_rules.specs.declared.standing.Standing.TheVariants.{Going};
ghost use Rattle.world_core.specs.Growing.{Progress};
ghost use Rattle.world_core.specs.Drafting.{AddsLetter, AddsPart, Drafts, MayAdd, MayAddLetter, MayNotBe};
ghost use Rattle.world_parts.specs.Standing.{Is, Stands};

use crate::burst::{run_on, with_burst};
use crate::draft::Draft;
use crate::step::StepError;
use group_packets::Packet;
use history_buffer::Shared;
use letter_bytes::read_letter;
use node_core::Node;
use node_parts::{OneRun, Resident};
use node_rules::walking_law;
use object_manager::View;
use orca_base::{BURST_TURNS, NoMemory, ProcessNo};
use packet_bytes::spelling_law;
use run_law::parts_fit_apart;
use std::alloc::Global;
use value_core::Message;
use world_law::replay_law;
use world_parts::Parts;
use world_rules::Event;

/// What the event leaves of members, processes and what was performed. It is refused where it isn't possible here.
pub(crate) fn happens<P: OneRun>(
    parts: &Parts<P>,
    alloc: Global,
    machine: &P,
    event: Event,
) -> Result<Draft<P>, StepError>
    requires stands { Stands P.stood P.left P.run.frame parts.now }
    requires going { Is P.stood P.left P.run.frame parts.now (λ w. standing P.run.frame w ≡ Going) }
    ensures drafts { IfOk result (Drafts P.stood P.left P.run.frame parts.now event) }
    ensures refused { result ≡ Err StepError.NotEnabled → MayNotBe P.stood P.left P.run.frame parts.now event }
{
    match event {
        Event::Burst {
            process,
            place,
            turns,
        } => bursts(parts, alloc, machine, process, place, turns),
        Event::Act { process } => carries_out(parts, alloc, machine, process),
        Event::Deliver { packet, copy } => delivers(parts, alloc, machine, packet, copy),
        Event::Tick => ticks(parts, alloc, machine),
        Event::Suspect { node } => suspects(parts, alloc, machine, node),
        Event::Crash { node } => crashes(parts, alloc, node),
        Event::Swap => swaps(parts, alloc),
    }
}

// A member crashes that lives.
fn crashes<P: OneRun>(parts: &Parts<P>, alloc: Global, node: u8) -> Result<Draft<P>, StepError>
    requires stands { Stands P.stood P.left P.run.frame parts.now }
    requires going { Is P.stood P.left P.run.frame parts.now (λ w. standing P.run.frame w ≡ Going) }
    ensures drafts { IfOk result (Drafts P.stood P.left P.run.frame parts.now (Event.Crash node)) }
    ensures refused { result ≡ Err StepError.NotEnabled → MayNotBe P.stood P.left P.run.frame parts.now (Event.Crash node) }
{
    if parts.lives(node) {
        Ok(Draft::nothing(alloc))
    } else {
        Err(StepError::NotEnabled)
    }
}

// The next wire takes the place of the one in use, where there is one.
fn swaps<P: OneRun>(parts: &Parts<P>, alloc: Global) -> Result<Draft<P>, StepError>
    requires stands { Stands P.stood P.left P.run.frame parts.now }
    requires going { Is P.stood P.left P.run.frame parts.now (λ w. standing P.run.frame w ≡ Going) }
    ensures drafts { IfOk result (Drafts P.stood P.left P.run.frame parts.now Event.Swap) }
    ensures refused { result ≡ Err StepError.NotEnabled → MayNotBe P.stood P.left P.run.frame parts.now Event.Swap }
{
    if may_swap(parts) {
        Ok(Draft::nothing(alloc))
    } else {
        Err(StepError::NotEnabled)
    }
}

// Whether fewer than all wires but one were given up.
fn may_swap<P: OneRun>(parts: &Parts<P>) -> bool
    requires { Stands P.stood P.left P.run.frame parts.now }
    ensures { Is P.stood P.left P.run.frame parts.now (λ w. result ≡ may_swap P.run.frame w) }
{
    parts.swaps < parts.numbers.wires.saturating_sub(1)
}

// A burst of a process that computes, on what the objects of its member were after so many entries.
fn bursts<P: OneRun>(
    parts: &Parts<P>,
    alloc: Global,
    machine: &P,
    process: ProcessNo,
    place: u64,
    turns: u32,
) -> Result<Draft<P>, StepError>
    requires stands { Stands P.stood P.left P.run.frame parts.now }
    requires going { Is P.stood P.left P.run.frame parts.now (λ w. standing P.run.frame w ≡ Going) }
    ensures drafts { IfOk result (Drafts P.stood P.left P.run.frame parts.now (Event.Burst process place turns)) }
    ensures refused { result ≡ Err StepError.NotEnabled → MayNotBe P.stood P.left P.run.frame parts.now (Event.Burst process place turns) }
{
    if may_burst(parts, process, place) {
        computes(parts, alloc, machine, process, place, turns)
    } else {
        Err(StepError::NotEnabled)
    }
}

// Whether the process computes on a living member, and the place lies between its own and what its member applied.
fn may_burst<P: OneRun>(parts: &Parts<P>, process: ProcessNo, place: u64) -> bool
    requires { Stands P.stood P.left P.run.frame parts.now }
    ensures { Is P.stood P.left P.run.frame parts.now (λ w. result ≡ may_burst P.run.frame w process.0 place) }
{
    parts.computes(process) && is_between(parts, process, place)
}

// Whether the place lies between the process's and what its member applied.
fn is_between<P: OneRun>(parts: &Parts<P>, process: ProcessNo, place: u64) -> bool
    requires { Stands P.stood P.left P.run.frame parts.now }
    ensures { Is P.stood P.left P.run.frame parts.now (λ w.
        result ≡ is_between place (w.nodes (home_of P.run.frame w process.0)).member.applied (played_in P.run.frame w process.0)) }
{
    let applied = applied_for(parts, process);
    match parts.resident(process) {
        Some(resident) => lies_between(resident, place, applied),
        None => false,
    }
}

// Whether the place lies between the process's and this one.
fn lies_between<S: Drop>(resident: &Resident<S>, place: u64, applied: u64) -> bool
    ensures { result ≡ (nat_le resident.now.place place && nat_le place applied) }
{
    resident.place() <= place && place <= applied
}

// How many entries the process's member applied.
fn applied_for<P: OneRun>(parts: &Parts<P>, process: ProcessNo) -> u64
    requires { Stands P.stood P.left P.run.frame parts.now }
    ensures { Is P.stood P.left P.run.frame parts.now (λ w. result ≡ (w.nodes (home_of P.run.frame w process.0)).member.applied) }
{
    let home = parts.home_of(process);
    let node = parts.member_of(home);
    node.member().applied()
}

// The process computes there. It is refused where it takes other turns.
fn computes<P: OneRun>(
    parts: &Parts<P>,
    alloc: Global,
    machine: &P,
    process: ProcessNo,
    place: u64,
    turns: u32,
) -> Result<Draft<P>, StepError>
    requires stands { Stands P.stood P.left P.run.frame parts.now }
    requires going { Is P.stood P.left P.run.frame parts.now (λ w. standing P.run.frame w ≡ Going) }
    requires may { Is P.stood P.left P.run.frame parts.now (λ w. may_burst P.run.frame w process.0 place ≡ true) }
    ensures drafts { IfOk result (Drafts P.stood P.left P.run.frame parts.now (Event.Burst process place turns)) }
    ensures refused { result ≡ Err StepError.NotEnabled → MayNotBe P.stood P.left P.run.frame parts.now (Event.Burst process place turns) }
{
    replay_law(machine);
    run_law::run_law(machine);
    let home = parts.home_of(process);
    let before = parts.member_of(home);
    let view = view_at(parts, alloc, machine, home, place)?;
    let start = parts.turns_of(process);
    let budget = budget(parts, start);
    let ran = run_on(alloc, machine, before, process, view, budget)?;
    if ran.turns - start == u64::from(turns) {
        Ok(with_burst(alloc, home, ran)?)
    } else {
        Err(StepError::NotEnabled)
    }
}

/// The turns of a burst of a process that took so many: no more than it has left.
pub(crate) fn budget<P: OneRun>(parts: &Parts<P>, turns: u64) -> u32
    ensures { result ≡ min BURST_TURNS (parts.now.numbers.turns - turns) }
{
    u64::from(BURST_TURNS).min(parts.numbers.turns.saturating_sub(turns)) as u32
}

// What a member's objects were after so many entries.
fn view_at<P: OneRun>(
    parts: &Parts<P>,
    alloc: Global,
    machine: &P,
    member: u8,
    place: u64,
) -> Result<View, NoMemory>
    requires stands { Stands P.stood P.left P.run.frame parts.now }
    requires going { Is P.stood P.left P.run.frame parts.now (λ w. standing P.run.frame w ≡ Going) }
    requires within { member < P.run.frame.settings.nodes }
    requires low { Is P.stood P.left P.run.frame parts.now (λ w. place ≤ (w.nodes member).member.applied) }
    ensures { IfOk result (λ view. Is P.stood P.left P.run.frame parts.now (λ w. view ≡ view_at P.run.frame (w.nodes member) place)) }
{
    run_law::run_law(machine);
    let node = parts.member_of(member);
    if place == node.copies().applied() {
        node.copies().view(alloc)
    } else {
        let entries = parts.ledger.entries();
        node.view_after(alloc, machine, &entries[..place as usize])
    }
}

// The action of a process is carried out.
fn carries_out<P: OneRun>(
    parts: &Parts<P>,
    alloc: Global,
    machine: &P,
    process: ProcessNo,
) -> Result<Draft<P>, StepError>
    requires stands { Stands P.stood P.left P.run.frame parts.now }
    requires going { Is P.stood P.left P.run.frame parts.now (λ w. standing P.run.frame w ≡ Going) }
    ensures drafts { IfOk result (Drafts P.stood P.left P.run.frame parts.now (Event.Act process)) }
    ensures refused { result ≡ Err StepError.NotEnabled → MayNotBe P.stood P.left P.run.frame parts.now (Event.Act process) }
{
    parts_fit_apart(machine);
    walking_law();
    if parts.may_act(process) {
        let mut draft = Draft::nothing(alloc);
        let home = parts.home_of(process);
        let before = parts.member_of(home);
        acts_at(parts, alloc, machine, before, process, &mut draft)?;
        Ok(draft)
    } else {
        Err(StepError::NotEnabled)
    }
}

// A copy of a packet comes to its receiver, where that lives and the copy is whole.
fn delivers<P: OneRun>(
    parts: &Parts<P>,
    alloc: Global,
    machine: &P,
    packet: u64,
    copy: u8,
) -> Result<Draft<P>, StepError>
    requires stands { Stands P.stood P.left P.run.frame parts.now }
    requires going { Is P.stood P.left P.run.frame parts.now (λ w. standing P.run.frame w ≡ Going) }
    ensures drafts { IfOk result (Drafts P.stood P.left P.run.frame parts.now (Event.Deliver packet copy)) }
    ensures refused { result ≡ Err StepError.NotEnabled → MayNotBe P.stood P.left P.run.frame parts.now (Event.Deliver packet copy) }
{
    if parts.net.is_ready(packet, copy) {
        Ok(arrives(parts, alloc, machine, packet, copy)?)
    } else {
        Err(StepError::NotEnabled)
    }
}

// The copy comes to its receiver, where that lives and the copy is whole.
fn arrives<P: OneRun>(
    parts: &Parts<P>,
    alloc: Global,
    machine: &P,
    packet: u64,
    copy: u8,
) -> Result<Draft<P>, NoMemory>
    requires stands { Stands P.stood P.left P.run.frame parts.now }
    requires going { Is P.stood P.left P.run.frame parts.now (λ w. standing P.run.frame w ≡ Going) }
    requires ready { is_some (ready_copy packet copy parts.now.net.flights) ≡ true }
    ensures { IfOk result (Drafts P.stood P.left P.run.frame parts.now (Event.Deliver packet copy)) }
{
    parts_fit_apart(machine);
    walking_law();
    spelling_law();
    let mut draft = Draft::nothing(alloc);
    let flight = parts.net.look(packet, copy);
    if !parts.lives(flight.to) {
        return Ok(draft);
    }
    match read_letter(alloc, flight.packet.as_slice())? {
        Some(one) => {
            let before = parts.member_of(flight.to);
            comes_to(parts, alloc, machine, before, flight.from, one, &mut draft)?;
            Ok(draft)
        },
        None => Ok(draft),
    }
}

// The timers of the living members run, in increasing order.
fn ticks<P: OneRun>(parts: &Parts<P>, alloc: Global, machine: &P) -> Result<Draft<P>, StepError>
    requires stands { Stands P.stood P.left P.run.frame parts.now }
    requires going { Is P.stood P.left P.run.frame parts.now (λ w. standing P.run.frame w ≡ Going) }
    ensures drafts { IfOk result (Drafts P.stood P.left P.run.frame parts.now Event.Tick) }
    ensures refused { result ≡ Err StepError.NotEnabled → MayNotBe P.stood P.left P.run.frame parts.now Event.Tick }
{
    if parts.is_quiet() {
        Ok(all_tick(parts, alloc, machine)?)
    } else {
        Err(StepError::NotEnabled)
    }
}

// The timers of the living members run, where the moment is quiet.
fn all_tick<P: OneRun>(parts: &Parts<P>, alloc: Global, machine: &P) -> Result<Draft<P>, NoMemory>
    requires stands { Stands P.stood P.left P.run.frame parts.now }
    requires going { Is P.stood P.left P.run.frame parts.now (λ w. standing P.run.frame w ≡ Going) }
    requires quiet { Is P.stood P.left P.run.frame parts.now (λ w. is_quiet P.run.frame w ≡ true) }
    ensures { IfOk result (Drafts P.stood P.left P.run.frame parts.now Event.Tick) }
{
    let mut draft = Draft::nothing(alloc);
    'members: for member in 0..parts.numbers.nodes {
        tick(parts, alloc, machine, member, &mut draft)?;
    }
    Ok(draft)
}

// The timer of this member runs, if it lives.
fn tick<P: OneRun>(
    parts: &Parts<P>,
    alloc: Global,
    machine: &P,
    member: u8,
    draft: &mut Draft<P>,
) -> Result<(), NoMemory>
    requires stands { Stands P.stood P.left P.run.frame parts.now }
    requires going { Is P.stood P.left P.run.frame parts.now (λ w. standing P.run.frame w ≡ Going) }
    requires quiet { Is P.stood P.left P.run.frame parts.now (λ w. is_quiet P.run.frame w ≡ true) }
    requires within { member < P.run.frame.settings.nodes }
    requires drafted { Is P.stood P.left P.run.frame parts.now (λ w.
        Progress P.stood P.left P.run.frame parts.now w (ticking P.run.frame w P.run.frame.settings.nodes).world draft.old (ticking P.run.frame w member)) }
    ensures { OnOk result (Is P.stood P.left P.run.frame parts.now (λ w.
        Progress P.stood P.left P.run.frame parts.now w (ticking P.run.frame w P.run.frame.settings.nodes).world draft.new (ticking P.run.frame w (suc member)))) }
{
    parts_fit_apart(machine);
    walking_law();
    if parts.lives(member) {
        let before = parts.member_of(member);
        ticks_at(parts, alloc, machine, before, draft)?;
    }
    Ok(())
}

// A member suspects its sequencer.
fn suspects<P: OneRun>(
    parts: &Parts<P>,
    alloc: Global,
    machine: &P,
    member: u8,
) -> Result<Draft<P>, StepError>
    requires stands { Stands P.stood P.left P.run.frame parts.now }
    requires going { Is P.stood P.left P.run.frame parts.now (λ w. standing P.run.frame w ≡ Going) }
    ensures drafts { IfOk result (Drafts P.stood P.left P.run.frame parts.now (Event.Suspect member)) }
    ensures refused { result ≡ Err StepError.NotEnabled → MayNotBe P.stood P.left P.run.frame parts.now (Event.Suspect member) }
{
    parts_fit_apart(machine);
    walking_law();
    if parts.lives(member) {
        let mut draft = Draft::nothing(alloc);
        let before = parts.member_of(member);
        suspects_at(parts, alloc, machine, before, &mut draft)?;
        Ok(draft)
    } else {
        Err(StepError::NotEnabled)
    }
}

// ---- members' parts

// A process's action is carried out at its member.
fn acts_at<P: OneRun>(
    parts: &Parts<P>,
    alloc: Global,
    machine: &P,
    before: &Node<P>,
    process: ProcessNo,
    draft: &mut Draft<P>,
) -> Result<(), NoMemory>
    requires { MayAdd P.stood P.left P.run.frame (fitness_of (P.fits_state machine.now) (P.fits_args machine.now) (P.fits_text machine.now) (P.fits_reply machine.now)) parts.now before.now (Acts process.0) draft.old }
    ensures { OnOk result (AddsPart P.stood P.left P.run.frame (fitness_of (P.fits_state machine.now) (P.fits_args machine.now) (P.fits_text machine.now) (P.fits_reply machine.now)) parts.now before.now (Acts process.0) draft.old draft.new) }
{
    let copy = before.copy(alloc)?;
    let (after, moved) = copy.act(alloc, machine, process)?;
    let listed = listed(parts);
    draft.add_part(alloc, listed, before, after, moved)?;
    Ok(())
}

// A packet comes to a member.
fn comes_to<P: OneRun>(
    parts: &Parts<P>,
    alloc: Global,
    machine: &P,
    before: &Node<P>,
    from: u8,
    packet: Packet<Shared<Message>>,
    draft: &mut Draft<P>,
) -> Result<(), NoMemory>
    requires { MayAddLetter P.stood P.left P.run.frame (fitness_of (P.fits_state machine.now) (P.fits_args machine.now) (P.fits_text machine.now) (P.fits_reply machine.now)) parts.now before.now from packet draft.old }
    ensures { OnOk result (AddsLetter P.stood P.left P.run.frame (fitness_of (P.fits_state machine.now) (P.fits_args machine.now) (P.fits_text machine.now) (P.fits_reply machine.now)) parts.now before.now from packet draft.old draft.new) }
{
    let copy = before.copy(alloc)?;
    let (after, moved) = copy.deliver(alloc, machine, from, packet)?;
    let listed = listed(parts);
    draft.add_part(alloc, listed, before, after, moved)?;
    Ok(())
}

// A member's timer runs.
fn ticks_at<P: OneRun>(
    parts: &Parts<P>,
    alloc: Global,
    machine: &P,
    before: &Node<P>,
    draft: &mut Draft<P>,
) -> Result<(), NoMemory>
    requires { MayAdd P.stood P.left P.run.frame (fitness_of (P.fits_state machine.now) (P.fits_args machine.now) (P.fits_text machine.now) (P.fits_reply machine.now)) parts.now before.now Ticks draft.old }
    ensures { OnOk result (AddsPart P.stood P.left P.run.frame (fitness_of (P.fits_state machine.now) (P.fits_args machine.now) (P.fits_text machine.now) (P.fits_reply machine.now)) parts.now before.now Ticks draft.old draft.new) }
{
    let copy = before.copy(alloc)?;
    let (after, moved) = copy.tick(alloc, machine)?;
    let listed = listed(parts);
    draft.add_part(alloc, listed, before, after, moved)?;
    Ok(())
}

// A member suspects its sequencer.
fn suspects_at<P: OneRun>(
    parts: &Parts<P>,
    alloc: Global,
    machine: &P,
    before: &Node<P>,
    draft: &mut Draft<P>,
) -> Result<(), NoMemory>
    requires { MayAdd P.stood P.left P.run.frame (fitness_of (P.fits_state machine.now) (P.fits_args machine.now) (P.fits_text machine.now) (P.fits_reply machine.now)) parts.now before.now Suspects draft.old }
    ensures { OnOk result (AddsPart P.stood P.left P.run.frame (fitness_of (P.fits_state machine.now) (P.fits_args machine.now) (P.fits_text machine.now) (P.fits_reply machine.now)) parts.now before.now Suspects draft.old draft.new) }
{
    let copy = before.copy(alloc)?;
    let (after, moved) = copy.suspect(alloc, machine)?;
    let listed = listed(parts);
    draft.add_part(alloc, listed, before, after, moved)?;
    Ok(())
}

// How many entries the list of the run has.
fn listed<P: OneRun>(parts: &Parts<P>) -> u64
    ensures { result ≡ length parts.now.ledger.entries }
{
    parts.ledger.entries().len() as u64
}
