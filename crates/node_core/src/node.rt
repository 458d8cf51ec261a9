//! One member with its copies and processes.

ghost use Rattle.std.specs.Prelude.{◌≡◌, ◌<◌, ◌*◌, ℕ, IfOk, List, OnOk, map, None, Some, slice_get, slice_index_or, true};
ghost use Rattle.std.specs.Option.{option_copied};
ghost use Rattle.object_manager.specs.Singles.{IsMake};
ghost use Rattle.group_member.specs.StandsFor.{Follows};
ghost use Rattle.book_law.specs.Passes.{is_passed};
ghost use Rattle.world_rules.specs.Frame.{Frame, bytes_of, choice_in, is_single, name_of};
ghost use Rattle.world_rules.specs.Nodes.{opening_node, opening_processes};
ghost use Rattle.world_rules.specs.Processes.{Begun, home_in, singles_of};
ghost use Rattle.node_core.specs.Calls.{HasMoved, given_at};
ghost use Rattle.node_core.specs.Entries.{KnowsAs};
ghost use Rattle.node_core.specs.Keeping.{IsCopy};
ghost use Rattle.node_core.specs.Pieces.{HasPut, resident_at};
ghost use Rattle.node_parts.specs.Shown.{IsPlayedIf};
ghost use Rattle.node_core.specs.Stands.{StandsAlike, StandsAs, on_known};
ghost use Rattle.node_parts.specs.declared.resident.Resident.{Resident};

use crate::places::put_at;
use group_member::{Config, Member};
use history_buffer::Shared;
use node_parts::{Errand, Given, Kept, OneRun, Resident, Stage};
use object_manager::Copies;
use orca_base::{Choice, Items, NoMemory, ObjectId, ProcessNo, TextNo};
use std::alloc::Global;
use value_core::{Action, Message, Parts};

/// What a member knows of a process: its text, and the member at which it began.
#[derive(Clone, Copy, Debug, PartialEq, Eq)]
pub struct Known {
    pub text: TextNo,
    pub home: u8,
}

/// One member of a run: its state in the group, its copies, and the processes that began here.
pub struct Node<P: OneRun> {
    pub(crate) member: Member<Shared<Message>>,
    pub(crate) copies: Copies,
    pub(crate) known: Vec<Known>,
    pub(crate) residents: Vec<Option<Resident<P::State>>>,
    pub(crate) held: Vec<Errand>,
    pub(crate) given: Vec<Option<Given>>,
    pub(crate) choices: Kept<Items<Items<Choice>>>,
}

// By hand, so that a node that is dropped is one call, and isn't laid out part by part wherever that happens.
impl<P: OneRun> Drop for Node<P> {
    fn drop(self) {
        let Node {
            member: _member,
            copies: _copies,
            known: _known,
            residents: _residents,
            held: _held,
            given: _given,
            choices: _choices,
        } = self;
    }
}

impl<P: OneRun> Node<P> {
    /// Member `me` as all members begin, with these choices of copies. Process 0 is on member 0. By the run's settings it is the member of
    /// that number before the run's first event.
    pub fn new(
        alloc: Global,
        machine: &P,
        config: Config,
        me: u8,
        choices: Kept<Items<Items<Choice>>>,
    ) -> Result<Node<P>, NoMemory>
        requires me { me < config.nodes }
        requires few { 2 * config.resilience < config.nodes }
        ensures opens { config.nodes ≡ P.run.frame.settings.nodes → config.resilience ≡ P.run.frame.settings.resilience →
            choices ≡ P.run.frame.settings.choices →
            IfOk result (λ node. StandsAs P.stood P.left P.run.frame me node (opening_node P.run.frame me)) }
        ensures out { IfOk result (λ node. (i : ℕ) (s : Resident P.State) → resident_at node i ≡ Some s → s.out ≡ None) }
    {
        let text = machine.main_text();
        let mut known = Vec::new(alloc);
        known.push(Known { text, home: 0 })?;
        let residents = opening_residents(alloc, machine, text, me)?;
        let copies = Copies::opening(alloc)?;
        let member = Member::new(alloc, config, me)?;
        Ok(Node {
            member,
            copies,
            known,
            residents,
            held: Vec::new(alloc),
            given: Vec::new(alloc),
            choices,
        })
    }

    /// A node that stands for whatever this one stands for, and shares with it what it can.
    pub fn copy(&self, alloc: Global) -> Result<Node<P>, NoMemory>
        ensures alike { IfOk result (StandsAlike P.stood P.left self.now) }
        ensures same { IfOk result (IsCopy self.now) }
    {
        let choices = self.choices.copy()?;
        let (residents, held, given) = self.copy_own(alloc)?;
        let (member, copies, known) = self.copy_common(alloc)?;
        Ok(Node {
            member,
            copies,
            known,
            residents,
            held,
            given,
            choices,
        })
    }

    // Equal copies of what the members have in common: the state in the group, the copies, and the processes known.
    fn copy_common(
        &self,
        alloc: Global,
    ) -> Result<(Member<Shared<Message>>, Copies, Vec<Known>), NoMemory>
        ensures member { IfOk result (λ parts. Follows name_of bytes_of self.now.member parts.0 (λ g which m. m)) }
        ensures same { IfOk result (λ parts. (parts.1 ≡ self.now.copies) × (parts.2.items ≡ self.now.known.items)) }
    {
        let known = Vec::from_slice(alloc, self.known.as_slice())?;
        let copies = self.copies.copy(alloc)?;
        let member = self.member.copy(alloc)?;
        Ok((member, copies, known))
    }

    // Equal copies of what is its own: its processes, and the Asks and Answers that it keeps.
    fn copy_own(
        &self,
        alloc: Global,
    ) -> Result<
        (
            Vec<Option<Resident<P::State>>>,
            Vec<Errand>,
            Vec<Option<Given>>,
        ),
        NoMemory,
    >
        ensures { IfOk result (λ parts. (parts.0.items ≡ self.now.residents.items) × (parts.1.items ≡ self.now.held.items) ×
            (parts.2.items ≡ self.now.given.items)) }
    {
        let residents = copy_residents(alloc, self.residents.as_slice())?;
        let held = copy_held(alloc, self.held.as_slice())?;
        let given = copy_given(alloc, self.given.as_slice())?;
        Ok((residents, held, given))
    }

    /// Its state in the group.
    pub fn member(&self) -> &Member<Shared<Message>>
        ensures { result.now ≡ self.now.member }
    {
        &self.member
    }

    /// Its copies.
    pub fn copies(&self) -> &Copies
        ensures { result.now ≡ self.now.copies }
    {
        &self.copies
    }

    /// The processes that it knows, by their numbers.
    pub fn known(&self) -> &[Known]
        ensures { result.now ≡ self.now.known.items }
    {
        self.known.as_slice()
    }

    /// The process, where it began here.
    pub fn resident(&self, process: ProcessNo) -> Option<&Resident<P::State>>
        ensures { option_copied result ≡ resident_at self.now process.0 }
    {
        match self.residents.get(process.0 as usize) {
            Some(Some(resident)) => Some(resident),
            _ => None,
        }
    }

    // The last Answer that it gave the process.
    pub(crate) fn answer_to(&self, process: ProcessNo) -> Option<&Given>
        ensures { option_copied result ≡ given_at self.now process.0 }
    {
        match self.given.get(process.0 as usize) {
            Some(Some(given)) => Some(given),
            _ => None,
        }
    }

    /// The Asks and Answers that came and whose place it hasn't reached, in order of arrival.
    pub fn held(&self) -> &[Errand]
        ensures { result.now ≡ self.now.held.items }
    {
        self.held.as_slice()
    }

    // Its own number.
    pub(crate) fn me(&self) -> u8
        ensures { result ≡ self.now.member.me }
    {
        self.member.me()
    }

    /// The member of a process; processes that it doesn't know count as member 0's.
    pub fn home_of(&self, process: u16) -> u8
        ensures { (processes : List Begun) → self.now.known.items ≡ map on_known processes → result ≡ home_in processes process }
    {
        match self.known.get(process as usize) {
            Some(known) => known.home,
            None => 0,
        }
    }

    // Whether the object is single, as far as its maker is known.
    pub(crate) fn is_single(&self, object: ObjectId) -> bool
        ensures { (f : Frame) (processes : List Begun) → self.now.known.items ≡ map on_known processes → self.now.choices ≡ f.settings.choices → result ≡ singles_of f processes object }
    {
        match self.known.get(object.process as usize) {
            Some(maker) => chooses_single(
                self.choices.value().as_slice(),
                maker.text,
                object.number,
            ),
            None => false,
        }
    }

    // Whether the action makes a single object.
    pub(crate) fn is_passed(&self, action: &Action) -> bool
        ensures make { result ≡ true → IsMake action.now }
        ensures single { (f : Frame) (processes : List Begun) → KnowsAs f processes self.now → result ≡ is_passed (singles_of f processes) action.now }
    {
        match action {
            Action::Make { object, .. } => self.is_single(*object),
            _ => false,
        }
    }

    // The process stands so from now on.
    pub(crate) fn put(&mut self, process: u16, resident: Resident<P::State>) -> Result<(), NoMemory>
        ensures { OnOk result (HasPut process resident self.old self.new) }
    {
        put_at(&mut self.residents, process as usize, resident)
    }

    // The process moves to another stage, where it began here.
    pub(crate) fn move_to(&mut self, process: u16, stage: Stage) -> Result<(), NoMemory>
        ensures { OnOk result (HasMoved process stage (resident_at self.old process) self.old self.new) }
    {
        let moved = match self.resident(ProcessNo(process)) {
            Some(resident) => resident.moved_to(stage)?,
            None => return Ok(()),
        };
        self.put(process, moved)
    }
}

// Whether this text's object of this number is chosen to be single.
fn chooses_single(choices: &[Items<Choice>], text: TextNo, number: u32) -> bool
    ensures { result ≡ is_single (choice_in (slice_get choices.now text.0) number) }
{
    match choices.get(text.0 as usize) {
        Some(choices) => is_single_at(choices.as_slice(), number),
        None => false,
    }
}

// Whether the choice of this number, from 1, is to keep one copy.
fn is_single_at(choices: &[Choice], number: u32) -> bool
    ensures { result ≡ is_single (choice_in (Some choices.now) number) }
{
    if number == 0 {
        return false;
    }
    match choices.get(number as usize - 1) {
        Some(choice) => *choice == Choice::Single,
        None => false,
    }
}

// The processes at the start: process 0, on member 0.
fn opening_residents<P: OneRun>(
    alloc: Global,
    machine: &P,
    text: TextNo,
    me: u8,
) -> Result<Vec<Option<Resident<P::State>>>, NoMemory>
    requires { text ≡ (P.computes machine.now).main }
    ensures opens { IfOk result (λ residents. (i : ℕ) →
        IsPlayedIf P.stood P.left i (slice_index_or residents.items i None) (opening_processes P.run.frame me i)) }
    ensures out { IfOk result (λ residents. (i : ℕ) (s : Resident P.State) → slice_index_or residents.items i None ≡ Some s → s.out ≡ None) }
{
    let mut residents = Vec::new(alloc);
    if me != 0 {
        return Ok(residents);
    }
    let args = Parts::new(alloc);
    let state = machine.start(alloc, text, ProcessNo::MAIN, &args)?;
    residents.push(Some(Resident::newborn(alloc, state, 0)?))?;
    Ok(residents)
}

// An equal list of processes.
fn copy_residents<S: Drop>(
    alloc: Global,
    residents: &[Option<Resident<S>>],
) -> Result<Vec<Option<Resident<S>>>, NoMemory>
    ensures { IfOk result (λ copied. copied.items ≡ residents.now) }
{
    let mut copied = Vec::new(alloc);
    'residents: for resident in residents {
        copied.push(copy_resident(alloc, resident)?)?;
    }
    Ok(copied)
}

// An equal process, where there is one.
fn copy_resident<S: Drop>(
    alloc: Global,
    resident: &Option<Resident<S>>,
) -> Result<Option<Resident<S>>, NoMemory>
    ensures { IfOk result (λ copied. copied ≡ resident.now) }
{
    match resident {
        Some(resident) => Ok(Some(resident.copy(alloc)?)),
        None => Ok(None),
    }
}

// Equal Asks and Answers.
fn copy_held(alloc: Global, held: &[Errand]) -> Result<Vec<Errand>, NoMemory>
    ensures { IfOk result (λ copied. copied.items ≡ held.now) }
{
    let mut copied = Vec::new(alloc);
    'errands: for errand in held {
        copied.push(errand.copy(alloc)?)?;
    }
    Ok(copied)
}

// Equal answers that were given.
fn copy_given(alloc: Global, given: &[Option<Given>]) -> Result<Vec<Option<Given>>, NoMemory>
    ensures { IfOk result (λ copied. copied.items ≡ given.now) }
{
    let mut copied = Vec::new(alloc);
    'answers: for one in given {
        copied.push(copy_one(alloc, one)?)?;
    }
    Ok(copied)
}

// An equal answer, where there is one.
fn copy_one(alloc: Global, given: &Option<Given>) -> Result<Option<Given>, NoMemory>
    ensures { IfOk result (λ copied. copied ≡ given.now) }
{
    match given {
        Some(given) => Ok(Some(given.copy(alloc)?)),
        None => Ok(None),
    }
}
