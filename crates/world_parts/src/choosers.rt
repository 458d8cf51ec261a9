//! What may come next, and who is where. None of these takes memory, and none goes over what was sent, done or performed before.

ghost use Rattle.std.specs.Prelude.{◌≡◌, ◌≤◌, ◌<◌, ◌&&◌, ℕ, Some, false, if◌then◌else◌, not, option_map, slice_get};
ghost use Rattle.std.specs.Option.{option_copied};
ghost use Rattle.net_rules.specs.Flights.{first_ready};
ghost use Rattle.node_core.specs.Pieces.{resident_at};
ghost use Rattle.node_parts.specs.Shown.{IsPlayedIf, on_stage};
ghost use Rattle.object_manager.specs.Limits.{most_processes};
ghost use Rattle.world_facts.specs.Ends.{turns_in};
ghost use Rattle.world_rules.specs.Played as played;
ghost use Rattle.world_rules.specs.Standings as rules;
ghost use Rattle.world_rules.specs.Standings.{lives_at_home, process_count};
ghost use Rattle.world_rules.specs.Steps as events;
ghost use Rattle.world_rules.specs.Worlds.{agreed, applied_at, home_of, played_in};
ghost use Rattle.world_facts.specs.Logs.{longest_log};
ghost use Rattle.world_parts.specs.Choosing.{due_act, is_ready, may_compute};
ghost use Rattle.world_parts.specs.Seen.{is_out, outs, tasks_out};
ghost use Rattle.world_parts.specs.Standing.{Is, Stands, has_out, outs_of, seen_of};

use crate::parts::Parts;
use node_core::Node;
use node_parts::{OneRun, Resident, Stage};
use orca_base::ProcessNo;

impl<P: OneRun> Parts<P> {
    /// How many processes there are: a fork's from the moment when the first member applied it.
    pub fn process_count(&self) -> u16
        requires { Stands P.stood P.left P.run.frame self.now }
        ensures { Is P.stood P.left P.run.frame self.now (λ w. result ≡ process_count P.run.frame w) }
    {
        self.nodes[self.leader()].copies().processes()
    }

    /// The member of a process, which exists.
    pub fn home_of(&self, process: ProcessNo) -> u8
        requires { Stands P.stood P.left P.run.frame self.now }
        ensures { Is P.stood P.left P.run.frame self.now (λ w. result ≡ home_of P.run.frame w process.0) }
    {
        self.nodes[self.leader()].home_of(process.0)
    }

    /// The member of this number, which is one of the run's.
    pub fn member_of(&self, member: u8) -> &Node<P>
        requires stands { Stands P.stood P.left P.run.frame self.now }
        requires within { member < P.run.frame.settings.nodes }
        ensures { Some result.now ≡ slice_get self.now.nodes.items member }
    {
        match self.node(member) {
            Some(node) => node,
            None => unreachable!(),
        }
    }

    /// The turns that a process took in all: none before its member begins it.
    pub fn turns_of(&self, process: ProcessNo) -> u64
        requires { Stands P.stood P.left P.run.frame self.now }
        ensures { Is P.stood P.left P.run.frame self.now (λ w. result ≡ turns_in (played_in P.run.frame w process.0)) }
    {
        match self.resident(process) {
            Some(resident) => resident.turns(),
            None => 0,
        }
    }

    /// Whether the member of a process lives.
    pub fn lives_at_home(&self, process: ProcessNo) -> bool
        requires { Stands P.stood P.left P.run.frame self.now }
        ensures { Is P.stood P.left P.run.frame self.now (λ w. result ≡ lives_at_home P.run.frame w process.0) }
    {
        self.lives(self.home_of(process))
    }

    /// The length of the longest log of a member.
    pub fn longest_log(&self) -> u64
        requires { Stands P.stood P.left P.run.frame self.now }
        ensures { Is P.stood P.left P.run.frame self.now (λ w. result ≡ longest_log P.run.frame w) }
    {
        let mut longest = 0u64;
        'members: for member in 0..self.nodes.len() {
            let length = self.nodes[member].member().length();
            longest = longest.max(length);
        }
        longest
    }

    /// The lowest process on a living member whose action waits to be carried out.
    pub fn due_act(&self) -> Option<ProcessNo>
        requires { Stands P.stood P.left P.run.frame self.now }
        ensures { Is P.stood P.left P.run.frame self.now (λ w. option_map (λ i. i.0) result ≡ due_act P.run.frame w) }
    {
        'processes: for process in 0..self.process_count() {
            if self.may_act(ProcessNo(process)) {
                return Some(ProcessNo(process));
            }
        }
        None
    }

    /// Number and copy of the lowest copy of a packet that can be delivered.
    pub fn due_packet(&self) -> Option<(u64, u8)>
        ensures { Is P.stood P.left P.run.frame self.now (λ w. option_map (λ p. (p.0, p.1)) result ≡ first_ready w.flights) }
    {
        self.net.first_ready()
    }

    /// Whether the process computes on a living member, and no task of it is out.
    pub fn is_ready(&self, process: ProcessNo) -> bool
        requires { Stands P.stood P.left P.run.frame self.now }
        ensures { Is P.stood P.left P.run.frame self.now (λ w. result ≡ is_ready P.run.frame (seen_of self.now) w process.0) }
    {
        self.computes(process) && !self.is_out_at_home(process)
    }

    // Whether a task of the process is out at its member.
    fn is_out_at_home(&self, process: ProcessNo) -> bool
        requires { Stands P.stood P.left P.run.frame self.now }
        ensures { Is P.stood P.left P.run.frame self.now (λ w. result
            ≡ is_out (seen_of self.now) (home_of P.run.frame w process.0) process.0) }
    {
        match self.node(self.home_of(process)) {
            Some(node) => is_out(node.resident(process)),
            None => false,
        }
    }

    /// Whether the moment is quiet: no packet can be delivered, and no process on a living member computes or is at an action that wasn't
    /// carried out. So no task is out.
    pub fn is_quiet(&self) -> bool
        requires { Stands P.stood P.left P.run.frame self.now }
        ensures { Is P.stood P.left P.run.frame self.now (λ w. result ≡ rules.is_quiet P.run.frame w) }
    {
        !self.net.first_ready().is_some() && !self.some_busy()
    }

    // Whether a process on a living member computes or is at an action that wasn't carried out.
    fn some_busy(&self) -> bool
        requires { Stands P.stood P.left P.run.frame self.now }
        ensures { Is P.stood P.left P.run.frame self.now (λ w. result
            ≡ rules.some_process P.run.frame w (λ i r. rules.stands played.is_ready r)) }
    {
        'processes: for process in 0..self.process_count() {
            if self.is_busy(ProcessNo(process)) {
                return true;
            }
        }
        false
    }

    // Whether its member lives, and it computes or is at an action that wasn't carried out.
    fn is_busy(&self, process: ProcessNo) -> bool
        requires { Stands P.stood P.left P.run.frame self.now }
        ensures { Is P.stood P.left P.run.frame self.now (λ w. result
            ≡ (lives_at_home P.run.frame w process.0 && rules.stands played.is_ready (played_in P.run.frame w process.0))) }
    {
        self.lives_at_home(process) && self.is_at_work(process)
    }

    // Whether it computes or is at an action that wasn't carried out.
    fn is_at_work(&self, process: ProcessNo) -> bool
        requires { Stands P.stood P.left P.run.frame self.now }
        ensures { Is P.stood P.left P.run.frame self.now (λ w. result ≡ rules.stands played.is_ready (played_in P.run.frame w process.0)) }
    {
        match self.resident(process) {
            Some(resident) => is_working(resident.stage()),
            None => false,
        }
    }

    /// How many tasks are out.
    pub fn tasks_out(&self) -> u16
        requires { Stands P.stood P.left P.run.frame self.now }
        ensures { result ≡ tasks_out (seen_of self.now) }
    {
        let mut tasks = 0u16;
        'members: for member in 0..self.nodes.len() {
            tasks += outs_at(&self.nodes[member]);
        }
        tasks
    }

    // The member that applied most entries, the first of these.
    fn leader(&self) -> usize
        requires { Stands P.stood P.left P.run.frame self.now }
        ensures within { result < P.run.frame.settings.nodes }
        ensures leads { Is P.stood P.left P.run.frame self.now (λ w. applied_at w result ≡ agreed P.run.frame w) }
    {
        let mut leader = 0;
        let mut most = 0u64;
        'members: for member in 0..self.nodes.len() {
            let applied = self.nodes[member].member().applied();
            if applied > most {
                most = applied;
                leader = member;
            }
        }
        leader
    }

    /// The member of this number.
    pub fn node(&self, member: u8) -> Option<&Node<P>>
        ensures { option_copied result ≡ slice_get self.now.nodes.items member }
    {
        self.nodes.get(member as usize)
    }

    /// The process, as its member knows it.
    pub fn resident(&self, process: ProcessNo) -> Option<&Resident<P::State>>
        requires { Stands P.stood P.left P.run.frame self.now }
        ensures { Is P.stood P.left P.run.frame self.now (λ w. IsPlayedIf P.stood P.left process.0 (option_copied result) (played_in P.run.frame w process.0)) }
    {
        match self.node(self.home_of(process)) {
            Some(node) => node.resident(process),
            None => None,
        }
    }

    /// Whether its member lives, and its action wasn't carried out.
    pub fn may_act(&self, process: ProcessNo) -> bool
        requires { Stands P.stood P.left P.run.frame self.now }
        ensures { Is P.stood P.left P.run.frame self.now (λ w. result ≡ events.may_act P.run.frame w process) }
    {
        self.lives_at_home(process) && self.is_acting(process)
    }

    // Whether its action wasn't carried out.
    fn is_acting(&self, process: ProcessNo) -> bool
        requires { Stands P.stood P.left P.run.frame self.now }
        ensures { Is P.stood P.left P.run.frame self.now (λ w. result ≡ events.may_act_as (played_in P.run.frame w process.0)) }
    {
        match self.resident(process) {
            Some(resident) => is_acting(resident.stage()),
            None => false,
        }
    }

    /// Whether its member lives, and it computes.
    pub fn computes(&self, process: ProcessNo) -> bool
        requires { Stands P.stood P.left P.run.frame self.now }
        ensures { Is P.stood P.left P.run.frame self.now (λ w. result ≡ may_compute P.run.frame w process.0) }
    {
        self.lives_at_home(process) && self.is_computing(process)
    }

    // Whether it computes.
    fn is_computing(&self, process: ProcessNo) -> bool
        requires { Stands P.stood P.left P.run.frame self.now }
        ensures { Is P.stood P.left P.run.frame self.now (λ w. result ≡ rules.stands played.is_computing (played_in P.run.frame w process.0)) }
    {
        match self.resident(process) {
            Some(resident) => is_computing(resident.stage()),
            None => false,
        }
    }
}

// How many tasks are out at a member, which knows no process beyond those that its copies count.
fn outs_at<P: OneRun>(node: &Node<P>) -> u16
    requires { (i : ℕ) → node.now.copies.processes ≤ i → has_out (resident_at node.now i) ≡ false }
    ensures outs { result ≡ outs (outs_of node.now) }
    ensures few { result ≤ most_processes }
{
    let mut tasks = 0u16;
    'processes: for process in 0..node.copies().processes() {
        tasks += out_of(node.resident(ProcessNo(process)));
    }
    tasks
}

// How many tasks of it are out, where it is here: one or none.
fn out_of<S: Drop>(resident: Option<&Resident<S>>) -> u16
    ensures { result ≡ (if has_out (option_copied resident.entry) then 1 else 0) }
{
    if is_out(resident) { 1 } else { 0 }
}

// Whether a task of it is out, where it is here.
fn is_out<S: Drop>(resident: Option<&Resident<S>>) -> bool
    ensures { result ≡ has_out (option_copied resident.entry) }
{
    match resident {
        Some(resident) => resident.is_out(),
        None => false,
    }
}

// Whether it computes.
pub(crate) fn is_computing(stage: &Stage) -> bool
    ensures { result ≡ played.is_computing (on_stage stage.now) }
{
    matches!(stage, Stage::Computing)
}

// Whether it computes or is at an action that wasn't carried out.
fn is_working(stage: &Stage) -> bool
    ensures { result ≡ played.is_ready (on_stage stage.now) }
{
    matches!(stage, Stage::Computing | Stage::Acting { .. })
}

// Whether it is at an action that wasn't carried out.
fn is_acting(stage: &Stage) -> bool
    ensures { result ≡ events.is_acting (on_stage stage.now) }
{
    matches!(stage, Stage::Acting { .. })
}
