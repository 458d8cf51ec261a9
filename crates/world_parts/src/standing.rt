//! How a run stands.

ghost use Rattle.std.specs.Prelude.{◌≡◌, ◌<◌, ◌≤◌, ◌==◌, ◌&&◌, ◌||◌, ℕ, true, if◌then◌else◌, None, not, nat_le, option_map};
ghost use Rattle.orca_base.specs.declared.limits.TheConstants.{IDLE_TICKS};
ghost use Rattle.group_member.specs.StandsFor.{IsMember};
ghost use Rattle.group_rules.specs.Sets.{count};
ghost use Rattle.history_buffer.specs.Window.{last_number};
ghost use Rattle.group_rules.specs.Steps.{is_empty};
ghost use Rattle.node_parts.specs.Shown.{on_stage};
ghost use Rattle.node_core.specs.Stands.{StandsAs};
ghost use Rattle.run_law.specs.Limits.{StopsBefore, limit_of};
ghost use Rattle.world_rules.specs.Frame.{Frame};
ghost use Rattle.world_rules.specs.Nodes as nodes;
ghost use Rattle.world_rules.specs.Played as played;
ghost use Rattle.world_rules.specs.Standings as rules;
ghost use Rattle.world_rules.specs.Worlds.{agreed, home_of, played_in};
ghost use Rattle.world_parts.specs.Choosing.{spent_process};
ghost use Rattle.world_parts.specs.Rows.{Stops, has_applied_all, has_nothing_left, how_ended, is_lost, waits_at, waits_on};
ghost use Rattle.world_parts.specs.Standing.{Is, Stands};

use crate::choosers::is_computing;
use crate::parts::Parts;
use group_member::standing_law;
use history_buffer::Slot;
use node_core::Node;
use node_parts::{OneRun, Resident, Stage};
use orca_base::{HISTORY_LINES, IDLE_TICKS, OBJECTS, ObjectId, PROCESSES, ProcessNo, What};
use value_core::{Action, Message, Reply};
use world_rules::Standing;

impl<P: OneRun> Parts<P> {
    /// How the run stands: the first row of the table that holds (docs/RUNTIME.md, The world of a run).
    pub fn standing(&self) -> Standing
        requires { Stands P.stood P.left P.run.frame self.now }
        ensures { Is P.stood P.left P.run.frame self.now (λ w. result ≡ rules.standing P.run.frame w) }
    {
        match self.limit() {
            Some(passed) => Standing::Limit {
                what: passed.0,
                number: passed.1,
            },
            None => self.within_limits(),
        }
    }

    // How the run stands where no limit stops it.
    fn within_limits(&self) -> Standing
        requires { Stands P.stood P.left P.run.frame self.now }
        ensures { Is P.stood P.left P.run.frame self.now (λ w. result ≡ rules.after_limit P.run.frame w None) }
    {
        if self.is_out_of_turns() {
            return Standing::OutOfTurns;
        }
        if self.is_out_of_events() {
            return Standing::OutOfEvents;
        }
        if self.is_no_group() {
            return Standing::NoGroup;
        }
        if self.is_over() {
            self.how_ended()
        } else {
            Standing::Going
        }
    }

    // How the run stands where it is over.
    fn how_ended(&self) -> Standing
        requires { Stands P.stood P.left P.run.frame self.now }
        ensures { Is P.stood P.left P.run.frame self.now (λ w.
            result ≡ how_ended (rules.has_fault P.run.frame w) (rules.all_ended P.run.frame w)) }
    {
        if self.has_fault() {
            return Standing::Faulted;
        }
        if self.all_ended() {
            return Standing::Finished;
        }
        Standing::Blocked
    }

    // ---- limits

    // The limit that the next application of a living member would pass, or that of lines.
    fn limit(&self) -> Option<(What, u64)>
        requires { Stands P.stood P.left P.run.frame self.now }
        ensures { Is P.stood P.left P.run.frame self.now (λ w. option_map (λ p. (p.0, p.1)) result ≡ rules.limit P.run.frame w) }
    {
        match self.members_limit() {
            Some(passed) => Some(passed),
            None => self.lines_limit(),
        }
    }

    // The limit that the next application of the first such living member would pass.
    fn members_limit(&self) -> Option<(What, u64)>
        requires { Stands P.stood P.left P.run.frame self.now }
        ensures { Is P.stood P.left P.run.frame self.now (λ w.
            option_map (λ p. (p.0, p.1)) result ≡ rules.limit_below P.run.frame w P.run.frame.settings.nodes) }
    {
        'members: for member in 0..self.numbers.nodes {
            if let Some(passed) = self.limit_of_member(member) {
                return Some(passed);
            }
        }
        None
    }

    // The limit that the next application of the member would pass, where it lives.
    fn limit_of_member(&self, member: u8) -> Option<(What, u64)>
        requires stands { Stands P.stood P.left P.run.frame self.now }
        requires within { member < P.run.frame.settings.nodes }
        ensures { Is P.stood P.left P.run.frame self.now (λ w. Stops P.run.frame w member (option_map (λ p. (p.0, p.1)) result)) }
    {
        if self.lives(member) {
            self.limit_living(member)
        } else {
            None
        }
    }

    // The same of a member that lives.
    fn limit_living(&self, member: u8) -> Option<(What, u64)>
        requires stands { Stands P.stood P.left P.run.frame self.now }
        requires within { member < P.run.frame.settings.nodes }
        ensures { Is P.stood P.left P.run.frame self.now (λ w. w.lives member ≡ true →
            option_map (λ p. (p.0, p.1)) result ≡ rules.limit_at P.run.frame (w.nodes member)) }
    {
        match self.node(member) {
            Some(node) => limit_at(node),
            None => None,
        }
    }

    // The limit of lines, where the book has as many.
    fn lines_limit(&self) -> Option<(What, u64)>
        requires { Stands P.stood P.left P.run.frame self.now }
        ensures { Is P.stood P.left P.run.frame self.now (λ w. option_map (λ p. (p.0, p.1)) result ≡ rules.lines_limit P.run.frame w) }
    {
        let lines = self.ledger.lines();
        let most = u64::from(HISTORY_LINES);
        if lines >= most {
            Some((What::HistoryLines, most))
        } else {
            None
        }
    }

    // ---- turns and events

    /// The lowest process that has used its turns, and computes.
    pub fn spent_process(&self) -> Option<ProcessNo>
        requires { Stands P.stood P.left P.run.frame self.now }
        ensures { Is P.stood P.left P.run.frame self.now (λ w. option_map (λ i. i.0) result ≡ spent_process P.run.frame w) }
    {
        'processes: for process in 0..self.process_count() {
            if self.has_no_turns(ProcessNo(process)) {
                return Some(ProcessNo(process));
            }
        }
        None
    }

    // Whether a process has used its turns, and isn't at an action.
    fn is_out_of_turns(&self) -> bool
        requires { Stands P.stood P.left P.run.frame self.now }
        ensures { Is P.stood P.left P.run.frame self.now (λ w. result ≡ rules.is_out_of_turns P.run.frame w) }
    {
        'processes: for process in 0..self.process_count() {
            if self.has_no_turns(ProcessNo(process)) {
                return true;
            }
        }
        false
    }

    // Whether the process has used its turns, and isn't at an action.
    fn has_no_turns(&self, process: ProcessNo) -> bool
        requires { Stands P.stood P.left P.run.frame self.now }
        ensures { Is P.stood P.left P.run.frame self.now (λ w. result ≡ rules.has_no_turns P.run.frame (played_in P.run.frame w process.0)) }
    {
        match self.resident(process) {
            Some(resident) => is_spent(resident, self.numbers.turns),
            None => false,
        }
    }

    // Whether the stated number of events has happened.
    fn is_out_of_events(&self) -> bool
        requires { Stands P.stood P.left P.run.frame self.now }
        ensures { Is P.stood P.left P.run.frame self.now (λ w. result ≡ rules.is_out_of_events P.run.frame w) }
    {
        self.ledger.steps().len() as u64 >= self.numbers.events
    }

    // ---- the group

    // Whether more than r members are crashed or outside, and either no member lives, or the moment is quiet, a living process waits for
    // the group, and the last 200 ticks were idle.
    fn is_no_group(&self) -> bool
        requires { Stands P.stood P.left P.run.frame self.now }
        ensures { Is P.stood P.left P.run.frame self.now (λ w. result ≡ rules.is_no_group P.run.frame w) }
    {
        self.has_lost_too_many() && (self.nobody_lives() || self.waits_in_vain())
    }

    // Whether more than r members are crashed or outside.
    fn has_lost_too_many(&self) -> bool
        requires { Stands P.stood P.left P.run.frame self.now }
        ensures { Is P.stood P.left P.run.frame self.now (λ w. result ≡ rules.has_lost_too_many P.run.frame w) }
    {
        self.lost() > self.numbers.resilience
    }

    // Whether the moment is quiet, a living process waits for the group, and the last 200 ticks were idle.
    fn waits_in_vain(&self) -> bool
        requires { Stands P.stood P.left P.run.frame self.now }
        ensures { Is P.stood P.left P.run.frame self.now (λ w. result
            ≡ (rules.is_quiet P.run.frame w
            && (rules.some_process P.run.frame w (rules.waits_for_group P.run.frame w) && nat_le IDLE_TICKS w.idle))) }
    {
        self.is_quiet() && self.waits_idle()
    }

    // Whether a living process waits for the group, and the last 200 ticks were idle.
    fn waits_idle(&self) -> bool
        requires { Stands P.stood P.left P.run.frame self.now }
        ensures { Is P.stood P.left P.run.frame self.now (λ w. result
            ≡ (rules.some_process P.run.frame w (rules.waits_for_group P.run.frame w) && nat_le IDLE_TICKS w.idle)) }
    {
        self.some_wait() && self.idle >= u64::from(IDLE_TICKS)
    }

    // How many members are crashed or outside.
    fn lost(&self) -> u8
        requires { Stands P.stood P.left P.run.frame self.now }
        ensures { Is P.stood P.left P.run.frame self.now (λ w. result ≡ count P.run.frame.settings.nodes (is_lost w)) }
    {
        let mut lost = 0u8;
        'members: for member in 0..self.numbers.nodes {
            lost += self.lost_at(member);
        }
        lost
    }

    // One where the member is crashed or outside.
    fn lost_at(&self, member: u8) -> u8
        requires stands { Stands P.stood P.left P.run.frame self.now }
        requires within { member < P.run.frame.settings.nodes }
        ensures one { Is P.stood P.left P.run.frame self.now (λ w. result ≡ (if is_lost w member then 1 else 0)) }
        ensures few { result ≤ 1 }
    {
        if self.is_lost(member) { 1 } else { 0 }
    }

    // Whether the member is crashed or outside.
    fn is_lost(&self, member: u8) -> bool
        requires stands { Stands P.stood P.left P.run.frame self.now }
        requires within { member < P.run.frame.settings.nodes }
        ensures { Is P.stood P.left P.run.frame self.now (λ w. result ≡ is_lost w member) }
    {
        !self.lives(member) || self.is_outside(member)
    }

    // Whether the member is outside.
    fn is_outside(&self, member: u8) -> bool
        requires stands { Stands P.stood P.left P.run.frame self.now }
        requires within { member < P.run.frame.settings.nodes }
        ensures { Is P.stood P.left P.run.frame self.now (λ w. result ≡ (w.nodes member).member.outside) }
    {
        match self.node(member) {
            Some(node) => node.member().is_outside(),
            None => false,
        }
    }

    // Whether no member lives.
    fn nobody_lives(&self) -> bool
        requires { Stands P.stood P.left P.run.frame self.now }
        ensures { Is P.stood P.left P.run.frame self.now (λ w. result ≡ rules.nobody_lives P.run.frame w) }
    {
        'members: for member in 0..self.numbers.nodes {
            if self.lives(member) {
                return false;
            }
        }
        true
    }

    // Whether a process on a living member waits for the group.
    fn some_wait(&self) -> bool
        requires { Stands P.stood P.left P.run.frame self.now }
        ensures { Is P.stood P.left P.run.frame self.now (λ w.
            result ≡ rules.some_process P.run.frame w (rules.waits_for_group P.run.frame w)) }
    {
        'processes: for process in 0..self.process_count() {
            if self.waits_living(ProcessNo(process)) {
                return true;
            }
        }
        false
    }

    // Whether the process is on a living member, and waits for the group.
    fn waits_living(&self, process: ProcessNo) -> bool
        requires { Stands P.stood P.left P.run.frame self.now }
        ensures { Is P.stood P.left P.run.frame self.now (λ w. result
            ≡ (rules.lives_at_home P.run.frame w process.0
            && rules.waits_for_group P.run.frame w process.0 (played_in P.run.frame w process.0))) }
    {
        self.lives_at_home(process) && self.waits(process)
    }

    // Whether the process waits for the group: for its own fork, a message, a read, or a call that stands in the queue of no living owner
    // that isn't outside.
    fn waits(&self, process: ProcessNo) -> bool
        requires { Stands P.stood P.left P.run.frame self.now }
        ensures { Is P.stood P.left P.run.frame self.now (λ w. result
            ≡ rules.waits_for_group P.run.frame w process.0 (played_in P.run.frame w process.0)) }
    {
        match self.resident(process) {
            Some(resident) => self.waits_as(process, resident.stage()),
            None => true,
        }
    }

    // The same of a process at this stage.
    fn waits_as(&self, process: ProcessNo, stage: &Stage) -> bool
        requires { Stands P.stood P.left P.run.frame self.now }
        ensures { Is P.stood P.left P.run.frame self.now (λ w. result
            ≡ rules.waits_for_group_at P.run.frame w process.0 (on_stage stage.now)) }
    {
        match stage {
            Stage::Submitted { .. } | Stage::Reading { .. } => true,
            Stage::Asking { action } => !self.waits_at_owner(process, action),
            Stage::Computing | Stage::Acting { .. } | Stage::Over { .. } => false,
        }
    }

    // Whether the process's call stands in the queue of a living owner that isn't outside.
    fn waits_at_owner(&self, process: ProcessNo, action: &Action) -> bool
        requires { Stands P.stood P.left P.run.frame self.now }
        ensures { Is P.stood P.left P.run.frame self.now (λ w. result
            ≡ rules.waits_at_owner P.run.frame w process.0 action.now) }
    {
        match action {
            Action::Call { object, .. } => self.waits_on(process, *object),
            _ => false,
        }
    }

    // Whether a call of the process stands in the queue of this object's owner, which lives and isn't outside.
    fn waits_on(&self, process: ProcessNo, object: ObjectId) -> bool
        requires { Stands P.stood P.left P.run.frame self.now }
        ensures { Is P.stood P.left P.run.frame self.now (λ w. result ≡ waits_on P.run.frame w process.0 object) }
    {
        let owner = ProcessNo(object.process);
        self.lives_at_home(owner) && self.waits_at_home(process, owner)
    }

    // Whether a call of the process stands in the queue of the member of this other process, which isn't outside.
    fn waits_at_home(&self, process: ProcessNo, owner: ProcessNo) -> bool
        requires { Stands P.stood P.left P.run.frame self.now }
        ensures { Is P.stood P.left P.run.frame self.now (λ w. result ≡ waits_at w process.0 (home_of P.run.frame w owner.0)) }
    {
        match self.node(self.home_of(owner)) {
            Some(node) => waits_at(node, process),
            None => false,
        }
    }

    // ---- the end

    // Whether each process on a living member has ended, or all rest.
    fn is_over(&self) -> bool
        requires { Stands P.stood P.left P.run.frame self.now }
        ensures { Is P.stood P.left P.run.frame self.now (λ w. result ≡ rules.is_over_run P.run.frame w) }
    {
        self.all_ended() || self.all_rest()
    }

    // Whether each process on a living member has ended or faulted.
    fn all_ended(&self) -> bool
        requires { Stands P.stood P.left P.run.frame self.now }
        ensures { Is P.stood P.left P.run.frame self.now (λ w. result ≡ rules.all_ended P.run.frame w) }
    {
        'processes: for process in 0..self.process_count() {
            if !self.has_ended(ProcessNo(process)) {
                return false;
            }
        }
        true
    }

    // Whether the process has ended or faulted, where its member lives.
    fn has_ended(&self, process: ProcessNo) -> bool
        requires { Stands P.stood P.left P.run.frame self.now }
        ensures { Is P.stood P.left P.run.frame self.now (λ w. result
            ≡ (not (rules.lives_at_home P.run.frame w process.0) || rules.stands played.is_over (played_in P.run.frame w process.0))) }
    {
        !self.lives_at_home(process) || self.is_over_at(process)
    }

    // Whether the process has ended or faulted.
    fn is_over_at(&self, process: ProcessNo) -> bool
        requires { Stands P.stood P.left P.run.frame self.now }
        ensures { Is P.stood P.left P.run.frame self.now (λ w. result
            ≡ rules.stands played.is_over (played_in P.run.frame w process.0)) }
    {
        match self.resident(process) {
            Some(resident) => is_over(resident.stage()),
            None => false,
        }
    }

    // Whether the moment is quiet, no packet is in flight, each living member is done, and each process on one rests.
    fn all_rest(&self) -> bool
        requires { Stands P.stood P.left P.run.frame self.now }
        ensures { Is P.stood P.left P.run.frame self.now (λ w. result ≡ rules.all_rest P.run.frame w) }
    {
        self.is_still() && self.members_done() && self.all_processes_rest()
    }

    // Whether the moment is quiet, and no packet is held: so none is in flight.
    fn is_still(&self) -> bool
        requires { Stands P.stood P.left P.run.frame self.now }
        ensures { Is P.stood P.left P.run.frame self.now (λ w. result
            ≡ (rules.is_quiet P.run.frame w && is_empty w.flights)) }
    {
        self.is_quiet() && !self.net.has_held()
    }

    // Whether each living member has applied its whole log and the whole list, and nothing is pending with it or waits at it.
    fn members_done(&self) -> bool
        requires { Stands P.stood P.left P.run.frame self.now }
        ensures { Is P.stood P.left P.run.frame self.now (λ w. result ≡ rules.members_done P.run.frame w) }
    {
        'members: for member in 0..self.numbers.nodes {
            if !self.is_done_living(member) {
                return false;
            }
        }
        true
    }

    // The same of this member, where it lives.
    fn is_done_living(&self, member: u8) -> bool
        requires stands { Stands P.stood P.left P.run.frame self.now }
        requires within { member < P.run.frame.settings.nodes }
        ensures { Is P.stood P.left P.run.frame self.now (λ w. result
            ≡ (not (w.lives member) || rules.is_done P.run.frame w member (w.nodes member))) }
    {
        !self.lives(member) || self.is_done_at(member)
    }

    // The same of this member, also where it crashed.
    fn is_done_at(&self, member: u8) -> bool
        requires stands { Stands P.stood P.left P.run.frame self.now }
        requires within { member < P.run.frame.settings.nodes }
        ensures { Is P.stood P.left P.run.frame self.now (λ w. result ≡ rules.is_done P.run.frame w member (w.nodes member)) }
    {
        match self.node(member) {
            Some(node) => is_done(node, self.ledger.entries().len() as u64),
            None => true,
        }
    }

    // Whether each process on a living member rests.
    fn all_processes_rest(&self) -> bool
        requires { Stands P.stood P.left P.run.frame self.now }
        ensures { Is P.stood P.left P.run.frame self.now (λ w. result
            ≡ rules.each_process P.run.frame w (rules.rests P.run.frame w)) }
    {
        'processes: for process in 0..self.process_count() {
            if !self.rests_living(ProcessNo(process)) {
                return false;
            }
        }
        true
    }

    // Whether the process rests, where its member lives.
    fn rests_living(&self, process: ProcessNo) -> bool
        requires { Stands P.stood P.left P.run.frame self.now }
        ensures { Is P.stood P.left P.run.frame self.now (λ w. result
            ≡ (not (rules.lives_at_home P.run.frame w process.0)
            || rules.rests P.run.frame w process.0 (played_in P.run.frame w process.0))) }
    {
        !self.lives_at_home(process) || self.rests(process)
    }

    // Whether the process has ended, is suspended, or waits with a read whose guards are false.
    fn rests(&self, process: ProcessNo) -> bool
        requires { Stands P.stood P.left P.run.frame self.now }
        ensures { Is P.stood P.left P.run.frame self.now (λ w. result
            ≡ rules.rests P.run.frame w process.0 (played_in P.run.frame w process.0)) }
    {
        match self.resident(process) {
            Some(resident) => self.rests_as(process, resident.stage()),
            None => false,
        }
    }

    // The same of a process at this stage.
    fn rests_as(&self, process: ProcessNo, stage: &Stage) -> bool
        requires { Stands P.stood P.left P.run.frame self.now }
        ensures { Is P.stood P.left P.run.frame self.now (λ w. result
            ≡ rules.rests_at P.run.frame w process.0 (on_stage stage.now)) }
    {
        match stage {
            Stage::Over { .. } | Stage::Reading { .. } => true,
            Stage::Submitted { .. } => self.is_suspended(process),
            Stage::Asking { action } => self.waits_at_owner(process, action),
            Stage::Computing | Stage::Acting { .. } => false,
        }
    }

    // Whether the process's call is suspended on its member's copies.
    fn is_suspended(&self, process: ProcessNo) -> bool
        requires { Stands P.stood P.left P.run.frame self.now }
        ensures { Is P.stood P.left P.run.frame self.now (λ w. result
            ≡ rules.waits_in process.0 (w.nodes (home_of P.run.frame w process.0)).copies.queue) }
    {
        match self.node(self.home_of(process)) {
            Some(node) => is_queued(node, process),
            None => false,
        }
    }

    // Whether a process has ended by a fault.
    fn has_fault(&self) -> bool
        requires { Stands P.stood P.left P.run.frame self.now }
        ensures { Is P.stood P.left P.run.frame self.now (λ w. result ≡ rules.has_fault P.run.frame w) }
    {
        'processes: for process in 0..self.process_count() {
            if self.has_faulted(ProcessNo(process)) {
                return true;
            }
        }
        false
    }

    // Whether the process has ended by a fault.
    fn has_faulted(&self, process: ProcessNo) -> bool
        requires { Stands P.stood P.left P.run.frame self.now }
        ensures { Is P.stood P.left P.run.frame self.now (λ w. result
            ≡ rules.stands played.has_faulted (played_in P.run.frame w process.0)) }
    {
        match self.resident(process) {
            Some(resident) => is_faulted(resident.stage()),
            None => false,
        }
    }
}

// Whether a call of the process waits at this member, which isn't outside.
fn waits_at<P: OneRun>(node: &Node<P>, process: ProcessNo) -> bool
    ensures { result ≡ (not node.now.member.outside && rules.waits_in process.0 node.now.copies.waits) }
{
    !node.member().is_outside() && is_waiting(node, process)
}

// Whether a call of the process on a single object is suspended here.
fn is_waiting<P: OneRun>(node: &Node<P>, process: ProcessNo) -> bool
    ensures { result ≡ rules.waits_in process.0 node.now.copies.waits }
{
    node.copies().is_waiting(process)
}

// Whether a call of the process on a replicated object is suspended here.
fn is_queued<P: OneRun>(node: &Node<P>, process: ProcessNo) -> bool
    ensures { result ≡ rules.waits_in process.0 node.now.copies.queue }
{
    node.copies().is_suspended(process)
}

// The limit that the member's next accepted entry passes: a member that caught up stands before no other.
fn limit_at<P: OneRun>(node: &Node<P>) -> Option<(What, u64)>
    ensures { (f : Frame) (m : ℕ) (v : nodes.Node) → StandsAs P.stood P.left f m node.now v → StopsBefore f v →
        option_map (λ p. (p.0, p.1)) result ≡ rules.limit_at f v }
{
    standing_law::<Message, Reply>();
    let applied = node.copies().applied();
    if applied >= node.member().accepted() {
        return None;
    }
    match node.member().entry(applied + 1) {
        Slot::Found { item } => limit_of(&item.message().action),
        Slot::Purged => None,
        Slot::NotYet => None,
    }
}

// The limit that an action can pass.
fn limit_of(action: &Action) -> Option<(What, u64)>
    ensures { option_map (λ p. (p.0, p.1)) result ≡ limit_of action.now }
{
    match action {
        Action::Make { .. } => Some((What::Objects, u64::from(OBJECTS))),
        Action::Fork { .. } => Some((What::Processes, u64::from(PROCESSES))),
        _ => None,
    }
}

// Whether the member has applied its whole log and the whole list of so many entries, and nothing is pending with it or waits at it.
fn is_done<P: OneRun>(node: &Node<P>, listed: u64) -> bool
    requires { IsMember node.now.member }
    ensures { (f : Frame) (m : ℕ) (v : nodes.Node) → StandsAs P.stood P.left f m node.now v → result ≡ has_applied_all f m v listed }
{
    has_applied(node, listed) && has_none_left(node)
}

// Whether it has applied its whole log, and so many entries.
fn has_applied<P: OneRun>(node: &Node<P>, listed: u64) -> bool
    requires { IsMember node.now.member }
    ensures { result ≡ ((node.now.member.applied == last_number node.now.member.window) && (node.now.member.applied == listed)) }
{
    let member = node.member();
    member.applied() == member.length() && member.applied() == listed
}

// Whether nothing is pending with it, and nothing waits at it as sequencer.
fn has_none_left<P: OneRun>(node: &Node<P>) -> bool
    requires { IsMember node.now.member }
    ensures { (f : Frame) (m : ℕ) (v : nodes.Node) → StandsAs P.stood P.left f m node.now v → result ≡ has_nothing_left f m v }
{
    let member = node.member();
    !member.has_pending() && !member.has_waiting()
}

// Whether it has taken so many turns, and computes.
fn is_spent<S: Drop>(resident: &Resident<S>, turns: u64) -> bool
    ensures { result ≡ (nat_le turns resident.now.turns && played.is_computing (on_stage resident.now.stage)) }
{
    resident.turns() >= turns && is_computing(resident.stage())
}

// Whether it has ended or faulted.
fn is_over(stage: &Stage) -> bool
    ensures { result ≡ played.is_over (on_stage stage.now) }
{
    matches!(stage, Stage::Over { .. })
}

// Whether it has ended by a fault.
fn is_faulted(stage: &Stage) -> bool
    ensures { result ≡ played.has_faulted (on_stage stage.now) }
{
    match stage {
        Stage::Over { action } => matches!(action, Action::Faulted { .. }),
        _ => false,
    }
}
