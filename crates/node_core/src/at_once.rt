//! Bursts at once: no task is handed out, and nothing is compared.

ghost use Rattle.std.specs.Prelude.{◌≡◌, IfOk, OnErr};
ghost use Rattle.node_core.specs.AtOnce.{HasBurst};
ghost use Rattle.node_core.specs.CheckingIn.{MayHandOut};
ghost use Rattle.node_core.specs.Stands.{fitness_of};

use crate::node::Node;
use crate::task::{CheckedIn, compute};
use node_parts::{Kept, OneRun};
use object_manager::View;
use orca_base::{NoMemory, ProcessNo};
use std::alloc::Global;

impl<P: OneRun> Node<P> {
    /// Lets a process compute, on the member's view and with this budget. What comes is its reads, and the turns that it took in all. It
    /// leaves what `check_out`, `run` and `check_in` leave; a task of the process that is out ends.
    ///
    /// Where there is no memory, the node is as it was.
    pub fn burst(
        &mut self,
        alloc: Global,
        machine: &P,
        process: ProcessNo,
        budget: u32,
    ) -> Result<(CheckedIn, u64), NoMemory>
        requires { MayHandOut P.stood P.left P.run.frame
            (fitness_of (P.fits_state machine.now) (P.fits_args machine.now) (P.fits_text machine.now) (P.fits_reply machine.now))
            process (record { objects = self.old.copies.objects; place = self.old.copies.applied }) budget self.old }
        ensures does { IfOk result (λ burst.
            HasBurst P.stood P.left P.run.frame process (record { objects = self.old.copies.objects; place = self.old.copies.applied })
            burst.0 burst.1 self.old self.new) }
        ensures err { OnErr result (self.new ≡ self.old) }
    {
        let view = self.copies.view(alloc)?;
        self.burst_on(alloc, machine, process, &view, budget)
    }

    /// The same on another view, over which such a burst fits; whoever calls knows what it shows.
    pub fn burst_on(
        &mut self,
        alloc: Global,
        machine: &P,
        process: ProcessNo,
        view: &View,
        budget: u32,
    ) -> Result<(CheckedIn, u64), NoMemory>
        requires { MayHandOut P.stood P.left P.run.frame
            (fitness_of (P.fits_state machine.now) (P.fits_args machine.now) (P.fits_text machine.now) (P.fits_reply machine.now))
            process view.now budget self.old }
        ensures does { IfOk result (λ burst. HasBurst P.stood P.left P.run.frame process view.now burst.0 burst.1 self.old self.new) }
        ensures err { OnErr result (self.new ≡ self.old) }
    {
        let resident = self.here(process);
        let start = resident.state.value();
        let burst = compute(alloc, machine, process, view, start, resident.calls, budget)?;
        let end = Kept::new(alloc, burst.end)?;
        let place = view.place();
        let reads = burst.reads.len() as u64;
        let after = resident.after_burst(end, burst.turns, burst.stage, place, reads);
        self.change(process, after);
        let checked = CheckedIn {
            place,
            reads: burst.reads,
        };
        Ok((checked, burst.turns))
    }
}
