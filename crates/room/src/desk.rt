//! A run under a lock, and the desk of those who do it.

ghost use Rattle.std.specs.Prelude.{◌≡◌, Ok, OnErr};
ghost use Rattle.node_runner.specs.declared.desk.Offer.TheVariants as offer;
ghost use Rattle.room_state.specs.declared.phase.Phase.TheVariants as phase;
ghost use Rattle.room_state.specs.Held.{HasToWait};
ghost use Rattle.room.specs.Served.{IsOver, WasHandedOut};

use node_core::{Done, Task};
use node_runner::{Desk, Offer};
use orca_base::{NoMemory, ProcessNo};
use room_state::{RoomRun, RoomState, Taken};
use std::alloc::Global;
use std::sync::{Condvar, Mutex, Wait};
use wires::Wire;

/// How many events a worker does in one holding of the lock, before others may have it.
const EVENTS_AT_ONCE: u32 = 64;

/// A run under its lock, with the bell for those that wait. Whenever the lock is free, the run is the replay of its steps
/// (`RoomState`).
#[derive(Drop)]
pub struct Room<P: RoomRun, W: Wire> {
    /// The run.
    pub state: Mutex<RoomState<P, W>>,
    /// Rung when there may be more to do.
    pub bell: Condvar,
}

/// The desk of a room: bursts are computed by its machine, without the lock.
#[derive(Drop)]
pub struct RoomDesk<'a, P: RoomRun, W: Wire> {
    /// The room.
    pub room: &'a Room<P, W>,
    /// The machine.
    pub machine: &'a P,
    /// Where memory is taken from.
    pub alloc: Global,
}

impl<P: RoomRun, W: Wire> RoomDesk<'_, P, W> {
    // Takes the next work of a run whose lock is held.
    #[tactic(auto, using(crate::proofs::Serving::over_now, crate::proofs::Serving::wait_now, crate::proofs::Serving::handed_now))]
    fn take_one(&self, state: &mut RoomState<P, W>, home: u8) -> Result<Offer<Task<P>>, NoMemory>
        ensures over { result ≡ Ok offer.Over → IsOver P.run.frame state.new.seen }
        ensures work { (t : _) → result ≡ Ok (offer.Work t) → WasHandedOut P.run.frame home t state.new }
        ensures wait { result ≡ Ok offer.Wait → HasToWait P.run.frame state.new.seen state.new.tasks state.new }
        ensures err { OnErr result (state.new.phase ≡ phase.Stopped) }
    {
        match state.take(self.alloc, self.machine, home)? {
            Taken::Over => Ok(Offer::Over),
            Taken::Stepped => Ok(Offer::Stepped),
            Taken::Task { task } => Ok(Offer::Work { work: task }),
            Taken::Wait => Ok(Offer::Wait),
        }
    }

    // The same, behind as many events as there are in front of it, up to so many as are done at once.
    fn take_in(&self, state: &mut RoomState<P, W>, home: u8) -> Result<Offer<Task<P>>, NoMemory>
        ensures over { result ≡ Ok offer.Over → IsOver P.run.frame state.new.seen }
        ensures work { (t : _) → result ≡ Ok (offer.Work t) → WasHandedOut P.run.frame home t state.new }
        ensures wait { result ≡ Ok offer.Wait → HasToWait P.run.frame state.new.seen state.new.tasks state.new }
        ensures err { OnErr result (state.new.phase ≡ phase.Stopped) }
    {
        'events: for _event in 1..EVENTS_AT_ONCE {
            match self.take_one(state, home)? {
                Offer::Stepped => {}
                offered => return Ok(offered),
            }
        }
        self.take_one(state, home)
    }

    // Wakes those that wait, where there is more to do. To be called before the lock is let go.
    fn ring(&self, state: &RoomState<P, W>) {
        if !state.is_idle() {
            self.room.bell.notify_all();
        }
    }
}

impl<P: RoomRun + Send, W: Wire> Desk for RoomDesk<'_, P, W>
where
    P::State: Send + Sync,
{
    type Work = Task<P>;

    type Finished = Done<P>;

    type Failure = NoMemory;

    // What stands under a lock is known while it is held, and not behind that.
    ghost is_over = { λ desk home. Unit {0} };

    ghost is_stopped = { λ desk. Unit {0} };

    fn take_work<R: Wait>(&self, rt: &R, home: u8) -> Result<Offer<Task<P>>, NoMemory> {
        let mut state = self.room.state.lock(rt);
        let offered = self.take_in(&mut state, home);
        self.ring(&state);
        offered
    }

    fn process_of(&self, work: &Task<P>) -> ProcessNo {
        work.process()
    }

    fn run_work(&self, work: Task<P>) -> Result<Done<P>, NoMemory> {
        work.run(self.alloc, self.machine)
    }

    // What comes back astray is dropped: its process is computed anew, or its member is gone.
    fn put_and_take<R: Wait>(
        &self,
        rt: &R,
        done: Done<P>,
        home: u8,
    ) -> Result<Offer<Task<P>>, NoMemory> {
        let mut state = self.room.state.lock(rt);
        let _ = state.put(done);
        let offered = self.take_in(&mut state, home);
        self.ring(&state);
        offered
    }

    fn wait<R: Wait>(&self, rt: &R) {
        let state = self.room.state.lock(rt);
        let _ = self.room.bell.wait_while(rt, state, |s| s.is_idle());
    }

    fn stop<R: Wait>(&self, rt: &R, _failure: NoMemory) {
        let mut state = self.room.state.lock(rt);
        state.stop();
        self.ring(&state);
    }
}
