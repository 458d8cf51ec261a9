//! What workers serve.

ghost use Rattle.std.specs.Prelude.{◌≡◌, Ok};
ghost use Rattle.node_runner.specs.declared.desk.Offer.TheVariants as offer;

use orca_base::ProcessNo;
use std::sync::Wait;

/// What a desk offers.
#[derive(Drop)]
pub enum Offer<T> {
    /// The run is over.
    Over,
    /// An event was done.
    Stepped,
    /// There is nothing to do until a worker puts what it computes.
    Wait,
    /// A burst to be computed.
    Work { work: T },
}

/// Called before each burst is computed.
pub trait Gate {
    /// A burst of this process is about to be computed.
    fn before_run(&self, process: ProcessNo);
}

/// A gate that does nothing.
pub struct OpenGate;

impl Gate for OpenGate {
    fn before_run(&self, _process: ProcessNo) {}
}

/// Hands out work, and takes it back.
///
/// Whoever serves a desk, whichever it is, can neither make nor let go what it hands out: work goes to `run_work` alone, what that computes
/// to `put_and_take` alone, and a failure to `stop` alone. So all that was handed out comes back, or the desk is stopped.
pub trait Desk {
    ghost use Rattle.std.specs.Prelude.{ℕ};

    /// A burst to be computed.
    type Work: Send;

    /// What was computed.
    type Finished: Send;

    /// That memory lacked, for which the desk is to be stopped.
    type Failure: Send;

    /// What is so once a worker of this home was told that the work is over.
    ghost is_over: { Self → ℕ → Type 0 };

    /// What is so once the desk was stopped.
    ghost is_stopped: { Self → Type 0 };

    /// Takes the next work for a worker that prefers this member's processes.
    fn take_work<R: Wait>(&self, rt: &R, home: u8) -> Result<Offer<Self::Work>, Self::Failure>
        ensures over { result ≡ Ok offer.Over → is_over self.now home };

    /// The process whose burst it is.
    fn process_of(&self, work: &Self::Work) -> ProcessNo;

    /// Computes it, with no lock held.
    fn run_work(&self, work: Self::Work) -> Result<Self::Finished, Self::Failure>;

    /// Puts what was computed, and takes the next work as `take_work` does, with nothing between the two.
    fn put_and_take<R: Wait>(
        &self,
        rt: &R,
        done: Self::Finished,
        home: u8,
    ) -> Result<Offer<Self::Work>, Self::Failure>
        ensures over { result ≡ Ok offer.Over → is_over self.now home };

    /// Waits until there may be work.
    fn wait<R: Wait>(&self, rt: &R);

    /// After it `take_work` hands out nothing, and fails where the run isn't over.
    fn stop<R: Wait>(&self, rt: &R, failure: Self::Failure)
        ensures { is_stopped self.now };
}
