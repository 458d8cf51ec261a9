//! Whether the values of variables are few enough that each has a number.

ghost use Rattle.std.specs.Prelude.{IsTrue};
ghost use Rattle.std.specs.List.{All};
ghost use Rattle.code_steps.specs.Bodies.{config_of};
ghost use Rattle.code_runs.specs.Processes.{phase_of};
ghost use Rattle.code_machine.specs.Counted.{AreCounted, IsCounted, IsCountedPhase};

use code_runs::Phase;
use code_steps::{Caller, Config};
use frame_variables::Frame;

// Whether no value stands at the last number.
fn is_counted(frame: &Frame<'_>) -> bool
    ensures { IsTrue result → IsCounted frame.now }
{
    frame.get(usize::MAX).is_none()
}

// The same of all bodies that wait.
fn callers_are_counted(callers: &[Caller<'_>]) -> bool
    ensures { IsTrue result → All (λ w. IsCounted w.frame) callers.now }
{
    'callers: for caller in callers {
        if !is_counted(&caller.frame) {
            return false;
        }
    }
    true
}

// And where a body runs, and others may wait.
fn config_is_counted(config: &Config<'_>) -> bool
    ensures { IsTrue result → AreCounted (config_of config.now) }
{
    is_counted(&config.run.frame) && callers_are_counted(&config.callers)
}

/// And where a process stands.
pub fn phase_is_counted(phase: &Phase<'_>) -> bool
    ensures { IsTrue result → IsCountedPhase (phase_of phase.now) }
{
    match phase {
        Phase::Running { config, .. } => config_is_counted(config),
        Phase::Asking { config, .. } => config_is_counted(config),
        Phase::Finished { .. } => true,
    }
}
