//! What the machine keeps of a process.

ghost use Rattle.std.specs.Prelude.{◌≡◌, ◌≤◌, ◌+◌, ◌<◌, ◌^◌, ◌↔◌, IfOk, IsTrue};
ghost use Rattle.value_core.specs.Goes.{IfAt};
ghost use Rattle.code_rules.specs.Resuming as resuming;
ghost use Rattle.emitted_code.specs.Views.{program_seen};
ghost use Rattle.code_runs.specs.Processes.{process_of};
ghost use Rattle.code_runs.specs.Runs.{Gives, HasRoomThroughout};

use crate::compared::same_phase;
use crate::copies::copy_phase;
use crate::counts::phase_is_counted;
use code_runs::{CodeProcess, answer, go, start};
use emitted_code::Emitted;
use orca_base::{NoMemory, ProcessNo, TextNo};
use std::alloc::Global;
use std::marker::Model;
use value_core::{Halt, Parts, Reply};

/// Where a process stands, and how many turns it took. Clauses see it as the state of a process that code_rules has (`ProcessState`).
///
/// Its variables are so few that each has a number: so they can be copied and compared, one after the other.
#[derive(Drop)]
pub struct CodeState {
    process: CodeProcess<'static>,
}

impl Model for CodeState {
    ghost use Rattle.code_rules.specs.Machine.{ProcessState};
    ghost use Rattle.code_machine.specs.Once.{state_code};

    ghost Value = { ProcessState };

    ghost coded = { state_code };

    ghost use Rattle.code_runs.specs.Processes.{process_of};
    ghost use Rattle.code_machine.specs.Counted.{IsCountedState};

    ghost view = { λ s. process_of s.process };

    ghost invariant = { λ s. IsCountedState (process_of s.process) };
}

impl CodeState {
    // A process. Want of memory is answered where it has more variables than there are numbers.
    fn new(process: CodeProcess<'static>) -> Result<CodeState, NoMemory>
        ensures { IfOk result (λ s. s ≡ process_of process.entry) }
    {
        if phase_is_counted(&process.phase) {
            return Ok(CodeState { process });
        }
        Err(NoMemory)
    }

    // A process of this text, before its first reply.
    pub(crate) fn begin(
        alloc: Global,
        code: &Emitted<'_>,
        text: TextNo,
        number: ProcessNo,
        args: &Parts,
    ) -> Result<CodeState, NoMemory>
        ensures { IfOk result (λ s. s ≡ resuming.start (program_seen code.now) text number args.now) }
    {
        let process = start(alloc, code, text, number, args)?;
        CodeState::new(process)
    }

    // The process goes on up to its next action, or until the budget's last turn is begun. Where it comes to an action, it is left at it.
    pub(crate) fn go(
        self,
        alloc: Global,
        code: &Emitted<'_>,
        budget: u32,
    ) -> Result<(CodeState, Halt), NoMemory>
        ensures came { HasRoomThroughout (program_seen code.now) → 1 ≤ budget → self.turns + budget < 2 ^ 64 → IfOk result (λ r.
            Gives (resuming.go (program_seen code.now) self budget) (r.0, r.1)) }
        ensures left { IfOk result (λ r. IfAt r.1 (resuming.halted r.0)) }
    {
        let (process, halt) = go(alloc, code, self.process, budget)?;
        let state = CodeState::new(process)?;
        Ok((state, halt))
    }

    // The process receives the reply to the action at which it was left. It takes no memory.
    pub(crate) fn answered(self, reply: Reply) -> CodeState
        ensures { result ≡ resuming.answer self reply }
    {
        let process = answer(self.process, reply);
        CodeState { process }
    }

    // The turns that it took.
    pub(crate) fn turns(&self) -> u64
        ensures { result ≡ self.now.turns }
    {
        self.process.turns
    }

    // An equal state.
    pub(crate) fn copy(&self, alloc: Global) -> Result<CodeState, NoMemory>
        ensures { IfOk result (λ s. s ≡ self.now) }
    {
        let phase = copy_phase(alloc, &self.process.phase)?;
        let turns = self.process.turns;
        let process = CodeProcess { phase, turns };
        Ok(CodeState { process })
    }

    // Whether both states are the same.
    pub(crate) fn is(&self, other: &CodeState) -> bool
        ensures { IsTrue result ↔ (self.now ≡ other.now) }
    {
        self.process.turns == other.process.turns
            && same_phase(&self.process.phase, &other.process.phase)
    }
}
