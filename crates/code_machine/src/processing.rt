//! The machine computes its program's processes.

use crate::machine::CodeMachine;
use crate::state::CodeState;
use code_numbers::numbers_law;
use code_rules::code_law;
use orca_base::{NoMemory, ProcessNo, TextNo};
use std::alloc::Global;
use value_core::{Halt, Parts, Processor, Reply};

impl Processor for CodeMachine<'_> {
    ghost use Rattle.std.specs.Prelude.{◌≡◌, ◌↔◌, IsTrue};
    ghost use Rattle.meaning_rules.specs.Meanings.{computes_of};
    ghost use Rattle.meaning_rules.proofs.Settling.{is_settled};
    ghost use Rattle.program_bodies.specs.Codes.{sources};
    ghost use Rattle.emitted_code.specs.Views.{program_seen};
    ghost use Rattle.code_rules.specs.Resuming as resuming;
    ghost use Rattle.machine_laws.specs.MachineLaws.{preserved};

    type State = CodeState;

    ghost computes = { λ m. computes_of (sources m.tables.checked) };

    ghost stands = { λ m. resuming.stands (sources m.tables.checked) (program_seen m.code) };

    ghost halted = { λ m. resuming.halted };

    ghost main_fits = { λ m. (preserved m.laws m.tables.checked m.within).main };

    ghost settled = { λ m. is_settled (sources m.tables.checked) };

    ghost lawful = { λ m. (preserved m.laws m.tables.checked m.within).processes };

    fn main_text(&self) -> TextNo {
        self.code.main
    }

    fn start(
        &self,
        alloc: Global,
        process: TextNo,
        number: ProcessNo,
        args: &Parts,
    ) -> Result<CodeState, NoMemory> {
        code_law();
        CodeState::begin(alloc, &self.code, process, number, args)
    }

    fn go(
        &self,
        alloc: Global,
        state: CodeState,
        budget: u32,
    ) -> Result<(CodeState, Halt), NoMemory> {
        code_law();
        numbers_law();
        state.go(alloc, &self.code, budget)
    }

    fn reply(&self, state: CodeState, reply: Reply) -> CodeState {
        code_law();
        state.answered(reply)
    }

    fn turns(&self, state: &CodeState) -> u64 {
        state.turns()
    }

    fn same(one: &CodeState, other: &CodeState) -> bool
        ensures { IsTrue result ↔ (one.now ≡ other.now) }
    {
        one.is(other)
    }

    fn copy(&self, alloc: Global, state: &CodeState) -> Result<CodeState, NoMemory> {
        state.copy(alloc)
    }
}
