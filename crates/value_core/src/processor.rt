//! What computes a program's processes.

use crate::action::{Action, Reply};
use crate::performer::Performer;
use crate::value::Parts;
use orca_base::{NoMemory, ProcessNo, TextNo};
use std::alloc::Global;

/// Where a computation halted: at the process's next action, or its budget is used.
#[derive(Drop)]
pub enum Halt {
    At { action: Action },
    Paused,
}

/// What computes a program's processes up to their next action. Its member `computes` is what they mean.
///
/// A state needn't keep the replies of its process: for which text, number, arguments, replies and turns it stands is the
/// relation `stands`. Turns are loop rounds and function calls.
pub trait Processor: Performer {
    ghost use Rattle.std.specs.Prelude.{◌≡◌, ◌≤◌, ◌+◌, ◌++◌, ◌∷◌, [], ℕ, List, IfOk, IsTrue, ◌↔◌};
    ghost use Rattle.orca_base.specs.declared.ids.TextNo.{TextNo};
    ghost use Rattle.orca_base.specs.declared.ids.ProcessNo.{ProcessNo};
    ghost use Rattle.value_core.specs.Datum as datum;
    ghost use Rattle.value_core.specs.Datum.{Data};
    ghost use Rattle.value_core.specs.declared.action.Action.{Action};
    ghost use Rattle.value_core.specs.declared.action.Reply.{Reply};
    ghost use Rattle.value_core.specs.declared.meaning.Doing.TheVariants.{At, Busy};
    ghost use Rattle.value_core.specs.Meaning.{Computes};
    ghost use Rattle.value_core.specs.Fits.{Kinds};
    ghost use Rattle.value_core.specs.Goes.{ForEach, ForSome, GoesOn, HasReplied, IfAt};
    ghost use Rattle.value_core.specs.History.{most_turns};
    ghost use Rattle.value_core.specs.Lawful.{FitsAction, RepliesFit, IsLawful};

    type State: Drop;

    /// What the program's processes mean.
    ghost computes: { Self → Computes };

    /// A state stands for a text, number, arguments, replies and turns.
    ghost stands: { Self → Self.State → TextNo → ProcessNo → Data → List Reply → ℕ → Type 0 };

    /// A state is left at this action by `go`, and takes one reply to it without memory.
    ghost halted: { Self → Self.State → Action → Type 0 };

    /// The text `OrcaMain`.
    fn main_text(&self) -> TextNo
        ensures { result ≡ (computes self.now).main };

    /// A process of this text, before its first reply.
    fn start(
        &self,
        alloc: Global,
        process: TextNo,
        number: ProcessNo,
        args: &Parts,
    ) -> Result<Self::State, NoMemory>
        requires { (kinds : Kinds) × Self.fits_text self.now kinds process args.now }
        ensures { IfOk result (λ s. stands self.now s process number args.now [] 0) };

    /// Computes up to the next action, or until the budget's last turn is begun. Where it comes to an action, the state is
    /// left at it.
    fn go(
        &self,
        alloc: Global,
        state: Self::State,
        budget: u32,
    ) -> Result<(Self::State, Halt), NoMemory>
        requires some { 1 ≤ budget }
        requires room { ForEach (stands self.now state) (λ text number args replies turns. turns + budget ≤ most_turns) }
        ensures goes { IfOk result (λ r. ForEach (stands self.now state) (GoesOn (computes self.now) (stands self.now r.0) budget r.1)) }
        ensures left { IfOk result (λ r. IfAt r.1 (halted self.now r.0)) };

    /// The process receives the reply to the action at which `go` left it. It takes no memory.
    fn reply(&self, state: Self::State, reply: Reply) -> Self::State
        requires stands { ForSome (stands self.now state) }
        requires fits { (action : Action) × halted self.now state action × FitsAction (Self.fits_reply self.now) (At action) reply }
        ensures { ForEach (stands self.now state) (HasReplied reply (stands self.now result)) };

    /// The turns that the process took.
    fn turns(&self, state: &Self::State) -> u64
        ensures { ForEach (stands self.now state.now) (λ text number args replies turns. result ≡ turns) };

    /// Whether two states are equal.
    fn same(one: &Self::State, other: &Self::State) -> bool
        ensures { IsTrue result ↔ (one.now ≡ other.now) };

    /// An equal state, left at the same action where this one is left at one.
    fn copy(&self, alloc: Global, state: &Self::State) -> Result<Self::State, NoMemory>
        ensures { IfOk result (λ s. s ≡ state.now) };

    /// The empty list of arguments fits the text `OrcaMain`.
    ghost main_fits: { (m : Self) (kinds : Kinds) → Self.fits_text m kinds ((computes m).main) datum.none };

    /// What a process does next, once it isn't busy, is the same for every greater number of turns.
    ghost settled: { (m : Self) (text : TextNo) (number : ProcessNo) (args : Data) (replies : List Reply) (n k : ℕ) →
        ((computes m).doing text number args replies n ≡ Busy → ⊥) →
        (computes m).doing text number args replies (n + k) ≡ (computes m).doing text number args replies n };

    /// A process whose arguments and replies fit makes its own objects in order, calls and hands on only objects that it knows,
    /// by their types, and with arguments that fit.
    ghost lawful: { (m : Self) (kinds : Kinds) (text : TextNo) (number : ProcessNo) (args : Data) (replies : List Reply) →
        Self.fits_text m kinds text args → RepliesFit (computes m) (Self.fits_reply m) text number args replies →
        IsLawful (computes m) (Self.fits_args m) (Self.fits_text m) kinds text number args replies };
}
