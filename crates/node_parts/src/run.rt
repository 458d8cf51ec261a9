//! What ties all that is typed by a machine to one run.

use value_core::Processor;

/// Ties whatever is typed by it to one run.
///
/// The machines of such a type all mean the run's program, and what a state of theirs stands for is one matter for all of them. So
/// a state that one of them left may be kept, and another may go on from it.
pub trait OneRun: Processor {
    ghost use Rattle.std.specs.Prelude.{◌≡◌, ℕ, List};
    ghost use Rattle.orca_base.specs.declared.ids.KindNo.{KindNo};
    ghost use Rattle.orca_base.specs.declared.ids.OpNo.{OpNo};
    ghost use Rattle.orca_base.specs.declared.ids.ProcessNo.{ProcessNo};
    ghost use Rattle.orca_base.specs.declared.ids.TextNo.{TextNo};
    ghost use Rattle.value_core.specs.Datum.{Data};
    ghost use Rattle.value_core.specs.Fits.{Kinds};
    ghost use Rattle.value_core.specs.declared.action.Action.{Action};
    ghost use Rattle.value_core.specs.declared.action.Reply.{Reply};
    ghost use Rattle.node_parts.specs.Runs.{Run};

    /// The run.
    ghost run: { Run };

    /// A state stands for a text, number, arguments, replies and turns.
    ghost stood: { Self.State → TextNo → ProcessNo → Data → List Reply → ℕ → Type 0 };

    /// A state was left at this action.
    ghost left: { Self.State → Action → Type 0 };

    /// Each machine of the type performs and computes as the run's program means.
    ghost performs_run: { (m : Self) → Self.performs m ≡ run.frame.performs };

    ghost computes_run: { (m : Self) → Self.computes m ≡ run.frame.computes };

    /// What a state stands for, and where it was left, is the same for each.
    ghost stands_stood: { (m : Self) (state : Self.State) (text : TextNo) (number : ProcessNo) (args : Data) (replies : List Reply) (turns : ℕ) →
        Self.stands m state text number args replies turns → stood state text number args replies turns };

    ghost stood_stands: { (m : Self) (state : Self.State) (text : TextNo) (number : ProcessNo) (args : Data) (replies : List Reply) (turns : ℕ) →
        stood state text number args replies turns → Self.stands m state text number args replies turns };

    ghost halted_left: { (m : Self) (state : Self.State) (act : Action) → Self.halted m state act → left state act };

    ghost left_halted: { (m : Self) (state : Self.State) (act : Action) → left state act → Self.halted m state act };

    /// And so are which states fit, and which arguments of operations.
    ghost states_alike: { (m n : Self) (kinds : Kinds) (kind : KindNo) (state : Data) →
        Self.fits_state m kinds kind state → Self.fits_state n kinds kind state };

    ghost args_alike: { (m n : Self) (kinds : Kinds) (kind : KindNo) (op : OpNo) (args : Data) →
        Self.fits_args m kinds kind op args → Self.fits_args n kinds kind op args };
}
