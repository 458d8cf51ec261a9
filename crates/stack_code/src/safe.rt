//! Code can't get stuck.

ghost use Rattle.std.specs.Prelude.{ℕ};
ghost use Rattle.code_rules.specs.Machine.{BodyNo};
ghost use Rattle.stack_code.specs.Shown.{shown};
ghost use Rattle.stack_code.specs.WellFormed.{CannotGetStuck, StepsWell};

use crate::code::Code;

/// The code of a program can't get stuck, whatever body a run begins with; and a machine's loop that goes through it finds heights by which
/// each instruction steps well.
pub fn code_cannot_get_stuck(code: &Code<'_>)
    ensures never { ∥ CannotGetStuck (shown code.now) ∥₁ }
    ensures steps { ∥ ((height : BodyNo → ℕ → ℕ) × StepsWell (shown code.now) height) ∥₁ }
{
    let _ = &code.texts;
}
