//! The numbers of objects and guards.

ghost use Rattle.std.specs.Prelude.{◌≡◌, ◌<◌, ◌^◌, ℕ, List, Some, slice_get};
ghost use Rattle.orca_base.specs.declared.fault.FaultKind.{FaultKind};
ghost use Rattle.orca_base.specs.declared.ids.KindNo.{KindNo};
ghost use Rattle.orca_base.specs.declared.ids.OpNo.{OpNo};
ghost use Rattle.link_rules.specs.Units.{Source};
ghost use Rattle.value_core.specs.Datum.{Data};
ghost use Rattle.value_core.specs.declared.action.Reply.{Reply};
ghost use Rattle.value_core.specs.declared.meaning.Tried.TheVariants.{Broke, Did};
ghost use Rattle.meaning_rules.specs.Operations.{tries_of};
ghost use Rattle.accepted_law.specs.Numbers.{AreNumbers};
ghost use Rattle.code_rules.specs.Instructions.{Make};
ghost use Rattle.code_rules.specs.Machine.{BodyNo, body_at};
ghost use Rattle.code_rules.specs.Program.{program_code};

/// The numbers of a program whose own numbers fit: an instruction that makes an object numbers it among those of its process in 32 bits,
/// in whichever body it stands; and the guard by which a try is done, or at which it breaks, is numbered in 16.
pub fn numbers_law()
    ensures objects { (us : List Source) → AreNumbers us → (body : BodyNo) (pc : ℕ) (kind : KindNo) (count slot : ℕ) →
        slice_get (body_at (program_code us) body) pc ≡ Some (Make kind count slot) → count < 2 ^ 32 }
    ensures done { (us : List Source) → AreNumbers us → (kind : KindNo) (op : OpNo) (state args after : Data) (guard : ℕ) (reply : Reply) →
        tries_of us kind op state args ≡ Did guard after reply → guard < 2 ^ 16 }
    ensures broken { (us : List Source) → AreNumbers us → (kind : KindNo) (op : OpNo) (state args : Data) (guard : ℕ) (fault : FaultKind) →
        tries_of us kind op state args ≡ Broke guard fault → guard < 2 ^ 16 }
{}
