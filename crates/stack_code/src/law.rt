//! The laws.

ghost use Rattle.std.specs.Prelude.{◌≡◌, ◌<◌, ◌∷◌, [], List, length, ℕ};
ghost use Rattle.orca_base.specs.declared.ids.TextNo.{TextNo};
ghost use Rattle.link_rules.specs.Units.{Source};
ghost use Rattle.meaning_rules.specs.Programs.{main_text};
ghost use Rattle.value_core.specs.Datum.{Data, Datum, none};
ghost use Rattle.code_rules.specs.Instructions.{End, Guard, Instr, Jump, Pop, Push, Turn, Unless};
ghost use Rattle.code_rules.specs.Correct.{IsStart};
ghost use Rattle.code_rules.specs.Machine.{BodyNo, Code, OfProcess, body_at};
ghost use Rattle.code_rules.specs.Program.{program_code};
ghost use Rattle.code_rules.specs.Example.{a_program};
ghost use Rattle.code_rules.specs.PhrasesExample.{rows_program};
ghost use Rattle.stack_code.specs.ListingExamples.{a_listing, rows_listing};
ghost use Rattle.stack_code.specs.Sound.{AllHave, HasHeights, IsSoundCode, IsWay, IsWholeCode, PassesTurn, end_of};
ghost use Rattle.stack_code.specs.Text.{code_text};
ghost use Rattle.stack_code.specs.WellFormed.{CannotGetStuck, StepsWell};

/// A run of sound code is never stuck, and comes to an outcome; and what a machine's loop goes by: one instruction of a run that stands
/// well leads to one that stands well, nearer to the next turn unless it was one.
pub fn sound_code_cannot_get_stuck()
    ensures never { (code : Code) → IsSoundCode code → CannotGetStuck code }
    ensures steps { (code : Code) (height : BodyNo → ℕ → ℕ) → AllHave code height → StepsWell code height }
{}

/// In sound code each way from an instruction back to itself passes a turn.
pub fn each_round_passes_a_turn()
    ensures { (is : List Instr) (height : ℕ → ℕ) → HasHeights is height → (pc to : ℕ) (rest : List ℕ) →
        IsWay is pc (to ∷ rest) → end_of to rest ≡ pc → PassesTurn is (to ∷ rest) }
{}

/// The code of a program is sound, for every list of sources: its functions, the texts of its processes, makings and operations. A text
/// that a process begins with has code; so has that of OrcaMain, where it is a process without parameters.
pub fn compiled_code_is_sound()
    ensures sound { (us : List Source) → IsSoundCode (program_code us) }
    ensures starts { (us : List Source) (text : TextNo) (args : Data) → IsStart us text args →
        0 < length (body_at (program_code us) (OfProcess text.0)) }
    ensures main { (us : List Source) → IsStart us (main_text us) none → IsWholeCode (program_code us) }
{}

/// Code that spins without a turn, jumps back behind the turn of its loop, lacks an operand, runs off its end, comes to a place with two
/// heights, or tests a guard above an operand that its parts don't have, is not sound.
pub fn bad_code_is_unsound()
    ensures spins { (height : ℕ → ℕ) → HasHeights (Jump 0 ∷ []) height → ⊥ }
    ensures skips { (x : Datum) (height : ℕ → ℕ) → HasHeights (Jump 2 ∷ (Turn ∷ (Push x ∷ (Unless 5 ∷ (Jump 2 ∷ (End ∷ [])))))) height → ⊥ }
    ensures lacks { (height : ℕ → ℕ) → HasHeights (Pop ∷ (End ∷ [])) height → ⊥ }
    ensures runs_off { (x : Datum) (height : ℕ → ℕ) → HasHeights (Push x ∷ []) height → ⊥ }
    ensures disagrees { (x y : Datum) (height : ℕ → ℕ) → HasHeights (Push x ∷ (Unless 3 ∷ (Push y ∷ (End ∷ [])))) height → ⊥ }
    ensures keeps_under { (x y : Datum) (height : ℕ → ℕ) → HasHeights (Push x ∷ (Push y ∷ (Guard 4 ∷ (Pop ∷ (End ∷ []))))) height → ⊥ }
    ensures tests_again { (x : Datum) (height : ℕ → ℕ) → HasHeights (Turn ∷ (Push x ∷ (Guard 0 ∷ (End ∷ [])))) height → ⊥ }
{}

/// The listings of two programs, as they are worked out by hand.
pub fn listing_examples()
    ensures first { code_text (program_code a_program) ≡ a_listing }
    ensures second { code_text (program_code rows_program) ≡ rows_listing }
{}
