//! The law of compiled code, and programs whose code is computed.

ghost use Rattle.std.specs.Prelude.{List, ◌≡◌, [], ◌∷◌, codes, pos};
ghost use Rattle.orca_base.specs.declared.fault.FaultKind.TheVariants.{FromEmpty, IndexOutside, Overflow};
ghost use Rattle.link_rules.specs.Units.{Source};
ghost use Rattle.value_core.specs.Datum as datum;
ghost use Rattle.value_core.specs.Datum.{data_of};
ghost use Rattle.value_core.specs.declared.action.Action.TheVariants as action;
ghost use Rattle.value_core.specs.declared.action.Reply.TheVariants.{Broke, Done, Gave};
ghost use Rattle.value_core.specs.declared.meaning.Doing.TheVariants.{Busy};
ghost use Rattle.value_core.specs.declared.meaning.Making.TheVariants as making;
ghost use Rattle.value_core.specs.declared.meaning.Tried.TheVariants as tried;
ghost use Rattle.value_core.specs.declared.processor.Halt.{Halt};
ghost use Rattle.value_core.specs.declared.processor.Halt.TheVariants.{At, Paused};
ghost use Rattle.value_core.specs.declared.value.Value.TheVariants.{Int};
ghost use Rattle.meaning_rules.specs.Programs.{main_text};
ghost use Rattle.meaning_rules.specs.Runs.{integers};
ghost use Rattle.code_rules.specs.Machine.{Code, OfFunction, body_at, ProcessState};
ghost use Rattle.code_rules.specs.Program.{program_code};
ghost use Rattle.code_rules.specs.Performing.{NotYet, To};
ghost use Rattle.code_rules.specs.Correct.{FitsSo, IsStart, IsTry, Means};
ghost use Rattle.code_rules.specs.Resuming.{Resumes, stands};
ghost use Rattle.code_rules.specs.Stepping.{BeginsSo, IsRunning, StepsSo};
ghost use Rattle.code_rules.specs.PhrasesExample.{fill_code, first_go, forks_on, halt_and_turns, rows_begin, rows_first, rows_code, rows_does, rows_program, second_go, third_go};
ghost use Rattle.code_rules.specs.Example.{a_program, at, did, forks, main_does, pool, pool_makes, pool_object, pool_tries, producer_does, puts, takes, writes};

/// Compiled code means the source (docs/proofs/code.md), for every list of sources. What a process does next, what a making gives and what
/// a try of an operation gives is what the meaning says: with enough instructions the code comes to that, and with fewer it still runs, so
/// it comes to nothing else and never gets stuck.
/// Of whatever code means the source: a process may stop at each action and each turn, and goes on from what is kept there, with whatever
/// budget; and a machine that goes instruction by instruction comes to what is meant, in a number of instructions that falls.
/// The premises are that a text is there, and that there are as many arguments as parameters and as many values as fields: whatever fits
/// meets them. A call of this function does nothing, nor does one of the other laws.
pub fn code_law()
    ensures means { (us : List Source) → Means us (program_code us) }
    ensures resumes { (us : List Source) (code : Code) → Means us code → Resumes us code }
    ensures begins { (us : List Source) (code : Code) → Means us code → BeginsSo us code }
    ensures steps { (code : Code) → StepsSo code }
    ensures fits { (us : List Source) → FitsSo us }
{}

/// A program whose code is computed: its processes, step by step, and its object type. What it is expected to do is worked out by hand,
/// from its text.
pub fn program_example()
    ensures starts { IsStart a_program (main_text a_program) datum.none }
    ensures forked { IsStart a_program (record { 0 = 0 }) (data_of (datum.object 0 1 ∷ integers (7 ∷ []))) }
    ensures tried { IsTry a_program pool (record { 0 = 1 }) (data_of (datum.bag datum.none ∷ [])) datum.none }
    ensures makes { main_does [] 5 100 ≡ To (at (action.Make pool pool_object)) }
    ensures puts { main_does (Done ∷ []) 5 100 ≡ To (at (puts 2)) }
    ensures puts_again { main_does (Done ∷ Done ∷ []) 5 100 ≡ To (at (puts 4)) }
    ensures forks { main_does (Done ∷ Done ∷ Done ∷ []) 5 100 ≡ To (at forks) }
    ensures takes { main_does (Done ∷ Done ∷ Done ∷ Done ∷ []) 5 100 ≡ To (at takes) }
    ensures writes { main_does (Done ∷ Done ∷ Done ∷ Done ∷ Gave (Int (pos 2)) ∷ []) 5 100 ≡ To (at (writes (codes "2"))) }
    ensures ends { main_does (Done ∷ Done ∷ Done ∷ Done ∷ Gave (Int (pos 2)) ∷ Done ∷ []) 5 100 ≡ To (at action.Ended) }
    ensures faults { main_does (Done ∷ Done ∷ Done ∷ Done ∷ Broke FromEmpty ∷ []) 5 100 ≡ To (at (action.Faulted FromEmpty)) }
    ensures a_turn_less { main_does (Done ∷ Done ∷ []) 4 100 ≡ To Busy }
    ensures still_runs { main_does (Done ∷ []) 5 10 ≡ NotYet }
    ensures producer { producer_does [] 100 ≡ To (at (puts 14)) }
    ensures making { pool_makes 100 ≡ To (making.Made (data_of (datum.bag (data_of (integers (9 ∷ []))) ∷ []))) }
    ensures take { pool_tries 1 (integers (2 ∷ 7 ∷ [])) [] 100 ≡ To (did 1 (integers (7 ∷ [])) (Gave (Int (pos 2)))) }
    ensures blocked { pool_tries 1 [] [] 100 ≡ To tried.Blocked }
    ensures put { pool_tries 0 (integers (2 ∷ 7 ∷ [])) (integers (5 ∷ [])) 100 ≡ To (did 0 (integers (2 ∷ 5 ∷ 7 ∷ [])) Done) }
{}

/// Another program, with the other phrases: the code of its function, what its first process does, and how a machine goes on with that from
/// a turn and from a reply.
pub fn phrases_example()
    ensures starts { IsStart rows_program (main_text rows_program) datum.none }
    ensures fill { body_at rows_code (OfFunction 1) ≡ fill_code }
    ensures forks { rows_does [] 5 ≡ To (at forks_on) }
    ensures writes { rows_does (Done ∷ []) 5 ≡ To (at (writes (codes "ab30"))) }
    ensures faults { rows_does (Done ∷ Done ∷ []) 5 ≡ To (at (action.Faulted IndexOutside)) }
    ensures a_turn_less { rows_does [] 4 ≡ To Busy }
    ensures paused { halt_and_turns first_go ≡ To (Paused, 2) }
    ensures goes_on { halt_and_turns second_go ≡ To (At forks_on, 4) }
    ensures goes_behind_the_reply { halt_and_turns (third_go Done) ≡ To (At (writes (codes "ab30")), 4) }
    ensures takes_a_fault { halt_and_turns (third_go (Broke Overflow)) ≡ To (At (action.Faulted Overflow), 4) }
    ensures runs { (outcome : ProcessState × Halt) × (IsRunning rows_code outcome rows_first 0 2 200 × (outcome.1 ≡ Paused)) }
    ensures stands { stands rows_program rows_code rows_begin (main_text rows_program) (record { 0 = 0 }) datum.none [] 0 }
{}
