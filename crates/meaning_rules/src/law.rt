//! The meaning of programs, computed.

ghost use Rattle.std.specs.Prelude.{List, ◌≡◌, [], ◌∷◌, codes, flat_map, pos, None, Some, negsuc, Ok, Err, replicate, true, false};
ghost use Rattle.meaning_rules.specs.Operators.{fitting, fitting_all};
ghost use Rattle.orca_base.specs.declared.fault.FaultKind.TheVariants.{DivideByZero, FromEmpty, IndexOutside, NoReturn, Overflow, TooDeep, TooLarge, TooLong};
ghost use Rattle.value_core.specs.Datum as datum;
ghost use Rattle.value_core.specs.Datum.{data_of, Datum};
ghost use Rattle.value_core.specs.History.{IsStuck, Legal, output_of};
ghost use Rattle.value_core.specs.declared.action.Action.TheVariants as action;
ghost use Rattle.value_core.specs.declared.action.Class.TheVariants.{Reads, Writes};
ghost use Rattle.value_core.specs.declared.action.Reply.TheVariants.{Broke, Done};
ghost use Rattle.value_core.specs.declared.meaning.Doing.TheVariants.{At, Busy};
ghost use Rattle.value_core.specs.declared.meaning.Making.TheVariants as making;
ghost use Rattle.value_core.specs.declared.meaning.Tried.TheVariants as tried;
ghost use Rattle.type_rules.specs.Breaches.{breaches};
ghost use Rattle.type_rules.specs.Scopes.{Scope};
ghost use Rattle.link_rules.specs.Units.{Source};
ghost use Rattle.meaning_rules.specs.Accepted.{GivesOrder, IsAccepted, IsPlain};
ghost use Rattle.meaning_rules.specs.Preservation.{PhrasesPreserve, Preservation};
ghost use Rattle.meaning_rules.specs.FitsSound.{FitsSound};
ghost use Rattle.meaning_rules.specs.ReadsKeep.{ReadsKeep};
ghost use Rattle.meaning_rules.specs.Answers.{RepliesAnswer};
ghost use Rattle.meaning_rules.specs.Replies.{StaysOver, UsesFront};
ghost use Rattle.meaning_rules.specs.Fitting.{FitsArgs, FitsReply, FitsState, FitsText};
ghost use Rattle.meaning_rules.specs.ElementsFit.{ElementsFit};
ghost use Rattle.meaning_rules.specs.GraphsFit.{GraphsFit};
ghost use Rattle.meaning_rules.specs.PartsFit.{PartsFit};
ghost use Rattle.meaning_rules.specs.PathsFit.{PathsFit};
ghost use Rattle.meaning_rules.specs.StaysFit.{ArgumentsStay, StatesStay, TextsStay};
ghost use Rattle.meaning_rules.specs.Settled.{IsSettled};
ghost use Rattle.meaning_rules.specs.Turns.{CountsTurns, TakesTurns};
ghost use Rattle.meaning_rules.specs.Runs.{class, did, does, ended, faulted, first_made, four_lines, gave, three_lines, twelve_lines, integers, kind, makes, runs, stand, tries};
ghost use Rattle.orca_tree.specs.declared.tree.Operator.TheVariants as op;
ghost use Rattle.meaning_rules.specs.Processes.{own_object};
ghost use Rattle.meaning_rules.specs.Operations.{body_tried, start};
ghost use Rattle.meaning_rules.specs.Functions.{hand_back};
ghost use Rattle.meaning_rules.specs.Calls.{Lent};
ghost use Rattle.meaning_rules.specs.Variables.{store, take};
ghost use Rattle.meaning_rules.specs.States.{Goes, Stops, Faults};
ghost use Rattle.meaning_rules.specs.Expressions.{linked};
ghost use Rattle.meaning_rules.specs.Loops.{between, count};
ghost use Rattle.meaning_rules.specs.Statements.{assign, run_all};
ghost use Rattle.meaning_rules.specs.Phrases.{get, name, number};
ghost use Rattle.meaning_rules.specs.WrongRules.{bad_index as index_by_zero, body_frame, body_program, body_scope, body_state, both_operands, bound_in_each_round, divides, evaluates, fault_keeps_half, faults_behind, frame_of, here, overflows, right_side_first, runs_adds, take_greatest, the_set, variable_stays};
ghost use Rattle.meaning_rules.specs.Meanings.{computes_of, performs_of};
ghost use Rattle.meaning_rules.specs.ObjectExamples.{programs as object_programs, a_pair, a_pool, broken_making, changes, forever, guards, one_orca, pool_orca, reads_and_writes, two_types};
ghost use Rattle.meaning_rules.specs.PhraseExamples.{programs as phrase_programs, left_loops, low_first, phrases, too_deep, two_arguments, two_indices, two_large};
ghost use Rattle.meaning_rules.specs.ProcessExamples.{programs as process_programs, a_chain_of_nodes, bad_index, counting, down, element_first, empty_main, forked_badly, forking, handed_back, indices_first, least_divided, least_element, least_remainder, left_by_return, left_first, no_return, of_another_module, once_until, records, right_side_before_the_walk, short_and, texts, three_rounds, three_until};

use graph_values::graphs_law;
use type_rules::typing_law;
use value_ops::{elements_law, texts_law};
use value_paths::paths_law;

/// Programs of processes and functions: what each writes, and how it stands then.
pub fn process_examples()
    ensures empty_main { runs empty_main 1000 ≡ stand [] ended }
    ensures left_first { runs left_first 1000 ≡ stand [] (faulted FromEmpty) }
    ensures indices_first { runs indices_first 1000 ≡ stand [] (faulted DivideByZero) }
    ensures right_side { runs right_side_before_the_walk 1000 ≡ stand [] (faulted DivideByZero) }
    ensures bad_index { runs bad_index 1000 ≡ stand (codes "05\n") (faulted IndexOutside) }
    ensures short_and { runs short_and 1000 ≡ stand (codes "or\n") ended }
    ensures least_divided { runs least_divided 1000 ≡ stand (codes "-9223372036854775808\n") (faulted Overflow) }
    ensures least_remainder { runs least_remainder 1000 ≡ stand (codes "-3 -1\n") (faulted Overflow) }
    ensures element_first { runs element_first 1000 ≡ stand [] (faulted FromEmpty) }
    ensures texts { runs texts 1000 ≡ stand (codes "a3truecRedGreen\n13\n\n") ended }
    ensures least_element { runs least_element 1000 ≡ stand (codes "3\n1\n2falsetrue\n") ended }
    ensures records { runs records 1000 ≡ stand (codes "940true\n") ended }
    ensures nodes { runs a_chain_of_nodes 1000 ≡ stand (codes "7false\n") (faulted IndexOutside) }
    ensures three_rounds { runs three_rounds 4 ≡ stand (codes "3\n") ended }
    ensures a_round_more { runs three_rounds 3 ≡ stand [] Busy }
    ensures three_until { runs three_until 4 ≡ stand (codes "3\n") ended }
    ensures an_until_more { runs three_until 3 ≡ stand [] Busy }
    ensures once { runs once_until 2 ≡ stand (codes "once\n") ended }
    ensures counting { runs counting 4 ≡ stand (codes "1\n2\n3\n") ended }
    ensures handed_back { runs handed_back 1000 ≡ stand (codes "2 4\n") ended }
    ensures no_return { runs no_return 1000 ≡ stand [] (faulted NoReturn) }
    ensures left_by_return { runs left_by_return 1000 ≡ stand (codes "4\n") ended }
    ensures of_another_module { runs of_another_module 1000 ≡ stand (codes "Green-2\n") ended }
    ensures forks { does forking 1000 [] ≡ At (action.Fork (record { 0 = 0 }) (data_of (integers (4 ∷ []))) (Some (negsuc 0))) }
    ensures forks_again { does forking 1000 (Done ∷ []) ≡ At (action.Fork (record { 0 = 0 }) (data_of (integers (5 ∷ []))) None) }
    ensures forks_badly { runs forked_badly 1000 ≡ stand [] (faulted FromEmpty) }
    ensures down { runs down 1000 ≡ stand (codes "0\n") (faulted TooDeep) }
{}

/// Programs that tell phrases apart: operators of one level group from the left, of two parts the left one comes first, `return` leaves
/// loops, and a call asks the sizes of its arguments, and how deep it stands, before its turn begins.
pub fn phrase_examples()
    ensures phrases { runs phrases 1000
        ≡ stand (codes "3 7 abc\nfalse0true0\nfalsetruetruefalsetruefalsefalse\nno\n") ended }
    ensures two_indices { runs two_indices 1000 ≡ stand [] (faulted FromEmpty) }
    ensures two_arguments { runs two_arguments 1000 ≡ stand [] (faulted FromEmpty) }
    ensures low_first { runs low_first 1000 ≡ stand [] (faulted FromEmpty) }
    ensures left_loops { runs left_loops 1000 ≡ stand (codes "13\n") ended }
    ensures two_large { runs two_large 10 ≡ stand (codes "5120\n") (faulted TooLarge) }
    ensures too_deep { runs too_deep 65 ≡ stand [] (faulted TooDeep) }
    ensures a_turn_less { runs too_deep 64 ≡ stand [] Busy }
{}

/// Programs of objects: what tries and makings give, and histories.
pub fn object_examples()
    ensures history { Legal (performs_of one_orca) (computes_of one_orca) four_lines }
    ensures output { output_of four_lines ≡ codes "6\n" }
    ensures pool { Legal (performs_of pool_orca) (computes_of pool_orca) twelve_lines }
    ensures waits { IsStuck (performs_of pool_orca) (computes_of pool_orca) three_lines (record { 0 = 0 }) }
    ensures overflow { tries a_pair 0 (integers (0 ∷ 0 ∷ [])) [] ≡ tried.Broke 0 Overflow }
    ensures too_long { tries forever 0 (integers (0 ∷ [])) [] ≡ tried.Broke 0 TooLong }
    ensures no_return { tries a_pair 2 (integers (0 ∷ 0 ∷ [])) [] ≡ tried.Broke 0 NoReturn }
    ensures blocked { tries a_pool 1 (datum.bag (data_of []) ∷ []) [] ≡ tried.Blocked }
    ensures least { tries a_pool 1 (datum.bag (data_of (integers (2 ∷ 7 ∷ []))) ∷ []) []
        ≡ did 1 (datum.bag (data_of (integers (7 ∷ []))) ∷ []) (gave 2) }
    ensures put { tries a_pool 0 (datum.bag (data_of (integers (2 ∷ 7 ∷ []))) ∷ []) (integers (5 ∷ []))
        ≡ did 0 (datum.bag (data_of (integers (2 ∷ 5 ∷ 7 ∷ []))) ∷ []) Done }
    ensures begins { makes a_pool ≡ making.Made (data_of (datum.bag (data_of (integers (4 ∷ 9 ∷ []))) ∷ [])) }
    ensures first_guard { tries guards 0 (integers (0 ∷ [])) (integers (6 ∷ [])) ≡ did 1 (integers (0 ∷ [])) (gave 1) }
    ensures second_guard { tries guards 0 (integers (0 ∷ [])) (integers (4 ∷ [])) ≡ did 2 (integers (4 ∷ [])) (gave 2) }
    ensures no_guard { tries guards 0 (integers (0 ∷ [])) (integers (0 ∷ [])) ≡ tried.Blocked }
    ensures guard_faults { tries guards 1 (integers (0 ∷ [])) (integers (0 ∷ [])) ≡ tried.Broke 2 DivideByZero }
    ensures guard_before_a_fault { tries guards 1 (integers (0 ∷ [])) (integers (9 ∷ [])) ≡ did 1 (integers (0 ∷ [])) (gave 1) }
    ensures making { makes broken_making ≡ making.Broke DivideByZero }
    ensures makes_first { does broken_making 1000 [] ≡ At (action.Make kind (own_object (record { 0 = 0 }) 1)) }
    ensures makes_second { does broken_making 1000 (Done ∷ []) ≡ At (action.Make kind (own_object (record { 0 = 0 }) 2)) }
    ensures ends_by_a_making { does broken_making 1000 (Done ∷ Broke DivideByZero ∷ []) ≡ faulted DivideByZero }
    ensures second_type { does two_types 1000 [] ≡ At (action.Make (record { 0 = 2 }) (own_object (record { 0 = 0 }) 1)) }
    ensures first_type { does two_types 1000 (Done ∷ []) ≡ At (action.Make kind (own_object (record { 0 = 0 }) 2)) }
    ensures forks { does two_types 1000 (Done ∷ Done ∷ [])
        ≡ At (action.Fork (record { 0 = 0 }) (data_of (datum.int (pos 6) ∷ datum.object 0 2 ∷ [])) None) }
    ensures shares { does two_types 1000 (Done ∷ Done ∷ Done ∷ [])
        ≡ At (action.Call kind (record { 0 = 0 }) (own_object (record { 0 = 0 }) 2) (data_of (integers (6 ∷ [])))) }
    ensures worker { (computes_of two_types).doing (record { 0 = 0 }) (record { 0 = 1 })
        (data_of (datum.int (pos 6) ∷ datum.object 0 2 ∷ [])) [] 1000
        ≡ At (action.Call kind (record { 0 = 0 }) (own_object (record { 0 = 0 }) 2) (data_of (integers (7 ∷ [])))) }
    ensures field_handed_back { tries reads_and_writes 1
        (datum.int (pos 0) ∷ datum.set (data_of []) ∷ datum.array (data_of (integers (0 ∷ 0 ∷ 0 ∷ []))) ∷ []) []
        ≡ did 0 (datum.int (pos 0) ∷ datum.set (data_of []) ∷ datum.array (data_of (integers (0 ∷ 1 ∷ 0 ∷ []))) ∷ []) Done }
    ensures left_early { tries reads_and_writes 4 (datum.int (pos 0) ∷ datum.set (data_of []) ∷ datum.array (data_of []) ∷ []) []
        ≡ did 0 (datum.int (pos 3) ∷ datum.set (data_of []) ∷ datum.array (data_of []) ∷ []) (gave 2) }
{}

/// Which operations are reads: one that changes its own variables alone, in a loop too. Each way to change a field is a write.
pub fn class_examples()
    ensures own_variable { class reads_and_writes 0 ≡ Reads }
    ensures lent { class reads_and_writes 1 ≡ Writes }
    ensures taken { class reads_and_writes 2 ≡ Writes }
    ensures shown { class reads_and_writes 3 ≡ Reads }
    ensures sets { class changes 0 ≡ Writes }
    ensures inserts { class changes 1 ≡ Writes }
    ensures deletes { class changes 2 ≡ Writes }
    ensures adds { class changes 3 ≡ Writes }
    ensures frees { class changes 4 ≡ Writes }
    ensures counts { class changes 5 ≡ Reads }
{}

/// Sizes, and values that are handed back: the last one at a place stays.
pub fn value_examples()
    ensures longest { fitting (datum.text (replicate 9999 97)) ≡ Ok (datum.text (replicate 9999 97)) }
    ensures too_long { fitting (datum.text (replicate 10000 97)) ≡ Err TooLarge }
    ensures largest { fitting_all (data_of (replicate 10000 (datum.truth true))) ≡ Ok (data_of (replicate 10000 (datum.truth true))) }
    ensures too_large { fitting_all (data_of (replicate 10001 (datum.truth true))) ≡ Err TooLarge }
    ensures handed_back { frame_of (hand_back (Lent the_set ∷ Lent the_set ∷ []) (integers (1 ∷ 2 ∷ [])) body_state)
        ≡ frame_of (store the_set (datum.int (pos 2)) body_state) }
{}

/// Wrong rules, each told apart from the right one, which stands above it.
pub fn wrong_rules()
    ensures indices_first { assign here body_scope (name (codes "a")) index_by_zero overflows body_state ≡ Stops (Faults DivideByZero) }
    ensures right_side_first { right_side_first body_program body_scope (name (codes "a")) index_by_zero overflows body_state
        ≡ Stops (Faults Overflow) }
    ensures short { linked op.And (datum.truth false) (evaluates divides) body_state ≡ Goes (datum.truth false) body_state }
    ensures both_operands { both_operands op.And (datum.truth false) (evaluates divides) body_state ≡ Stops (Faults DivideByZero) }
    ensures counts { frame_of (count 3 (pos 1) runs_adds body_state) ≡ body_frame 6 0 (2 ∷ 7 ∷ []) }
    ensures variable_stays { frame_of (variable_stays 3 (pos 1) runs_adds body_state) ≡ body_frame 3 0 (2 ∷ 7 ∷ []) }
    ensures bound_once { frame_of (between (evaluates (number 1)) (evaluates (get (codes "n"))) runs_adds body_state)
        ≡ body_frame 6 0 (2 ∷ 7 ∷ []) }
    ensures bound_in_each_round { frame_of (bound_in_each_round 100 (pos 1) (evaluates (get (codes "n"))) runs_adds body_state)
        ≡ body_frame 1 0 (2 ∷ 7 ∷ []) }
    ensures least { take the_set body_state
        ≡ Goes (datum.int (pos 2)) (record { frame = body_frame 0 3 (7 ∷ []); replies = []; left = 100 }) }
    ensures takes_greatest { take_greatest the_set body_state
        ≡ Goes (datum.int (pos 7)) (record { frame = body_frame 0 3 (7 ∷ []); replies = []; left = 100 }) }
    ensures fault_keeps_none { body_tried 0 0 false (run_all here body_scope faults_behind body_state) ≡ tried.Broke 0 Overflow }
    ensures fault_keeps_half { fault_keeps_half body_program body_scope faults_behind body_state
        ≡ tried.Did 0 (data_of (body_frame 1 3 (2 ∷ 7 ∷ []))) (Broke Overflow) }
{}

/// Each of the programs is well typed.
pub fn examples_are_typed()
    ensures processes { flat_map breaches process_programs ≡ [] }
    ensures phrases { flat_map breaches phrase_programs ≡ [] }
    ensures objects { flat_map breaches object_programs ≡ [] }
    ensures wrong { breaches body_program ≡ [] }
{}

/// The law of the meaning. What a process does next, once it isn't busy, is the same for every greater number of turns. And an operation
/// that is a read leaves its object as it was, whatever the program: it asks for as many arguments as the operation has parameters, and as
/// many values as the object has fields. Replies are used from the front, one by each action, and others behind change nothing; a process
/// that has ended, has faulted or is busy is so with more replies. And replies that fit a process answer its text, whatever the turns.
/// An evaluation takes so many turns, or is busy: with so many and one it goes as with more, and with fewer it is busy; and a guard, a body
/// and a making begin with 10,000 and one.
pub fn meaning_law()
    ensures settled { (us : List Source) → IsSettled us }
    ensures reads { (us : List Source) → ReadsKeep us }
    ensures fronts { (us : List Source) → UsesFront us }
    ensures over { (us : List Source) → StaysOver us }
    ensures answers { (us : List Source) → RepliesAnswer us }
    ensures counts { (us : List Source) → CountsTurns us }
    ensures turns { (us : List Source) → TakesTurns us }
    ensures first { (frame : List Datum) → (start frame).left ≡ 10001 }
{}

/// What fits, on examples: the state that a making gives, and values that aren't of a type.
pub fn fitting_examples()
    ensures state { FitsState a_pool [] kind (data_of (datum.bag (data_of (integers (4 ∷ 9 ∷ []))) ∷ [])) }
    ensures no_state { FitsState a_pool [] kind (data_of (integers (4 ∷ []))) → ⊥ }
    ensures args { FitsArgs a_pool [] kind (record { 0 = 0 }) (data_of (integers (7 ∷ []))) }
    ensures no_args { FitsArgs a_pool [] kind (record { 0 = 0 }) (data_of (datum.truth true ∷ [])) → ⊥ }
    ensures reply { FitsReply a_pool kind (record { 0 = 1 }) (gave 4) }
    ensures no_reply { FitsReply a_pool kind (record { 0 = 1 }) Done → ⊥ }
    ensures text { FitsText pool_orca first_made (record { 0 = 0 }) (data_of (datum.object 0 1 ∷ integers (10 ∷ []))) }
    ensures no_text { FitsText pool_orca [] (record { 0 = 0 }) (data_of (datum.object 0 1 ∷ integers (10 ∷ []))) → ⊥ }
{}

/// What fits. The parts of a value of a type, which steps lead to, are of the parts' types, and a value in place of one leaves the whole of
/// its type; so are those at the ends of paths, which can be walked; so are elements, under `insert`, `delete` and `from`, and nodes, under
/// `addnode` and `deletenode`; and what fits goes on fitting as more objects come to be.
pub fn fitting_law()
    ensures parts { (us : List Source) → PartsFit us }
    ensures paths { (us : List Source) → PathsFit us }
    ensures elements { (us : List Source) → ElementsFit us }
    ensures graphs { (us : List Source) → GraphsFit us }
    ensures states { (us : List Source) → StatesStay us }
    ensures arguments { (us : List Source) → ArgumentsStay us }
    ensures texts { (us : List Source) → TextsStay us }
{
    elements_law();
    graphs_law();
}

/// Preservation, of a program with `IsAccepted`. A phrase without a breach, evaluated in variables that fit their scope, gives what is of
/// its type and leaves variables that fit, as long as replies are such as its actions can get; an action to which it comes is of an object
/// that is there, and of arguments that fit. So do functions; a made state fits, what a try leaves and replies fits, and processes are
/// lawful. What fits is sound. Where no rule is broken and the texts' words are sound, all bodies are in order, as `IsAccepted` asks; and a
/// program has it.
pub fn typed_law()
    ensures phrases { (v : Scope) → IsAccepted v.program → IsPlain v → PhrasesPreserve v }
    ensures programs { (us : List Source) → IsAccepted us → Preservation us }
    ensures sound { (us : List Source) → IsAccepted us → FitsSound us }
    ensures orderly { (us : List Source) → GivesOrder us }
    ensures example { IsAccepted empty_main }
{
    typing_law();
    elements_law();
    graphs_law();
    texts_law();
    paths_law();
}
