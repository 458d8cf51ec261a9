//! Lines, computed.

ghost use Rattle.std.specs.Prelude.{◌≡◌, ◌∷◌, ◌++◌, [], codes};
ghost use Rattle.orca_base.specs.declared.what.Choice.TheVariants.{Replicated, Single};
ghost use Rattle.estimate_rules.specs.Examples.{made_42, two_producers};
ghost use Rattle.replica_choice.specs.Asking.{always_replicated, by_cost, by_list};
ghost use Rattle.choice_command.specs.Lines.{choice_lines, choices_by_text};

/// What is printed, where what costs less is chosen, of the program that `make --source 42` prints, on three members and on five, and of
/// two producers that fill a pool, on three; and of the first, where all is replicated, and where the one answer is that the first object
/// has a single copy. And the choices of a run of both on three members: the first text of the first program has no site, nor has that of a
/// producer.
pub fn line_examples()
    ensures three { choice_lines by_cost 3 [] made_42 ≡
        codes "OrcaMain T reads 101 writes 100 replicated" ++ 10 ∷ (codes "OrcaMain P reads 0 writes 20 single" ++ 10 ∷ []) }
    ensures five { choice_lines by_cost 5 [] made_42 ≡
        codes "OrcaMain T reads 101 writes 100 single" ++ 10 ∷ (codes "OrcaMain P reads 0 writes 20 single" ++ 10 ∷ []) }
    ensures pool { choice_lines by_cost 3 [] two_producers ≡ codes "OrcaMain P reads 0 writes 30 single" ++ 10 ∷ [] }
    ensures always { choice_lines always_replicated 5 [] made_42 ≡
        codes "OrcaMain T reads 101 writes 100 replicated" ++ 10 ∷ (codes "OrcaMain P reads 0 writes 20 replicated" ++ 10 ∷ []) }
    ensures of_run { choices_by_text by_cost 3 [] made_42 ≡ [] ∷ (Replicated ∷ Single ∷ []) ∷ [] }
    ensures of_pool_run { choices_by_text by_cost 3 [] two_producers ≡ [] ∷ (Single ∷ []) ∷ [] }
    ensures listed { choice_lines (by_list (Single ∷ [])) 3 [] made_42 ≡
        codes "OrcaMain T reads 101 writes 100 single" ++ 10 ∷ (codes "OrcaMain P reads 0 writes 20 replicated" ++ 10 ∷ []) }
{}
