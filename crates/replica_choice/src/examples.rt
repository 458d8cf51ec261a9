//! Choices, computed.

ghost use Rattle.std.specs.Prelude.{◌≡◌, ◌∷◌, ◌++◌, [], codes};
ghost use Rattle.orca_base.specs.declared.what.Choice.TheVariants.{Replicated, Single};
ghost use Rattle.replica_choice.specs.Asking.{always_replicated, by_cost, by_list, choice_by_cost, choices_by};
ghost use Rattle.replica_choice.specs.Examples.{sites_of_42};
ghost use Rattle.replica_choice.specs.Printed.{choice_text};

/// What is chosen for two sites, and printed of it: among three members and among five; where both cost the same, and where a copy at every
/// member costs more; by a list that is shorter; and always a copy at every member.
pub fn choice_examples()
    ensures three { choice_text sites_of_42 (choices_by by_cost 3 [] sites_of_42) ≡
        codes "OrcaMain T reads 101 writes 100 replicated" ++ 10 ∷ (codes "OrcaMain P reads 0 writes 20 single" ++ 10 ∷ []) }
    ensures five { choice_text sites_of_42 (choices_by by_cost 5 [] sites_of_42) ≡
        codes "OrcaMain T reads 101 writes 100 single" ++ 10 ∷ (codes "OrcaMain P reads 0 writes 20 single" ++ 10 ∷ []) }
    ensures equal { choice_by_cost 4 3 3 ≡ Replicated }
    ensures more { choice_by_cost 4 2 3 ≡ Single }
    ensures listed { choices_by (by_list (Single ∷ [])) 3 [] sites_of_42 ≡ Single ∷ Replicated ∷ [] }
    ensures always { choices_by always_replicated 16 [] sites_of_42 ≡ Replicated ∷ Replicated ∷ [] }
{}
