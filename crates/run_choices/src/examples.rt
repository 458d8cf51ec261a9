//! Settings, computed.

ghost use Rattle.std.specs.Prelude.{◌≡◌, ◌∷◌, []};
ghost use Rattle.orca_base.specs.declared.what.Choice.TheVariants.{Replicated, Single};
ghost use Rattle.estimate_rules.specs.Examples.{made_42};
ghost use Rattle.replica_choice.specs.Asking.{by_cost};
ghost use Rattle.run_choices.specs.Chosen.{run_choices, run_settings, told_by_run};
ghost use Rattle.run_choices.specs.Examples.{on_three};

/// Of the program that `make --source 42` prints, on three members: where none of them may be lost, its pool is at one member, and the
/// policy by cost was asked about both of its sites; where one may be lost, no site is chosen, and nothing is asked. The other settings are
/// the numbers of the words.
pub fn settings_examples()
    ensures none_lost { run_choices by_cost [] (on_three 0) made_42 ≡ [] ∷ (Replicated ∷ Single ∷ []) ∷ [] }
    ensures asked { told_by_run by_cost [] (on_three 0) made_42 ≡
        record { reads = 101; writes = 100; nodes = 3; choice = Replicated }
        ∷ record { reads = 0; writes = 20; nodes = 3; choice = Single } ∷ [] }
    ensures one_lost { run_settings by_cost [] (on_three 1) made_42 2 ≡
        record { nodes = 3; resilience = 1; turns = 9000; events = 500; wires = 2; choices = [] } }
    ensures unasked { told_by_run by_cost [] (on_three 1) made_42 ≡ [] }
{}
