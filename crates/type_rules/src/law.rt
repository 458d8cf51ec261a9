//! The law of typing, and its rules, computed.

ghost use Rattle.std.specs.Prelude.{◌≡◌, List};
ghost use Rattle.link_rules.specs.Rules.{first};
ghost use Rattle.type_rules.specs.Types.{DataType};
ghost use Rattle.type_rules.specs.Rules.{Breach};
ghost use Rattle.type_rules.specs.Order.{IsFirstInText};
ghost use Rattle.type_rules.specs.Laws.{IsInTextOrder, IsOneType};
ghost use Rattle.type_rules.specs.Breaches.{IsWellTyped, breaches};
ghost use Rattle.type_rules.specs.Examples.{a_net, a_pool, breach, rule_1, rule_2, rule_3, rule_4, rule_5, rule_6, rule_7, rule_8, rule_9, rule_10, rule_11, rule_12, rule_13, rule_14, rule_15, rule_16, rule_17, rule_18, rule_19, rule_20, rule_21, rule_22, rule_23, rule_24, rule_25, rule_26, rule_27, rule_28, rule_29, rule_30, rule_31, rule_32, rule_33, rule_34, rule_35, rule_36, rule_37, rule_38, rule_39, rule_40, rule_41};

/// The law of typing. Two types are one type exactly where they have the same layers and bounds and the same base. The breaches of a
/// text are put in the order of their places, and at one place of their rules; the first is the least of them, in whatever order they
/// are listed.
pub fn typing_law()
    ensures same { (t u : DataType) → IsOneType t u }
    ensures order { (bs : List Breach) → IsInTextOrder bs }
    ensures first { (bs : List Breach) → IsFirstInText bs }
{}

/// Each rule of typing, at the example whose number it has; and two programs that are well typed.
pub fn typing_examples()
    ensures a_net { IsWellTyped a_net }
    ensures a_pool { IsWellTyped a_pool }
    ensures rule_1 { first (breaches rule_1) ≡ breach 1 5 3 }
    ensures rule_2 { first (breaches rule_2) ≡ breach 2 1 24 }
    ensures rule_3 { first (breaches rule_3) ≡ breach 3 4 7 }
    ensures rule_4 { first (breaches rule_4) ≡ breach 4 4 7 }
    ensures rule_5 { first (breaches rule_5) ≡ breach 5 1 10 }
    ensures rule_6 { first (breaches rule_6) ≡ breach 6 3 6 }
    ensures rule_7 { first (breaches rule_7) ≡ breach 7 1 22 }
    ensures rule_8 { first (breaches rule_8) ≡ breach 8 1 6 }
    ensures rule_9 { first (breaches rule_9) ≡ breach 9 1 11 }
    ensures rule_10 { first (breaches rule_10) ≡ breach 10 1 10 }
    ensures rule_11 { first (breaches rule_11) ≡ breach 11 2 23 }
    ensures rule_12 { first (breaches rule_12) ≡ breach 12 3 1 }
    ensures rule_13 { first (breaches rule_13) ≡ breach 13 3 3 }
    ensures rule_14 { first (breaches rule_14) ≡ breach 14 3 3 }
    ensures rule_15 { first (breaches rule_15) ≡ breach 15 5 3 }
    ensures rule_16 { first (breaches rule_16) ≡ breach 16 1 10 }
    ensures rule_17 { first (breaches rule_17) ≡ breach 17 4 9 }
    ensures rule_18 { first (breaches rule_18) ≡ breach 18 4 10 }
    ensures rule_19 { first (breaches rule_19) ≡ breach 19 2 3 }
    ensures rule_20 { first (breaches rule_20) ≡ breach 20 2 3 }
    ensures rule_21 { first (breaches rule_21) ≡ breach 21 2 6 }
    ensures rule_22 { first (breaches rule_22) ≡ breach 22 2 15 }
    ensures rule_23 { first (breaches rule_23) ≡ breach 23 2 3 }
    ensures rule_24 { first (breaches rule_24) ≡ breach 24 2 8 }
    ensures rule_25 { first (breaches rule_25) ≡ breach 25 3 15 }
    ensures rule_26 { first (breaches rule_26) ≡ breach 26 2 3 }
    ensures rule_27 { first (breaches rule_27) ≡ breach 27 2 3 }
    ensures rule_28 { first (breaches rule_28) ≡ breach 28 4 5 }
    ensures rule_29 { first (breaches rule_29) ≡ breach 29 3 3 }
    ensures rule_30 { first (breaches rule_30) ≡ breach 30 3 5 }
    ensures rule_31 { first (breaches rule_31) ≡ breach 31 4 5 }
    ensures rule_32 { first (breaches rule_32) ≡ breach 32 3 5 }
    ensures rule_33 { first (breaches rule_33) ≡ breach 33 3 13 }
    ensures rule_34 { first (breaches rule_34) ≡ breach 34 2 16 }
    ensures rule_35 { first (breaches rule_35) ≡ breach 35 2 8 }
    ensures rule_36 { first (breaches rule_36) ≡ breach 36 2 8 }
    ensures rule_37 { first (breaches rule_37) ≡ breach 37 2 13 }
    ensures rule_38 { first (breaches rule_38) ≡ breach 38 2 13 }
    ensures rule_39 { first (breaches rule_39) ≡ breach 39 2 12 }
    ensures rule_40 { first (breaches rule_40) ≡ breach 40 2 9 }
    ensures rule_41 { first (breaches rule_41) ≡ breach 41 2 16 }
{}
