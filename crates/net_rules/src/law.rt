//! What scripts say, at examples and in general.

ghost use Rattle.std.specs.Prelude.{◌≡◌, [], ◌∷◌, List, None, ℕ};
ghost use Rattle.group_packets.specs.declared.packet.PacketKind.{PacketKind as Sort};
ghost use Rattle.group_packets.specs.declared.packet.PacketKind.TheVariants.{Accept, Entry, Request};
ghost use Rattle.net_rules.specs.declared.asked.Asked.{Asked as Told};
ghost use Rattle.net_rules.specs.declared.line.ScriptLine.TheVariants.{Seed};
ghost use Rattle.net_rules.specs.declared.fate.Fate.TheVariants.{Drop, Hold, Pass, Twice};
ghost use Rattle.net_rules.specs.declared.fate.WireAct.TheVariants.{Crash, Suspect, Swap};
ghost use Rattle.net_rules.specs.Examples.{act, acts, all_lost, faults, none_lost, packet};
ghost use Rattle.net_rules.specs.Script.{drawn, script_act, script_fate, seeded_fate};

/// What the lines say of packets: each counts those of its own kinds, the first that speaks of a packet says its fate, and what none
/// says passes.
pub fn fate_examples()
    ensures first { script_fate faults [] Entry ≡ Pass }
    ensures second { script_fate faults (packet Entry ∷ []) Entry ≡ Drop }
    ensures other { script_fate faults (packet Entry ∷ []) Request ≡ Pass }
    ensures any { script_fate faults (packet Entry ∷ packet Request ∷ []) Request ≡ Hold 2 }
    ensures order { script_fate faults (packet Entry ∷ packet Request ∷ []) Entry ≡ Drop }
    ensures before { script_fate faults (packet Entry ∷ packet Request ∷ []) Accept ≡ Hold 2 }
    ensures all { script_fate faults (packet Accept ∷ []) Accept ≡ Twice }
    ensures none { script_fate [] (packet Entry ∷ []) Entry ≡ Pass }
{}

/// What they say of acts: one is due once enough packets were asked about, and each is given once, in the order of the lines.
pub fn act_examples()
    ensures none { script_act acts [] ≡ None }
    ensures first { script_act acts (packet Entry ∷ []) ≡ Some Swap }
    ensures next { script_act acts (act (Some Swap) ∷ packet Entry ∷ []) ≡ Some (Suspect 1) }
    ensures order { script_act acts (packet Entry ∷ packet Entry ∷ []) ≡ Some (Crash 0) }
    ensures later { script_act acts (packet Entry ∷ act (Some Swap) ∷ packet Entry ∷ []) ≡ Some (Crash 0) }
    ensures once { script_act acts (act None ∷ act None ∷ act None ∷ packet Entry ∷ packet Entry ∷ []) ≡ None }
    // What was answered there doesn't count, but what the script would have.
    ensures whatever { script_act acts (act None ∷ packet Entry ∷ []) ≡ Some (Suspect 1) }
{}

/// By chance: what another line says draws no word, a hundred of a hundred words drop, and none does at 0.
pub fn chance_examples()
    ensures lost { script_fate all_lost [] Accept ≡ Drop }
    ensures said { script_fate all_lost [] Entry ≡ Twice }
    ensures words { drawn all_lost (packet Accept ∷ packet Entry ∷ packet Request ∷ []) ≡ 2 }
    ensures kept { script_fate none_lost (packet Accept ∷ []) Accept ≡ Pass }
{}

/// The empty script lets every packet pass, and gives no act; and a script of random words alone says what these say, whatever was
/// answered before. For proofs; it does nothing.
pub fn plain_law()
    ensures passes { (asked : List Told) (kind : Sort) → script_fate [] asked kind ≡ Pass }
    ensures never { (asked : List Told) → script_act [] asked ≡ None }
    ensures chance { (seed percent : ℕ) (asked : List Told) (kind : Sort) →
        script_fate (Seed seed percent ∷ []) asked kind ≡ seeded_fate seed percent asked }
    ensures alone { (seed percent : ℕ) (asked : List Told) → script_act (Seed seed percent ∷ []) asked ≡ None }
{}
