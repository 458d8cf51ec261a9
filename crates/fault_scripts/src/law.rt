//! What single lines say, at examples.

ghost use Rattle.std.specs.Prelude.{◌≡◌, Err, Ok, codes, true};
ghost use Rattle.group_packets.specs.declared.packet.PacketKind.TheVariants.{Accept, Entry, Nack};
ghost use Rattle.net_rules.specs.declared.fate.Fate.TheVariants.{Cut, Drop, Hold, Twice};
ghost use Rattle.net_rules.specs.declared.fate.WireAct.TheVariants.{Crash, Suspect, Swap};
ghost use Rattle.net_rules.specs.declared.line.Kinds.TheVariants.{Any, Only};
ghost use Rattle.net_rules.specs.declared.line.ScriptLine.TheVariants.{Act, Fate, Seed};
ghost use Rattle.net_rules.specs.declared.line.Which.TheVariants.{All, Nth};
ghost use Rattle.fault_scripts.specs.declared.error.ScriptError.TheVariants.{BadNumber, UnknownWord};
ghost use Rattle.fault_scripts.specs.Examples.{says};
ghost use Rattle.fault_scripts.specs.Reading.{said_at};
ghost use Rattle.fault_scripts.specs.Words.{words_of};

/// A line of each form.
pub fn form_examples()
    ensures drops { says (codes "drop entry 2") ≡ Ok (Fate (Only Entry) (Nth 2) Drop) }
    ensures twice { says (codes "twice any all") ≡ Ok (Fate Any All Twice) }
    ensures holds { says (codes " hold  accept 3 2 ") ≡ Ok (Fate (Only Accept) (Nth 3) (Hold 2)) }
    ensures cuts { says (codes "cut nack all 26") ≡ Ok (Fate (Only Nack) All (Cut 26)) }
    ensures crash { says (codes "crash 0 accept 6") ≡ Ok (Act (Only Accept) 6 (Crash 0)) }
    ensures suspect { says (codes "suspect 15 any 1") ≡ Ok (Act Any 1 (Suspect 15)) }
    ensures swap { says (codes "swap entry 0002") ≡ Ok (Act (Only Entry) 2 Swap) }
    ensures seed { says (codes "seed 7 100") ≡ Ok (Seed 7 100) }
    ensures greatest { says (codes "drop any 9999999999999999999") ≡ Ok (Fate Any (Nth 9999999999999999999) Drop) }
{}

/// The first wrong word of a line, from the left.
pub fn refusal_examples()
    ensures verb { says (codes "lose entry 2") ≡ Err (UnknownWord 1) }
    ensures number { says (codes "drop entry x") ≡ Err (BadNumber 1) }
    ensures spaces { says (codes "  ") ≡ Err (UnknownWord 1) }
    ensures left { says (codes "drop Entry x") ≡ Err (UnknownWord 1) }
    ensures missing_kind { says (codes "swap") ≡ Err (UnknownWord 1) }
    ensures missing_number { says (codes "hold entry 2") ≡ Err (BadNumber 1) }
    ensures many { says (codes "drop entry 2 2") ≡ Err (UnknownWord 1) }
    ensures zero { says (codes "twice any 0") ≡ Err (BadNumber 1) }
    ensures all_acts { says (codes "crash 0 any all") ≡ Err (BadNumber 1) }
    ensures member { says (codes "suspect 16 sync 1") ≡ Err (BadNumber 1) }
    ensures percent { says (codes "seed 1 101") ≡ Err (BadNumber 1) }
    ensures seed { says (codes "seed 9223372036854775808 1") ≡ Err (BadNumber 1) }
    ensures ticks { says (codes "hold any 1 4294967296") ≡ Err (BadNumber 1) }
    ensures digits { says (codes "drop any 00000000000000000001") ≡ Err (BadNumber 1) }
    ensures sign { says (codes "drop any +1") ≡ Err (BadNumber 1) }
    // Where a line of random words stands already, `seed` begins no line.
    ensures again { said_at true 3 (words_of (codes "seed x")) ≡ Err (UnknownWord 3) }
{}
