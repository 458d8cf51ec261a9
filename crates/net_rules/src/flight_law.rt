//! Packets in flight, at examples.

ghost use Rattle.std.specs.Prelude.{◌≡◌, Bool, true, false, [], ◌∷◌};
ghost use Rattle.net_rules.specs.declared.fate.Fate.TheVariants.{Cut, Drop, Hold, Pass, Twice};
ghost use Rattle.net_rules.specs.Flights.{first_ready, flight, joined, ready_copy, some_held, ticked, travels, without};
ghost use Rattle.net_rules.specs.FlightExamples.{bytes, one, sent, three};

/// What becomes of a packet.
pub fn sending_examples()
    ensures pass { sent 3 Pass ≡ one 3 0 0 ∷ [] }
    ensures lost { sent 3 Drop ≡ [] }
    ensures twice { sent 3 Twice ≡ one 3 0 0 ∷ one 3 1 0 ∷ [] }
    ensures held { sent 3 (Hold 2) ≡ one 3 0 2 ∷ [] }
    ensures not_held { sent 3 (Hold 0) ≡ sent 3 Pass }
    ensures cut { sent 3 (Cut 1) ≡ flight 3 0 0 1 0 (7 ∷ []) ∷ [] }
    ensures whole { sent 3 (Cut 2) ≡ sent 3 Pass }
    ensures within { joined 2 (sent 2 Pass) (one 1 0 0 ∷ one 3 0 0 ∷ []) ≡ one 1 0 0 ∷ one 2 0 0 ∷ one 3 0 0 ∷ [] }
{}

/// What arrives, and when.
pub fn arriving_examples()
    ensures order { three ≡ one 1 0 2 ∷ one 2 0 0 ∷ one 2 1 0 ∷ one 3 0 0 ∷ [] }
    ensures there { travels 2 three ≡ true }
    ensures not_there { travels 4 three ≡ false }
    // The first is held, so the first copy of the second is the lowest that is ready.
    ensures first { first_ready three ≡ Some (2, 0) }
    ensures held { some_held three ≡ true }
    ensures not_yet { ready_copy 1 0 three ≡ None }
    ensures copy { ready_copy 2 1 three ≡ Some (one 2 1 0) }
    ensures taken { without 2 0 three ≡ one 1 0 2 ∷ one 2 1 0 ∷ one 3 0 0 ∷ [] }
    // Two ticks later it is ready.
    ensures nearer { ticked three ≡ one 1 0 1 ∷ one 2 0 0 ∷ one 2 1 0 ∷ one 3 0 0 ∷ [] }
    ensures ready { first_ready (ticked (ticked three)) ≡ Some (1, 0) }
    ensures none_held { some_held (ticked (ticked three)) ≡ false }
{}
