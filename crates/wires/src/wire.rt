//! What a wire is.

ghost use Rattle.std.specs.Prelude.{◌≡◌, ◌+◌, ◌<◌, ◌≤◌, ◌++◌, ◌∷◌, [], length, OnErr, OnOk};
ghost use Rattle.net_rules.specs.Asked.{packet_asked};
ghost use Rattle.net_rules.specs.declared.asked.Asked.TheVariants.{Act};
ghost use Rattle.wires.specs.Wired.{HasObeyed, with_script};

use fault_scripts::Script;
use group_packets::PacketKind;
use net_rules::{Fate, WireAct};
use orca_base::NoMemory;
use std::alloc::Global;

/// What stands between the members of a group: it says what happens to each packet, and what befalls members. Clauses see what it was
/// asked with its answers, in order of time, its rule, and for how many questions it has room.
pub trait Wire: Drop {
    ghost use Rattle.std.specs.Prelude.{List, ℕ};
    ghost use Rattle.net_rules.specs.declared.asked.Asked.{Asked};
    ghost use Rattle.wires.specs.Wired.{Rule};

    /// What it was asked so far, with its answers.
    ghost told: { Self → List Asked };

    /// How it answers by a script, and the script that it was loaded with last. A call changes the script at most.
    ghost rule: { Self → Rule };

    /// How much it was asked before that was loaded.
    ghost loaded: { Self → ℕ };

    /// How many questions it can take without memory.
    ghost spare: { Self → ℕ };

    /// Takes another script. What it was asked stays, and where memory lacks all does. It answers by scripts as before.
    fn load(&mut self, alloc: Global, script: &Script) -> Result<(), NoMemory>
        ensures loaded { OnOk result (rule self.new ≡ with_script script.now (rule self.old)) }
        ensures unchanged { OnErr result (rule self.new ≡ rule self.old) }
        ensures since { OnOk result (loaded self.new ≡ length (told self.old)) }
        ensures as_before { OnErr result (loaded self.new ≡ loaded self.old) }
        ensures told { told self.new ≡ told self.old }
        ensures spare { spare self.new ≡ spare self.old };

    /// Makes room for so many questions. Room that there is stays, and so does what it tells.
    fn make_room(&mut self, questions: u32) -> Result<(), NoMemory>
        ensures room { OnOk result (questions ≤ spare self.new) }
        ensures kept { spare self.old ≤ spare self.new }
        ensures unchanged { OnErr result (spare self.new ≡ spare self.old) }
        ensures told { told self.new ≡ told self.old }
        ensures script { rule self.new ≡ rule self.old }
        ensures since { loaded self.new ≡ loaded self.old };

    /// What happens to the packet of this number, which has so many bytes. It takes no memory.
    fn fate(&mut self, packet: u64, kind: PacketKind, from: u8, to: u8, length: u32) -> Fate
        requires { 0 < spare self.old }
        ensures told { told self.new ≡ told self.old ++ packet_asked packet kind from to length result ∷ [] }
        ensures script { rule self.new ≡ rule self.old }
        ensures since { loaded self.new ≡ loaded self.old }
        ensures spare { spare self.new + 1 ≡ spare self.old };

    /// What the wire does before the event of this number. It takes no memory.
    fn next_act(&mut self, event_number: u64) -> Option<WireAct>
        requires { 0 < spare self.old }
        ensures told { told self.new ≡ told self.old ++ Act event_number result ∷ [] }
        ensures script { rule self.new ≡ rule self.old }
        ensures since { loaded self.new ≡ loaded self.old }
        ensures spare { spare self.new + 1 ≡ spare self.old };

    /// What was asked since its script was loaded, it answered by its rule. It does nothing.
    fn has_obeyed(&self)
        ensures { HasObeyed (rule self.now) (loaded self.now) (told self.now) };
}
