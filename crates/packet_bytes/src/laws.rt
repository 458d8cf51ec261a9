//! That spellings differ as messages and packets do, and are read back.

ghost use Rattle.std.specs.Prelude.{◌≡◌, ◌<◌, ◌++◌, List, ℕ, Ok, length, slice_index};
ghost use Rattle.group_packets.specs.Packet.{packet_bytes, stopped};
ghost use Rattle.group_packets.specs.Sound.{IsSoundPacket};
ghost use Rattle.group_packets.specs.declared.packet.Packet.{Packet};
ghost use Rattle.value_core.specs.Lengths.{answer_length, message_length, told_length};
ghost use Rattle.value_core.specs.Sound.{IsSoundMessage, IsSoundReply};
ghost use Rattle.value_core.specs.declared.action.Reply.{Reply};
ghost use Rattle.value_core.specs.declared.message.Message.{Message};
ghost use Rattle.packet_bytes.specs.Reading.{message_at, packet_at};
ghost use Rattle.packet_bytes.specs.Sound.{IsMessage, IsPacket};
ghost use Rattle.packet_bytes.specs.Spelling.{message_spelling, packet_spelling};

/// The laws of spellings, for proofs that stand on this crate; it does nothing.
pub fn spelling_law()
    // Where the spellings of two sound packets stand in front of the same bytes, the packets are the same, and so is what follows.
    // So a spelling has one packet, and no proper prefix of a packet is a packet.
    ensures prefix { (p q : Packet Message Reply) (behind more : List ℕ) → IsPacket p → IsPacket q →
        packet_spelling p ++ behind ≡ packet_spelling q ++ more → (p ≡ q) × (behind ≡ more) }
    // The same of messages.
    ensures message_prefix { (m n : Message) (behind more : List ℕ) → IsMessage m → IsMessage n →
        message_spelling m ++ behind ≡ message_spelling n ++ more → (m ≡ n) × (behind ≡ more) }
    // How many bytes spell a message and a packet.
    ensures message_length { (m : Message) → length (message_spelling m) ≡ message_length m }
    ensures length { (p : Packet Message Reply) → length (packet_spelling p) ≡ packet_bytes message_length answer_length p }
    // The same as 32 bits tell it.
    ensures told { (p : Packet Message Reply) → stopped (length (packet_spelling p)) ≡
        stopped (packet_bytes (λ m. told_length (message_length m)) (λ r. told_length (answer_length r)) p) }
    // A packet that bytes spell is a sound packet of sound messages, as what is written must be.
    ensures sound { (p : Packet Message Reply) → IsPacket p → IsSoundPacket IsSoundMessage IsSoundReply p }
{}

/// The laws of the reading functions, for readers of longer forms; it does nothing.
pub fn reading_law()
    // What is read from the front of bytes is a sound message whose numbers fit, and is spelled there.
    ensures found { (end : ℕ) (bytes : List ℕ) (x : Message × List ℕ) → ((i : ℕ) → slice_index bytes i < 256) →
        message_at end bytes ≡ Ok x → IsMessage x.0 × (bytes ≡ message_spelling x.0 ++ x.1) }
    // What is such a message and spelled there is read, whatever follows.
    ensures again { (end : ℕ) (m : Message) (behind : List ℕ) → IsMessage m →
        message_at end (message_spelling m ++ behind) ≡ Ok (m, behind) }
    // The same of a packet, which all of the bytes are.
    ensures packet_found { (bytes : List ℕ) (p : Packet Message Reply) → ((i : ℕ) → slice_index bytes i < 256) →
        packet_at bytes ≡ Ok p → IsPacket p × (bytes ≡ packet_spelling p) }
    ensures packet_again { (p : Packet Message Reply) → IsPacket p → packet_at (packet_spelling p) ≡ Ok p }
{}
