//! That spellings differ as join packets do and are read back, worked spellings, and that whoever follows members is after a beginning of
//! their list.

ghost use Rattle.std.specs.Prelude.{◌≡◌, ◌<◌, ◌∷◌, ◌++◌, [], List, ℕ, Ok, Err, slice_index, take};
ghost use Rattle.packet_bytes.specs.declared.fault.PacketError.TheVariants.{Short, BadTag, BadField, Trailing};
ghost use Rattle.group_join.specs.Examples.{next, next_bytes, seek, seek_bytes, state, state_bytes};
ghost use Rattle.group_join.specs.Laws.{AfterOn, AnswersTell, Followers, OpensAfter, TellsOn};
ghost use Rattle.group_join.specs.Reading.{join_at};
ghost use Rattle.group_join.specs.Sound.{IsJoin, IsSoundJoin};
ghost use Rattle.group_join.specs.Spelling.{join_spelling};
ghost use Rattle.group_join.specs.declared.packet.JoinPacket.{JoinPacket as Joins};

use value_core::Performer;

/// The laws of spellings, for proofs that stand on this crate; it does nothing.
pub fn spelling_law()
    // Where the spellings of two sound packets stand in front of the same bytes, the packets are the same, and so is what follows. So a
    // spelling has one packet, and no proper prefix of a packet is a packet.
    ensures prefix { (p q : Joins) (behind more : List ℕ) → IsJoin p → IsJoin q →
        join_spelling p ++ behind ≡ join_spelling q ++ more → (p ≡ q) × (behind ≡ more) }
    // What is read is a sound packet whose numbers fit, and is spelled so; and what is such a packet and spelled so is read.
    ensures found { (bytes : List ℕ) (p : Joins) → ((i : ℕ) → slice_index bytes i < 256) → join_at bytes ≡ Ok p →
        IsJoin p × (bytes ≡ join_spelling p) }
    ensures again { (p : Joins) → IsJoin p → join_at (join_spelling p) ≡ Ok p }
    // Such a packet may be written.
    ensures sound { (p : Joins) → IsJoin p → IsSoundJoin p }
{}

/// Join packets and their bytes, as docs/FORMATS.md, Packets of a follower, shows them, and what is reported of bytes that are none. A
/// call of this function does nothing.
pub fn byte_rows()
    ensures seek { join_spelling seek ≡ seek_bytes }
    ensures next { join_spelling next ≡ next_bytes }
    ensures state { join_spelling state ≡ state_bytes }
    ensures empty { join_at [] ≡ Err (Short 0) }
    ensures tag { join_at (4 ∷ []) ≡ Err (BadTag 0) }
    // The last byte is missing, or there is one more.
    ensures short { join_at (take 8 seek_bytes) ≡ Err (Short 8) }
    ensures trailing { join_at (seek_bytes ++ 0 ∷ []) ≡ Err (Trailing 9) }
    // No action has the byte 4.
    ensures field { join_at (take 19 next_bytes ++ 4 ∷ []) ≡ Err (BadField 19) }
{}

/// What is so by definitions, whatever performs the operations. A call of this function does nothing.
///
/// - `answers`: what a member answers tells the list of which it applied a beginning.
/// - `opens`: the opening copies are after no entry of any list.
/// - `tells` and `stays`: where a list goes on at its end, what told it still does, and copies after a beginning of it still are.
/// - `goes`: a packet that tells the list leaves a follower after a beginning of it, which isn't shorter.
pub fn following_law<P: Performer>(performer: &P)
    ensures answers { AnswersTell (P.performs performer.now) }
    ensures opens { OpensAfter (P.performs performer.now) }
    ensures tells { TellsOn (P.performs performer.now) }
    ensures stays { AfterOn (P.performs performer.now) }
    ensures goes { Followers (P.performs performer.now) }
{}
