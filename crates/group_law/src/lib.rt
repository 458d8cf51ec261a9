//! The law of the group: whatever is lost, repeated or reordered, whichever members crash, and whoever coordinates
//! when, its members agree.
//!
//! The floor above uses `agreement_law`, which speaks of the rules of `group_rules` alone: of each world that a list of
//! events reaches from the opening one, of each further event, and of any two moments of a run. It stands on those
//! definitions and carries no code; members, nodes and worlds are proved against the same functions. That a run ends, or
//! that anything happens in the end, is no part of it.
#![tactic(auto)]

ghost use Rattle.group_law.specs.Agreed.{AgreedLaw, ForwardLaw, StepsLaw};
ghost use Rattle.group_law.specs.Members.{MembersLaw, WaitedLaw};
ghost use Rattle.group_law.specs.Messages.{MessagesLaw};
ghost use Rattle.group_law.specs.Numbers.{FewEventsLaw, NumbersLaw};
ghost use Rattle.group_law.specs.Promise.{AgreementLaw, ChoiceLaw, ConditionsLaw, KeptLaw, LastingLaw, ListsLaw};
ghost use Rattle.group_law.specs.Sends.{OthersLaw, RoutesLaw, SendersLaw, SendsLaw};
ghost use Rattle.group_law.specs.SoundPackets.{SoundLaw};
ghost use Rattle.group_law.specs.Told.{PurgesLaw, StaysLaw, ToldLaw};
ghost use Rattle.group_law.specs.WrongPurge.{OwnPurgeBreaksTheLaw};

/// The law, for every number of members, every resilience below half of them, and messages of any type.
///
/// - `worlds`: Agree holds after every list of events.
/// - `lists`: each event leaves the list of every installed incarnation or lengthens it at its end, at its sequencer, which
///   stands in it and has promised no later one. What the incarnation began with, and the answers that it was installed
///   from, stay.
/// - `lasting`: what was accepted is never lost or moved.
/// - `calls`: what may be delivered or submitted meets the conditions on the calls of members and resets.
/// - `choice`: the rules take an answer exactly where it has the greatest installed incarnation, then the greatest length, then
///   the lowest member.
/// - `kept`: each answer that a member keeps was sent, and each message that it keeps was submitted.
/// - `members`: who gathers keeps its own answer, and fewer than it takes; where an active sequencer has room, no message waits;
///   where no member may be lost, each knows its whole log to be accepted.
/// - `waited`: in any state, where a note lets a member know more to be accepted, fewer messages wait at it then.
/// - `messages`: what a process submitted is, at its home, pending or applied, and never both. Each member applies the
///   messages of a process in their order, with none left out.
/// - `forward`: incarnations, accepted and applied numbers of a member never fall, who is outside or crashed stays so, and
///   what was sent or submitted stays.
/// - `steps`: a note alone changes what a member applied, one that isn't possible changes nothing, and no event changes an
///   entry that a member applied.
/// - `agreed`: what members know to be accepted is one list, and so is what they applied. Both only grow at their end.
/// - `told`: an applied number that is told is at most its sender's, and a stable one at most what each member applied that answered
///   for the incarnation.
/// - `purges`: no purge goes beyond the kept answer's base and what a member that answered for the incarnation has applied,
///   nor does a sequencer purge, once it heard of another member, beyond that base and what it heard.
/// - `stays`: a member is put outside only by a base beyond what it applied, and in its own incarnation beyond its log.
/// - `numbers`: entry numbers are at most the number of submissions, incarnations at most 2 N for each tick or coordination.
/// - `few_events`: so all of them are below 2^62 in a group of at most 256 members and a run of at most 4,000,000 steps, each
///   of which submits one message at most and is at most one tick or coordination of each member. Deliveries and notes
///   don't count.
/// - `sends`: what a row of a member sends goes from it to another member, and is of the kinds that the row may send.
/// - `others`: so what a row sends goes to another than its sender.
/// - `routes`: with n = k mod N, Order, Entry, Accept, Invite and Result of incarnation k come from member n, Request, Ack,
///   Nack, Status and Join go to n. A Body may go to any member.
pub fn agreement_law<M>()
    ensures worlds { AgreementLaw M }
    ensures lists { ListsLaw M }
    ensures lasting { LastingLaw M }
    ensures calls { ConditionsLaw M }
    ensures choice { ChoiceLaw M }
    ensures kept { KeptLaw M }
    ensures members { MembersLaw M }
    ensures waited { WaitedLaw M }
    ensures messages { MessagesLaw M }
    ensures forward { ForwardLaw M }
    ensures steps { StepsLaw M }
    ensures agreed { AgreedLaw M }
    ensures told { ToldLaw M }
    ensures purges { PurgesLaw M }
    ensures stays { StaysLaw M }
    ensures numbers { NumbersLaw M }
    ensures few_events { FewEventsLaw M }
    ensures sends { SendsLaw M }
    ensures others { OthersLaw M }
    ensures routes { RoutesLaw M }
{}

/// What a row posts is its member's, for messages and replies of any types.
pub fn posts_are_their_members<M, R>()
    ensures { SendersLaw M R }
{}

/// In a group of at most 16 members each packet that was sent is sound as it travels, for messages and replies of any
/// types: each message in it was submitted by its process, its lists are short, and the members of a Result rise.
pub fn packets_are_sound<M, R>()
    ensures { SoundLaw M R }
{}

/// `purges_to_own_applied`: a sequencer that purges to its own applied number in place of the least that it heard breaks
/// the law on purges. In a run of 192 messages that reach nobody it would purge what a member that answered lacks.
pub fn own_purge_breaks_the_law()
    ensures { OwnPurgeBreaksTheLaw }
{}
