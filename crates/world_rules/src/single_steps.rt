//! Single steps, which the check computes.

ghost use Rattle.world_rules.specs.NetworkSteps.{Crashed, CutShort, Exchanged, HeldAndRepeated, Suspected};
ghost use Rattle.world_rules.specs.ProcessSteps.{BlockedRead, Fork, Stands};
ghost use Rattle.world_rules.specs.SingleCopies.{AnswerWaits, AskWaits, RepeatedAsk, SingleCell};

/// What a network does to packets, and what happens to members.
///
/// - `held`: a packet that is held comes after its ticks, and a repeated one comes twice and adds nothing.
/// - `cut`: a packet that is cut short is lost, and one that is cut to its own length is whole.
/// - `exchanged`: after a swap the next wire is asked.
/// - `crashed`: a member crashes once, and a packet to it changes nothing.
/// - `suspected`: a member that is suspected coordinates, and one that is outside does nothing.
pub fn network_steps()
    ensures held { HeldAndRepeated }
    ensures cut { CutShort }
    ensures exchanged { Exchanged }
    ensures crashed { Crashed }
    ensures suspected { Suspected }
{}

/// What processes do, and how a run stands.
///
/// - `blocked`: a read whose guards are false waits, and is performed after the entry that makes one true; where none does, the run is
///   blocked.
/// - `fork`: a process begins once its own member applied its fork.
/// - `stands`: each row of the table of standings, and what is one short of it.
pub fn process_steps()
    ensures blocked { BlockedRead }
    ensures fork { Fork }
    ensures stands { Stands }
{}

/// Calls on single objects.
///
/// - `run`: a whole run, in which a call waits at its owner's own member, and an Ask comes twice: 16 steps, 5 packets, a book of four
///   lines, of which two are entries.
/// - `ask`: an Ask waits for its place, once, and is then answered.
/// - `repeated`: an Ask that comes again does nothing while its call waits, and gets the kept Answer once it was performed.
/// - `answer`: an Answer waits for its place, and one of another call does nothing; an Ask goes out again at a tick.
pub fn single_copies()
    ensures run { SingleCell }
    ensures ask { AskWaits }
    ensures repeated { RepeatedAsk }
    ensures answer { AnswerWaits }
{}
