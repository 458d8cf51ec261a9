//! The law of the book: what a run performs is a history of its program.
//!
//! One ordered list of messages, and what was performed beside it, give the book: all performed operations by place. Beside the
//! list stand the reads of replicated objects and the calls on single ones, which one member keeps. A run is a course of events
//! (specs/Course.antt): the list grows, members apply it, processes submit and read, owners take calls. Of the group it uses four
//! facts of agreement: the list grows only at its end; what a member applies as its entry n + 1 is the list's; an entry was
//! submitted; no message stands in the list twice.
//!
//! The floor above uses the laws of this file, of whatever course of events it shows to be a run. They stand on the definitions of
//! `value_core`, `guard_queue` and `object_manager` alone; the one code is the sort by place. Nothing of packets or crashes stands
//! here, nor that anything happens in the end.
#![tactic(auto)]

ghost use Rattle.book_law.specs.Apart.{SinglesApart};
ghost use Rattle.book_law.specs.Conditions.{MembersMeet};
ghost use Rattle.book_law.specs.Counts.{ObjectsCounted};
ghost use Rattle.book_law.specs.Example.{IsRun};
ghost use Rattle.book_law.specs.Fitness.{CallsFit, EndsStuck};
ghost use Rattle.book_law.specs.Looks.{IsLooking};
ghost use Rattle.book_law.specs.Machines.{RunsFit, RunsSound};
ghost use Rattle.book_law.specs.Makers.{CopiesMade, MakesHaveCopies};
ghost use Rattle.book_law.specs.Members.{MembersFollow, MembersHold};
ghost use Rattle.book_law.specs.Owners.{OwnersDoAlike};
ghost use Rattle.book_law.specs.Promise.{AllInBook, AskedStands, CopiesFollow, EnteredAsked, EnteredStands, EntriesStand, LegalBook};
ghost use Rattle.book_law.specs.Promise.{ProcessesRun, RepliesReceived, SinglesFollow, UntakenOut};
ghost use Rattle.book_law.specs.Replicated.{ArePlain, TestsAgree};
ghost use Rattle.book_law.specs.Replies.{AnswersStand, RunsHandOne};
ghost use Rattle.book_law.specs.Sequence.{ArePerformed};
ghost use Rattle.book_law.specs.Wrong.{WrongRules};
ghost use Rattle.book_law.specs.WrongReads.{WrongReads};

mod placing;

pub use placing::{Placed, sort_by_place};
use value_core::Processor;

/// The law of every run, whichever objects are single and whatever the program means.
///
/// - `legal`: the book is a history of the program.
/// - `lines`: each line of an entry, and each operation beside the list, is in the book.
/// - `copies`: the replicated objects and the processes of the book up to place n are those of a member's copies after n entries.
/// - `objects`: the book up to place n has as many objects as those copies count, replicated and single ones, and the output object.
/// - `singles`: each single copy is its object after all lines of the book.
/// - `processes`: the processes that run are those of the book, one by one: by text, by arguments, and by replies, of which a process
///   may lack one; and a message that a process has out is its next action.
/// - `received`: the replies that a process received are exactly the book's up to its member's number, but for an answer on the way
///   with a place up to there.
/// - `performed`: what the run performed, in order of events, is the book place by place; so one stable sort makes it
///   (`sort_by_place`).
/// - `entered`: a message that entered is in the list, or is a call that waits on its object's single copy or was performed there.
/// - `asked`: a message that was ever submitted entered, or is the one that its process has out.
/// - `submitted`: each entry entered, each message that entered was submitted, and so was one that a process has out.
/// - `untaken`: a call on a single object that was submitted and that no owner took hasn't entered, and its process has it out.
/// - `hands`: a member's next entry, and a call that an owner takes, have for a process no line, or one, of the message that it has out.
/// - `answers`: the answer of a single copy that is on its way stands beside the list, is of the message that its process has out, and
///   has no place below the process's; no other line beside the list has a number that the process hasn't received.
pub fn book_law()
    ensures legal { LegalBook }
    ensures lines { AllInBook }
    ensures copies { CopiesFollow }
    ensures objects { ObjectsCounted }
    ensures singles { SinglesFollow }
    ensures processes { ProcessesRun }
    ensures received { RepliesReceived }
    ensures performed { ArePerformed }
    ensures entered { EnteredStands }
    ensures asked { AskedStands }
    ensures submitted { EnteredAsked }
    ensures untaken { UntakenOut }
    ensures hands { RunsHandOne }
    ensures answers { AnswersStand }
{}

/// What single objects change of copies, and what they leave.
///
/// - `entries`: an entry leaves copies as `object_manager` says: after a make of a single object, or applied.
/// - `made`: each single copy was made by the entry at its place, of a process at its owner.
/// - `makes`: each entry whose making gives a single object has its copy.
/// - `apart`: the copies of the list keep no single object, and no entry calls one; each single copy is of a single object, and the only
///   one of it; and what is counted as single after n entries are the copies that one of these made.
/// - `owners`: where an owner keeps a single copy beside others, a call does there what it does to the single copy by itself.
/// - `members`: each member's copies, as its calls make them, are those of the list after as many entries as it applied, and beside
///   them exactly the single copies that it owns and whose makes it applied.
/// - `follow`: so each replicated object of a member's copies is what the book up to its number left of it, each single object that it
///   keeps is what the whole book left of it, and it has no other; and it counts the processes and the objects of the book up to there.
/// - `tests`: tests of what is single that agree on each object that the list makes have the same copies and the same book.
/// - `plain`: where no object is single, copies are those of `object_manager` after the entries, and the book's objects are theirs.
pub fn singles_law()
    ensures entries { EntriesStand }
    ensures made { CopiesMade }
    ensures makes { MakesHaveCopies }
    ensures apart { SinglesApart }
    ensures owners { OwnersDoAlike }
    ensures members { MembersHold }
    ensures follow { MembersFollow }
    ensures tests { TestsAgree }
    ensures plain { ArePlain }
{}

/// Runs that are computed.
///
/// - `run`: a run of a small program, event by event, with its book: its object is single.
/// - `looking`: a run of another, whose object is replicated, with reads at older places and a call that waits in the copies' queue.
/// - `wrong_rules`: seven wrong rules, each of which gives a book that is no history, or a single copy that isn't its object.
/// - `wrong_reads`: five wrong rules of reads and copies over the second run, each of which gives a book that is no history, or copies that
///   aren't the book's.
pub fn example_law()
    ensures run { IsRun }
    ensures looking { IsLooking }
    ensures wrong_rules { WrongRules }
    ensures wrong_reads { WrongReads }
{}

/// In every run of a lawful program what calls on copies ask is met. It rests on the laws of the two traits alone. A call of this
/// function does nothing.
///
/// - `calls`: each entry may be applied, or passed, at the copies that it meets, what these and the single copies hold fits, and a
///   process's next call may be tried at each number of entries from its process's place on: on a view, or on the single copy, which
///   is there.
/// - `machines`: the arguments and replies of each process fit, and so does what was ever submitted or performed; who makes an object is
///   the process that its id names, and a single object's owner is that process's member; each object that exists is of a process that
///   the list has, with a number up to how many entries it has.
/// - `sound`: so, where the numbers of the objects that exist fit, each message that was ever submitted is sound, and each line of the
///   book.
/// - `members`: each member's copies meet the conditions of `apply`, `pass_make` and `call_single` at its next entry and at a call that
///   it takes.
pub fn every_call_fits<P: Processor>(program: &P)
    ensures calls { CallsFit (P.performs program.now) (P.computes program.now) (P.fits_state program.now) (P.fits_args program.now) }
    ensures machines { RunsFit (P.performs program.now) (P.computes program.now) (P.fits_args program.now) (P.fits_text program.now)
        (P.fits_reply program.now) }
    ensures sound { RunsSound (P.performs program.now) (P.computes program.now) }
    ensures members { MembersMeet (P.performs program.now) (P.computes program.now) (P.fits_state program.now)
        (P.fits_args program.now) }
{}

/// In every run of a lawful program a process is stuck whose call is suspended on the copies after the whole list or, at any moment, on
/// a single copy; so is one whose message entered, where its member applied the whole list and no answer is on the way; and one whose
/// read is blocked on the copies after the whole list. A call of this function does nothing.
pub fn stuck_law<P: Processor>(program: &P)
    ensures { EndsStuck (P.performs program.now) (P.computes program.now) }
{}
