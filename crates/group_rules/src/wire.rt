//! The letters of the world, and packets as they travel.

ghost use Rattle.group_rules.specs.OnWire.{AppendedLaw, LettersLaw, PostedLaw, ReceivedLaw, SentLaw};
ghost use Rattle.group_rules.specs.World.{NumberedLaw, PacketsLaw};

/// What joins the rules' letters to packets that travel, for messages and replies of any types.
///
/// - `numbered`: each letter that was sent has a number, by which an event delivers it.
/// - `packets`: and its packet was sent.
/// - `posted`: whatever was posted is such a letter, to another than its sender.
/// - `appended`: what the acts of a step post to others comes behind all that was posted before, in their order, and
///   nothing else does.
/// - `letters`: what a step posts are its letters, in their order, each as it travels.
/// - `sent`: each letter of a step stands among all that were sent.
/// - `received`: the row of a packet that travels, at `receive`, is what the world does when it delivers the kind. To
///   packets of a reset, and to Ask and Answer, `receive` does nothing.
pub fn wire_law<M, R>()
    ensures numbered { NumberedLaw M }
    ensures packets { PacketsLaw M }
    ensures posted { PostedLaw M R }
    ensures appended { AppendedLaw M R }
    ensures letters { LettersLaw M R }
    ensures sent { SentLaw M }
    ensures received { ReceivedLaw M R }
{}
