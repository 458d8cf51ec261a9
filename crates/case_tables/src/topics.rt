//! What is asked of a call beside its status and what it prints.

/// What an ask is about. All but the first are of a run that was kept.
#[derive(Clone, Copy, Debug)]
pub enum Topic {
    /// Whether a run was kept: `yes` or `no`.
    Kept,
    /// How many events it had.
    Events,
    /// The same by sort, and how many packets they sent.
    Counts,
    /// How many of them are ticks.
    Ticks,
    /// How many packets it sent.
    Packets,
    /// The same, of which there are to be more than is said.
    MorePackets,
    /// How many events are enough for it, by docs/EVENTS.md.
    Bound,
    /// Whether it had no more.
    Enough,
    /// How many packets were sent before the first exchange of wires, and behind it.
    Swapped,
    /// How many lines its history has.
    Book,
    /// The same by sort.
    Sorts,
    /// Its history, by numbers, `; ` between two lines.
    History,
    /// The integers that calls gave.
    Gave,
    /// What the last line writes.
    Written,
    /// The members, each by how many entries it applied, its incarnation, and what befell it.
    Members,
    /// How many entries member 0 applied.
    Applied,
    /// The members that the processes are at.
    Homes,
    /// Where the processes stand.
    Standings,
    /// How many replies the processes received.
    Replies,
    /// The replies that process 0 received, `; ` between two.
    Replied,
    /// How many turns the processes took.
    Turns,
    /// The integer fields of the first object that process 0 made, each behind the number of its member.
    Fields,
}

/// An ask, and what is wanted.
#[derive(Clone, Copy)]
pub struct Ask<'a> {
    pub topic: Topic,
    pub wanted: &'a str,
}

const NAMES: [(&str, Topic); 22] = [
    ("kept", Topic::Kept),
    ("events", Topic::Events),
    ("counts", Topic::Counts),
    ("ticks", Topic::Ticks),
    ("packets", Topic::Packets),
    ("more-packets-than", Topic::MorePackets),
    ("bound", Topic::Bound),
    ("enough", Topic::Enough),
    ("swapped", Topic::Swapped),
    ("book", Topic::Book),
    ("sorts", Topic::Sorts),
    ("history", Topic::History),
    ("gave", Topic::Gave),
    ("written", Topic::Written),
    ("members", Topic::Members),
    ("applied", Topic::Applied),
    ("homes", Topic::Homes),
    ("standings", Topic::Standings),
    ("replies", Topic::Replies),
    ("replied", Topic::Replied),
    ("turns", Topic::Turns),
    ("fields", Topic::Fields),
];

/// The ask that a text is: the name of its topic, and what is wanted behind one space, which may be nothing.
pub fn ask_of(text: &str) -> Option<Ask<'_>> {
    let (name, wanted) = text.split_once(' ').unwrap_or((text, ""));
    for (known, topic) in NAMES {
        if known == name {
            return Some(Ask { topic, wanted });
        }
    }
    None
}
