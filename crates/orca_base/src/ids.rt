//! Numbers and names of processes, objects and messages.

ghost use Rattle.std.specs.Prelude.{◌≡◌};

/// A process, from 0, which is `OrcaMain`. A fork's new process has the number of processes before it.
#[derive(Clone, Copy, Debug, PartialEq, Eq, PartialOrd, Ord)]
pub struct ProcessNo(pub u16);

impl ProcessNo {
    /// The process that a run begins with, of the text `OrcaMain`.
    pub const MAIN: ProcessNo = ProcessNo(0);
}

/// A line of a process: the number of its earlier lines.
#[derive(Clone, Copy, Debug, PartialEq, Eq, PartialOrd, Ord)]
pub struct CallNo(pub u64);

/// An object type, from 1 in order of declaration over the files. 0 is `Output`.
#[derive(Clone, Copy, Debug, PartialEq, Eq, PartialOrd, Ord)]
pub struct KindNo(pub u16);

impl KindNo {
    /// The type of the output object, which no other object has.
    pub const OUTPUT: KindNo = KindNo(0);
}

/// An operation, from 0 in its specification.
#[derive(Clone, Copy, Debug, PartialEq, Eq, PartialOrd, Ord)]
pub struct OpNo(pub u16);

/// A process text, from 0 in order of declaration over the files.
#[derive(Clone, Copy, Debug, PartialEq, Eq, PartialOrd, Ord)]
pub struct TextNo(pub u16);

/// An object, by the process that made it and its number there, from 1. The output object is number 0 of process 0.
#[derive(Clone, Copy, Debug, PartialEq, Eq, PartialOrd, Ord)]
pub struct ObjectId {
    pub process: u16,
    pub number: u32,
}

impl ObjectId {
    /// The output object, which is there from the start.
    pub const OUTPUT: ObjectId = ObjectId {
        process: 0,
        number: 0,
    };

    /// The object that this process makes as the how manyeth of its own, from 1.
    pub fn of(process: ProcessNo, number: u32) -> ObjectId
        ensures { result ≡ record { process = process.0; number = number } }
    {
        ObjectId {
            process: process.0,
            number,
        }
    }
}

/// A message, by its process and call.
#[derive(Clone, Copy, Debug, PartialEq, Eq, PartialOrd, Ord)]
pub struct MessageId {
    pub process: ProcessNo,
    pub call: CallNo,
}
