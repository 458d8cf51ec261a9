//! The fields of packets (docs/RUNTIME.md, Packets), by which the plain reader and the generator go.

/// A field of a packet, or of what stands in one.
#[derive(Clone, Copy)]
pub enum Field {
    /// 8 bytes.
    Number,
    /// 2 bytes.
    Process,
    /// A byte, 0 or 1.
    Whole,
    /// A byte of count, and members of one byte each, rising and below 16.
    Members,
    /// A message.
    Message,
    /// 4 bytes of count, and so many messages.
    Messages,
    /// A reply.
    Reply,
}

/// What stands behind tag and incarnation, in the order of the tags from 1.
pub const PACKET_FIELDS: [&[Field]; 13] = [
    &[Field::Number, Field::Message],
    &[Field::Number, Field::Message],
    &[
        Field::Number,
        Field::Process,
        Field::Number,
        Field::Number,
        Field::Number,
    ],
    &[Field::Number, Field::Number, Field::Number, Field::Message],
    &[Field::Number, Field::Number],
    &[Field::Number, Field::Number],
    &[Field::Number, Field::Number, Field::Whole],
    &[Field::Number, Field::Number],
    &[],
    &[
        Field::Number,
        Field::Number,
        Field::Number,
        Field::Number,
        Field::Messages,
    ],
    &[
        Field::Number,
        Field::Number,
        Field::Members,
        Field::Messages,
    ],
    &[Field::Number, Field::Message],
    &[Field::Number, Field::Process, Field::Number, Field::Reply],
];
