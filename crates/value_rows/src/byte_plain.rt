//! The slow plain reader, by the tables of docs/LANGUAGE.md, Values, and docs/RUNTIME.md, Packets in bytes, alone.

use crate::fields::{Field, PACKET_FIELDS};
use orca_base::{Refusal, refuse};
use packet_bytes::PacketError;
use row_files::flat::{END, LEVELS, Numbers};
use std::alloc::Global;
use value_bytes::ValueError;

type Read<T> = Result<T, Refusal<ValueError>>;

/// Bytes, how far they are read, and what was found.
#[derive(Drop)]
struct Plain<'a> {
    bytes: &'a [u8],
    at: u32,
    found: Numbers,
}

impl Plain<'_> {
    // Adds a number to what was found.
    fn put(&mut self, number: i128) -> Read<()> {
        Ok(self.found.push(number)?)
    }

    // The next byte.
    fn byte(&mut self) -> Read<u8> {
        let Some(byte) = self.bytes.get(self.at as usize) else {
            return refuse(ValueError::Short {
                at: length(self.bytes),
            });
        };
        self.at = self.at.saturating_add(1);
        Ok(*byte)
    }

    // A number of so many bytes, the greatest first. It isn't added.
    fn number(&mut self, width: u8) -> Read<u64> {
        let mut number = 0u64;
        for _ in 0..width {
            number = number
                .wrapping_mul(256)
                .wrapping_add(u64::from(self.byte()?));
        }
        Ok(number)
    }

    // Numbers of these widths.
    fn widths(&mut self, widths: &[u8]) -> Read<()> {
        for width in widths {
            let number = self.number(*width)?;
            self.put(i128::from(number))?;
        }
        Ok(())
    }

    // A number of 8 bytes in two's complement.
    fn integer(&mut self) -> Read<()> {
        let number = i128::from(self.number(8)?);
        if number < 9_223_372_036_854_775_808 {
            self.put(number)
        } else {
            self.put(number.wrapping_sub(18_446_744_073_709_551_616))
        }
    }

    // A byte that is at most so great.
    fn at_most(&mut self, most: u8) -> Read<u8> {
        let at = self.at;
        let byte = self.byte()?;
        if byte > most {
            return refuse(ValueError::NotCanonical { at });
        }
        self.put(i128::from(byte))?;
        Ok(byte)
    }

    // The same, where nothing depends on it.
    fn small(&mut self, most: u8) -> Read<()> {
        self.at_most(most)?;
        Ok(())
    }

    // A length, and so many chars.
    fn text(&mut self) -> Read<()> {
        for _ in 0..self.number(4)? {
            self.small(127)?;
        }
        self.put(END)
    }

    // A value, where so many levels are left.
    #[cycle(values)]
    fn value(&mut self, levels: u8) -> Read<()> {
        let at = self.at;
        let tag = self.byte()?;
        if tag == 0 || tag > 10 {
            return refuse(ValueError::BadTag { at });
        }
        if levels == 0 {
            return refuse(ValueError::NotCanonical { at });
        }
        self.put(i128::from(tag))?;
        match tag {
            1 => self.integer(),
            2 => self.small(1),
            3 => self.small(127),
            4 => self.widths(&[2]),
            5 => self.text(),
            10 => self.widths(&[2, 4]),
            _ => self.list(tag, levels - 1),
        }
    }

    // The parts of a list with this tag, where so many levels are left.
    #[cycle(values)]
    fn list(&mut self, tag: u8, levels: u8) -> Read<()> {
        let count = self.number(4)?;
        let mut before = None;
        for _ in 0..count {
            let at = self.at;
            let start = self.found.len();
            self.value(levels)?;
            if !self.is_behind(tag, before, start) {
                return refuse(ValueError::NotCanonical { at });
            }
            before = Some(start);
        }
        self.put(END)
    }

    // Whether the last part, which starts here in what was found, may stand behind the one in front of it: in a set it is greater, and
    // in a bag not less.
    fn is_behind(&self, tag: u8, before: Option<usize>, start: usize) -> bool {
        let Some(before) = before else {
            return true;
        };
        match (self.found.get(before..start), self.found.get(start..)) {
            (Some(before), Some(last)) => match tag {
                8 => before < last,
                9 => before <= last,
                _ => true,
            },
            _ => false,
        }
    }

    // A byte of count, and so many values.
    fn arguments(&mut self) -> Read<()> {
        for _ in 0..self.byte()? {
            self.value(LEVELS)?;
        }
        self.put(END)
    }

    // A message: process, call, and its action.
    fn message(&mut self) -> Read<()> {
        self.widths(&[2, 8])?;
        let at = self.at;
        let action = self.byte()?;
        self.put(i128::from(action))?;
        match action {
            1 => self.widths(&[2, 2, 4]),
            2 => {
                self.widths(&[2, 2, 2, 4])?;
                self.arguments()
            }
            3 => {
                self.fork()?;
                self.arguments()
            }
            _ => refuse(ValueError::NotCanonical { at }),
        }
    }

    // A process text, and the member where one is named.
    fn fork(&mut self) -> Read<()> {
        self.widths(&[2])?;
        if self.at_most(1)? == 0 {
            return Ok(());
        }
        self.integer()
    }

    fn reply(&mut self) -> Read<()> {
        match self.at_most(2)? {
            1 => self.value(LEVELS),
            2 => self.small(7),
            _ => Ok(()),
        }
    }

    // A byte of count, and so many members, which rise.
    fn members(&mut self) -> Read<()> {
        let mut least = 0;
        for _ in 0..self.byte()? {
            let at = self.at;
            let member = self.at_most(15)?;
            if member < least {
                return refuse(ValueError::NotCanonical { at });
            }
            least = member.saturating_add(1);
        }
        self.put(END)
    }

    // A count, and so many messages.
    fn messages(&mut self) -> Read<()> {
        for _ in 0..self.number(4)? {
            self.message()?;
        }
        self.put(END)
    }

    fn field(&mut self, field: Field) -> Read<()> {
        match field {
            Field::Number => self.widths(&[8]),
            Field::Process => self.widths(&[2]),
            Field::Whole => self.small(1),
            Field::Members => self.members(),
            Field::Message => self.message(),
            Field::Messages => self.messages(),
            Field::Reply => self.reply(),
        }
    }

    // A tag, the incarnation and these fields.
    fn fields(&mut self, fields: &[Field]) -> Read<()> {
        self.widths(&[1, 8])?;
        for field in fields {
            self.field(*field)?;
        }
        Ok(())
    }
}

// How many bytes these are.
fn length(bytes: &[u8]) -> u32 {
    u32::try_from(bytes.len()).unwrap_or(u32::MAX)
}

/// The value at a place, and behind it the place where it ends, or the first fault from the left.
pub fn value(alloc: Global, bytes: &[u8], at: u32) -> Result<Numbers, Refusal<ValueError>> {
    let mut plain = Plain {
        bytes,
        at,
        found: Vec::new(alloc),
    };
    plain.value(LEVELS)?;
    let end = i128::from(plain.at);
    plain.put(end)?;
    Ok(plain.found)
}

/// The packet that all of the bytes are, or the first fault from the left.
pub fn packet(alloc: Global, bytes: &[u8]) -> Result<Numbers, Refusal<PacketError>> {
    let Some(tag) = bytes.first() else {
        return refuse(PacketError::Short { at: 0 });
    };
    let Some(fields) = PACKET_FIELDS.get(usize::from(*tag).wrapping_sub(1)) else {
        return refuse(PacketError::BadTag { at: 0 });
    };
    let mut plain = Plain {
        bytes,
        at: 0,
        found: Vec::new(alloc),
    };
    match plain.fields(fields) {
        Ok(()) => {}
        Err(Refusal::NoMemory) => return Err(Refusal::NoMemory),
        Err(Refusal::Because { cause }) => return refuse(in_packet(cause)),
    }
    if plain.at < length(bytes) {
        return refuse(PacketError::Trailing { at: plain.at });
    }
    Ok(plain.found)
}

// What a packet calls a fault of a field.
fn in_packet(fault: ValueError) -> PacketError {
    match fault {
        ValueError::Short { at } => PacketError::Short { at },
        ValueError::BadTag { at } | ValueError::NotCanonical { at } => PacketError::BadField { at },
    }
}
