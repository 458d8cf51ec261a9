//! Makes byte strings: packets and values, with some of their bytes changed.

use crate::fields::{Field, PACKET_FIELDS};
use row_files::{Draws, Strings};
use std::alloc::{AllocError, Global};

/// A generator of byte strings, the same ones on every run.
#[derive(Drop)]
pub struct Maker {
    draws: Draws,
}

impl Maker {
    /// A generator that begins with this seed.
    pub fn new(alloc: Global, seed: u64) -> Maker {
        Maker {
            draws: Draws::new(alloc, seed),
        }
    }

    /// Up to three bytes of no meaning and then a value, with up to two changes; and how many bytes stood before it.
    pub fn value(&mut self, alloc: Global) -> Result<(u32, Vec<u8>), AllocError> {
        let before = self.draws.below(4);
        for _ in 0..before {
            let byte = self.draws.any();
            self.draws.put(&[byte])?;
        }
        self.put_deep()?;
        Ok((
            u32::from(before),
            self.draws.changed(alloc, Strings::Numbers)?,
        ))
    }

    /// A packet of any kind, with up to two changes.
    pub fn packet(&mut self, alloc: Global) -> Result<Vec<u8>, AllocError> {
        let kind = self.draws.below(13);
        self.draws.put(&[kind.saturating_add(1)])?;
        self.put_number(8)?;
        if let Some(fields) = PACKET_FIELDS.get(usize::from(kind)) {
            for field in *fields {
                self.put_field(*field)?;
            }
        }
        self.draws.changed(alloc, Strings::Numbers)
    }

    // A number of so many bytes, small three times out of four.
    fn put_number(&mut self, width: u8) -> Result<(), AllocError> {
        let is_small = self.draws.below(4) > 0;
        for left in (0..width).rev() {
            let byte = if is_small && left > 0 {
                0
            } else {
                self.draws.any()
            };
            self.draws.put(&[byte])?;
        }
        Ok(())
    }

    fn put_numbers(&mut self, widths: &[u8]) -> Result<(), AllocError> {
        for width in widths {
            self.put_number(*width)?;
        }
        Ok(())
    }

    // A tag, and this length or count.
    fn put_count(&mut self, tag: u8, count: u8) -> Result<(), AllocError> {
        self.draws.put(&[tag, 0, 0, 0, count])
    }

    // A value within some arrays of one part each; once in four times within up to 17.
    fn put_deep(&mut self) -> Result<(), AllocError> {
        if self.draws.below(4) == 0 {
            for _ in 0..self.draws.below(18) {
                self.put_count(6, 1)?;
            }
        }
        self.put_value(3)
    }

    // A value with so many levels of lists.
    #[cycle(values)]
    fn put_value(&mut self, levels: u8) -> Result<(), AllocError> {
        let kinds = if levels > 0 { 10 } else { 6 };
        match self.draws.below(kinds) {
            0 => self.put_plain(1, 8),
            1 => {
                let truth = self.draws.below(2);
                self.draws.put(&[2, truth])
            }
            2 => {
                let code = self.draws.below(128);
                self.draws.put(&[3, code])
            }
            3 => self.put_plain(4, 2),
            4 => self.put_text(),
            kind if kind > 5 && levels > 0 => self.put_list(kind, levels - 1),
            _ => {
                self.put_plain(10, 2)?;
                self.put_number(4)
            }
        }
    }

    // A tag, and a number of so many bytes.
    fn put_plain(&mut self, tag: u8, width: u8) -> Result<(), AllocError> {
        self.draws.put(&[tag])?;
        self.put_number(width)
    }

    fn put_text(&mut self) -> Result<(), AllocError> {
        let count = self.draws.below(6);
        self.put_count(5, count)?;
        for _ in 0..count {
            let code = self.draws.below(128);
            self.draws.put(&[code])?;
        }
        Ok(())
    }

    // A list of up to three parts. Twice out of three times they are chars that mostly rise.
    #[cycle(values)]
    fn put_list(&mut self, tag: u8, levels: u8) -> Result<(), AllocError> {
        let count = self.draws.below(4);
        self.put_count(tag, count)?;
        let rises = self.draws.below(3) > 0;
        let mut code = self.draws.below(90);
        for _ in 0..count {
            if rises {
                self.draws.put(&[3, code])?;
                code = code.saturating_add(self.draws.below(8));
            } else {
                self.put_value(levels)?;
            }
        }
        Ok(())
    }

    // A byte of count, and up to two values.
    fn put_arguments(&mut self) -> Result<(), AllocError> {
        let count = self.draws.below(3);
        self.draws.put(&[count])?;
        for _ in 0..count {
            self.put_value(2)?;
        }
        Ok(())
    }

    fn put_message(&mut self) -> Result<(), AllocError> {
        self.put_numbers(&[2, 8])?;
        let action = self.draws.below(3).saturating_add(1);
        self.draws.put(&[action])?;
        match action {
            1 => self.put_numbers(&[2, 2, 4]),
            2 => {
                self.put_numbers(&[2, 2, 2, 4])?;
                self.put_arguments()
            }
            _ => {
                self.put_number(2)?;
                let place_on = self.draws.below(2);
                self.draws.put(&[place_on])?;
                self.put_number(place_on.saturating_mul(8))?;
                self.put_arguments()
            }
        }
    }

    // A count of 4 bytes, and up to two messages.
    fn put_messages(&mut self) -> Result<(), AllocError> {
        let count = self.draws.below(3);
        self.draws.put(&[0, 0, 0, count])?;
        for _ in 0..count {
            self.put_message()?;
        }
        Ok(())
    }

    // A byte of count, and up to four members, which rise.
    fn put_members(&mut self) -> Result<(), AllocError> {
        let count = self.draws.below(5);
        self.draws.put(&[count])?;
        let mut member = self.draws.below(2);
        for _ in 0..count {
            self.draws.put(&[member])?;
            member = member.saturating_add(self.draws.below(4)).saturating_add(1);
        }
        Ok(())
    }

    fn put_reply(&mut self) -> Result<(), AllocError> {
        let tag = self.draws.below(3);
        self.draws.put(&[tag])?;
        match tag {
            1 => self.put_deep(),
            2 => {
                let fault = self.draws.below(8);
                self.draws.put(&[fault])
            }
            _ => Ok(()),
        }
    }

    fn put_field(&mut self, field: Field) -> Result<(), AllocError> {
        match field {
            Field::Number => self.put_number(8),
            Field::Process => self.put_number(2),
            Field::Whole => {
                let whole = self.draws.below(2);
                self.draws.put(&[whole])
            }
            Field::Members => self.put_members(),
            Field::Message => self.put_message(),
            Field::Messages => self.put_messages(),
            Field::Reply => self.put_reply(),
        }
    }
}
