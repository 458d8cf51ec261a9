//! Makes texts of histories, with some of their bytes changed.

use crate::tables::{KINDS, OPERATIONS, TEXTS};
use row_files::{Draws, Strings};
use std::alloc::{AllocError, Global};

/// Numbers at the end of a range, the next ones, and numbers with a digit or a sign too many.
const EDGES: [&str; 16] = [
    "127",
    "128",
    "65535",
    "65536",
    "4294967295",
    "4294967296",
    "9223372036854775807",
    "9223372036854775808",
    "18446744073709551615",
    "18446744073709551616",
    "100000000000000000000",
    "340282366920938463463374607431768211457",
    "00",
    "07",
    "+1",
    "-0",
];

/// Integers below 0; the last is too low.
const NEGATIVES: [&str; 8] = [
    "-1",
    "-2",
    "-10",
    "-99",
    "-128",
    "-9223372036854775807",
    "-9223372036854775808",
    "-9223372036854775809",
];

/// Words of replies.
const REPLIES: [&str; 12] = [
    "none",
    "true",
    "false",
    "fault Overflow",
    "fault DivideByZero",
    "fault IndexOutside",
    "fault FromEmpty",
    "fault TooLarge",
    "fault TooLong",
    "fault TooDeep",
    "fault NoReturn",
    "fault Done",
];

/// Characters of a string; the last three are written so nowhere.
const CHARACTERS: [&str; 16] = [
    "a", "0", " ", "~", "(", "\\n", "\\t", "\\\\", "\\\"", "\\x00", "\\x1f", "\\x7f", "b", "\\x0a",
    "\\x41", "\\x1F",
];

/// A generator of texts, the same ones on every run.
#[derive(Drop)]
pub struct Maker {
    draws: Draws,
}

impl Maker {
    /// A generator that begins with this seed.
    pub fn new(alloc: Global, seed: u64) -> Maker {
        Maker {
            draws: Draws::new(alloc, seed),
        }
    }

    /// A history of up to three lines, with up to two changes.
    pub fn history(&mut self, alloc: Global) -> Result<Vec<u8>, AllocError> {
        for _ in 0..self.draws.below(4) {
            self.put_line()?;
        }
        self.draws.changed(alloc, Strings::Lines)
    }

    // A digit, now and then a number at an edge.
    fn put_number(&mut self) -> Result<(), AllocError> {
        if self.draws.below(32) == 0 {
            return self.draws.put_one(&EDGES);
        }
        let digit = self.draws.below(10).saturating_add(b'0');
        self.draws.put(&[digit])
    }

    // The same, now and then below 0.
    fn put_integer(&mut self) -> Result<(), AllocError> {
        if self.draws.below(3) == 0 {
            return self.draws.put_one(&NEGATIVES);
        }
        self.put_number()
    }

    fn put_object(&mut self) -> Result<(), AllocError> {
        self.draws.put_text("o")?;
        self.put_number()?;
        self.draws.put_text(".")?;
        self.put_number()
    }

    fn put_text(&mut self) -> Result<(), AllocError> {
        self.draws.put_text("\"")?;
        for _ in 0..self.draws.below(5) {
            self.draws.put_one(&CHARACTERS)?;
        }
        self.draws.put_text("\"")
    }

    // A value within some arrays of one part each; once in eight times within up to 17.
    fn put_deep(&mut self) -> Result<(), AllocError> {
        let depth = if self.draws.below(8) == 0 {
            self.draws.below(18)
        } else {
            0
        };
        for _ in 0..depth {
            self.draws.put_text("[")?;
        }
        self.put_value(2)?;
        for _ in 0..depth {
            self.draws.put_text("]")?;
        }
        Ok(())
    }

    // A value with so many levels of lists.
    #[cycle(values)]
    fn put_value(&mut self, levels: u8) -> Result<(), AllocError> {
        let kinds = if levels > 0 { 10 } else { 6 };
        match self.draws.below(kinds) {
            0 => self.put_integer(),
            1 => self.draws.put_one(&["true", "false"]),
            2 => {
                self.draws.put_text("c")?;
                self.put_number()
            }
            3 => {
                self.draws.put_text("e")?;
                self.put_number()
            }
            4 => self.put_text(),
            5 => self.put_object(),
            6 if levels > 0 => self.put_list("[", "]", levels - 1),
            7 if levels > 0 => self.put_list("(", ")", levels - 1),
            8 if levels > 0 => self.put_list("{", "}", levels - 1),
            9 if levels > 0 => self.put_list("<", ">", levels - 1),
            _ => Ok(()),
        }
    }

    // A list of up to three parts. Twice out of three times they are chars that mostly rise.
    #[cycle(values)]
    fn put_list(&mut self, opens: &str, closes: &str, levels: u8) -> Result<(), AllocError> {
        self.draws.put_text(opens)?;
        let rises = self.draws.below(3) > 0;
        let mut code = self.draws.below(7);
        for nth in 0..self.draws.below(4) {
            if nth > 0 {
                self.draws.put_text(" ")?;
            }
            if rises {
                self.draws.put(&[b'c', code.saturating_add(b'0')])?;
                code = code.saturating_add(self.draws.below(3));
            } else {
                self.put_value(levels)?;
            }
        }
        self.draws.put_text(closes)
    }

    // Up to two values; seldom 255 or 256 of them.
    fn put_arguments(&mut self) -> Result<(), AllocError> {
        self.draws.put_text("(")?;
        let count = match self.draws.below(64) {
            0 => 255,
            1 => 256,
            _ => u16::from(self.draws.below(3)),
        };
        for nth in 0..count {
            if nth > 0 {
                self.draws.put_text(" ")?;
            }
            if count > 2 {
                self.draws.put_text("7")?;
            } else {
                self.put_value(1)?;
            }
        }
        self.draws.put_text(")")
    }

    fn put_action(&mut self) -> Result<(), AllocError> {
        match self.draws.below(3) {
            0 => {
                self.draws.put_text("make ")?;
                self.draws.put_one(&KINDS)?;
                self.draws.put_text(" ")?;
                self.put_object()
            }
            1 => {
                self.draws.put_text("call ")?;
                self.put_called()?;
                self.draws.put_text(" ")?;
                self.put_object()?;
                self.draws.put_text(" ")?;
                self.put_arguments()?;
                self.draws.put_text(" guard ")?;
                self.put_number()
            }
            _ => {
                self.draws.put_text("fork ")?;
                self.draws.put_one(&TEXTS)?;
                self.draws.put_text(" ")?;
                self.put_arguments()?;
                self.draws.put_text(" on ")?;
                if self.draws.below(2) == 0 {
                    self.draws.put_text("parent")
                } else {
                    self.put_integer()
                }
            }
        }
    }

    // A type and an operation, which is once in four times one of either type.
    fn put_called(&mut self) -> Result<(), AllocError> {
        let kind = self.draws.below(2);
        let of = if self.draws.below(4) == 0 {
            self.draws.below(2)
        } else {
            kind
        };
        match KINDS.get(usize::from(kind)) {
            Some(word) => self.draws.put_text(word)?,
            None => {}
        }
        self.draws.put_text("$")?;
        match OPERATIONS.get(usize::from(of)) {
            Some(words) => self.draws.put_one(words),
            None => Ok(()),
        }
    }

    fn put_line(&mut self) -> Result<(), AllocError> {
        self.put_number()?;
        self.draws.put_text(" ")?;
        self.put_number()?;
        self.draws.put_text(" ")?;
        self.put_action()?;
        self.draws.put_text(" ")?;
        if self.draws.below(2) == 0 {
            self.draws.put_one(&REPLIES)?;
        } else {
            self.put_deep()?;
        }
        self.draws.put_text("\n")
    }
}
