//! The slow plain reader, by docs/FORMATS.md, Histories, alone.

use crate::tables::{First, KINDS, OPERATIONS, TEXTS};
use orca_base::{NoMemory, Refusal, refuse};
use row_files::flat::{END, LEVELS, Numbers};
use std::alloc::Global;

/// That bytes are no line.
#[derive(Clone, Copy)]
struct NoLine;

type Read<T> = Result<T, Refusal<NoLine>>;

// What is greatest of a process, a guard and an enumeration's number, of an object's number, and of a call's.
const MOST_16: i128 = 65_535;

const MOST_32: i128 = 4_294_967_295;

const MOST_64: i128 = 18_446_744_073_709_551_615;

// The greatest integer, and what stands behind the sign of the least.
const MOST_INTEGER: i128 = 9_223_372_036_854_775_807;

const MOST_NEGATED: i128 = 9_223_372_036_854_775_808;

const MOST_CHAR: i128 = 127;

const MOST_ARGUMENTS: usize = 255;

const FAULTS: [&str; 8] = [
    "Overflow",
    "DivideByZero",
    "IndexOutside",
    "FromEmpty",
    "TooLarge",
    "TooLong",
    "TooDeep",
    "NoReturn",
];

/// A line without its line feed, how far it is read, and what was found in it and in the lines in front.
#[derive(Drop)]
struct Plain<'a> {
    bytes: &'a [u8],
    at: usize,
    found: &'a mut Numbers,
}

impl Plain<'_> {
    // Adds a number to what was found.
    fn put(&mut self, number: i128) -> Read<()> {
        Ok(self.found.push(number)?)
    }

    // The next byte, where there is one.
    fn peek(&self) -> Option<u8> {
        self.bytes.get(self.at).copied()
    }

    // Goes behind the next byte, and gives it.
    fn byte(&mut self) -> Read<u8> {
        let Some(byte) = self.peek() else {
            return refuse(NoLine);
        };
        self.at = self.at.saturating_add(1);
        Ok(byte)
    }

    // Goes behind this word, where it comes next.
    fn has(&mut self, word: &str) -> bool {
        let mut at = self.at;
        for byte in word.as_bytes() {
            if self.bytes.get(at) != Some(byte) {
                return false;
            }
            at = at.saturating_add(1);
        }
        self.at = at;
        true
    }

    // Goes behind this word, which has to come next.
    fn word(&mut self, word: &str) -> Read<()> {
        if self.has(word) {
            Ok(())
        } else {
            refuse(NoLine)
        }
    }

    // Adds the number of at most so much that all digits here write, without leading zeros, or what is as far below 0.
    fn signed(&mut self, most: i128, is_negative: bool) -> Read<()> {
        let number = self.number(most)?;
        if is_negative && number == 0 {
            return refuse(NoLine);
        }
        self.put(if is_negative {
            0i128.wrapping_sub(number)
        } else {
            number
        })
    }

    // The number of at most so much that all digits here write, without leading zeros. None has more than 20 digits.
    fn number(&mut self, most: i128) -> Read<i128> {
        let mut number = 0i128;
        let mut count = 0u8;
        let mut is_led = false;
        for _ in self.bytes {
            match self.peek() {
                Some(digit) if digit.is_ascii_digit() && count < 21 => {
                    is_led = is_led || (count == 1 && number == 0);
                    number = number
                        .wrapping_mul(10)
                        .wrapping_add(i128::from(digit).wrapping_sub(48));
                    count = count.saturating_add(1);
                    self.at = self.at.saturating_add(1);
                }
                _ => break,
            }
        }
        if count == 0 || is_led || number > most {
            return refuse(NoLine);
        }
        Ok(number)
    }

    // An integer: a sign stands only in front of a number that isn't 0.
    fn integer(&mut self) -> Read<()> {
        if self.has("-") {
            self.signed(MOST_NEGATED, true)
        } else {
            self.signed(MOST_INTEGER, false)
        }
    }

    // A number from 0 to the greatest.
    fn up_to(&mut self, most: i128) -> Read<()> {
        self.signed(most, false)
    }

    // The place in the table of the longest name here.
    fn place_of(&mut self, names: &[&str]) -> Read<i128> {
        let start = self.at;
        for _ in self.bytes {
            match self.peek() {
                Some(byte) if byte.is_ascii_alphanumeric() || byte == b'_' => {
                    self.at = self.at.saturating_add(1);
                }
                _ => break,
            }
        }
        let name = self.bytes.get(start..self.at);
        let mut place = 0i128;
        for other in names {
            if name == Some(other.as_bytes()) {
                return Ok(place);
            }
            place = place.wrapping_add(1);
        }
        refuse(NoLine)
    }

    // The same, added to what was found.
    fn name(&mut self, names: &[&str]) -> Read<()> {
        let place = self.place_of(names)?;
        self.put(place)
    }

    // A process and a number behind their letter.
    fn numbers_of_object(&mut self) -> Read<()> {
        self.up_to(MOST_16)?;
        self.word(".")?;
        self.up_to(MOST_32)
    }

    fn object(&mut self) -> Read<()> {
        self.word("o")?;
        self.numbers_of_object()
    }

    // What a hexadecimal digit stands for.
    fn hex_digit(&mut self) -> Read<u8> {
        match self.byte()? {
            digit @ b'0'..=b'9' => Ok(digit - b'0'),
            digit @ b'a'..=b'f' => Ok(digit - b'a' + 10),
            _ => refuse(NoLine),
        }
    }

    // A character behind a backslash.
    fn escape(&mut self) -> Read<u8> {
        match self.byte()? {
            b'n' => Ok(b'\n'),
            b't' => Ok(b'\t'),
            byte @ (b'\\' | b'"') => Ok(byte),
            b'x' => {
                let high = self.hex_digit()?;
                let code = high.wrapping_mul(16).wrapping_add(self.hex_digit()?);
                if code == b'\n' || code == b'\t' || (code > 31 && code != 127) {
                    return refuse(NoLine);
                }
                Ok(code)
            }
            _ => refuse(NoLine),
        }
    }

    // A string behind its opening quote.
    fn text(&mut self) -> Read<()> {
        for _ in self.bytes {
            let code = match self.byte()? {
                b'"' => return self.put(END),
                b'\\' => self.escape()?,
                byte if byte > 31 && byte < 127 => byte,
                _ => return refuse(NoLine),
            };
            self.put(i128::from(code))?;
        }
        refuse(NoLine)
    }

    // The tag of the value that comes next, behind the letter or the bracket with which it begins. A truth is read whole.
    fn tag(&mut self) -> Read<i128> {
        let words = [
            ("c", 3),
            ("e", 4),
            ("\"", 5),
            ("[", 6),
            ("(", 7),
            ("{", 8),
            ("<", 9),
            ("o", 10),
        ];
        for (word, tag) in words {
            if self.has(word) {
                self.put(tag)?;
                return Ok(tag);
            }
        }
        let truths = [("false", 0), ("true", 1)];
        for (word, truth) in truths {
            if self.has(word) {
                self.put(2)?;
                self.put(truth)?;
                return Ok(2);
            }
        }
        self.put(1)?;
        Ok(1)
    }

    // A value, where so many levels are left.
    #[cycle(values)]
    fn value(&mut self, levels: u8) -> Read<()> {
        if levels == 0 {
            return refuse(NoLine);
        }
        match self.tag()? {
            1 => self.integer(),
            2 => Ok(()),
            3 => self.up_to(MOST_CHAR),
            4 => self.up_to(MOST_16),
            5 => self.text(),
            6 => self.list(6, "]", levels - 1),
            7 => self.list(7, ")", levels - 1),
            8 => self.list(8, "}", levels - 1),
            9 => self.list(9, ">", levels - 1),
            _ => self.numbers_of_object(),
        }
    }

    // The parts of a list with this tag up to its end, where so many levels are left.
    #[cycle(values)]
    fn list(&mut self, tag: u8, end: &str, levels: u8) -> Read<()> {
        let mut before = None;
        for _ in self.bytes {
            if self.has(end) {
                return self.put(END);
            }
            if before.is_some() {
                self.word(" ")?;
            }
            let start = self.found.len();
            self.value(levels)?;
            if !self.is_behind(tag, before, start) {
                return refuse(NoLine);
            }
            before = Some(start);
        }
        refuse(NoLine)
    }

    // Whether the last part, which starts here in what was found, may stand behind the one in front of it: in a set it is greater, and
    // in a bag not less.
    fn is_behind(&self, tag: u8, before: Option<usize>, start: usize) -> bool {
        let Some(before) = before else {
            return true;
        };
        match (self.found.get(before..start), self.found.get(start..)) {
            (Some(before), Some(last)) => match tag {
                8 => before < last,
                9 => before <= last,
                _ => true,
            },
            _ => false,
        }
    }

    // Values in round brackets, as many as a call may have.
    fn arguments(&mut self) -> Read<()> {
        self.word("(")?;
        let mut count = 0usize;
        for _ in self.bytes {
            if self.has(")") {
                return self.put(END);
            }
            if count > 0 {
                self.word(" ")?;
            }
            self.value(LEVELS)?;
            count = count.saturating_add(1);
            if count > MOST_ARGUMENTS {
                return refuse(NoLine);
            }
        }
        refuse(NoLine)
    }

    // A make behind its word: 1, the type, the object.
    fn make(&mut self) -> Read<()> {
        self.put(1)?;
        self.name(&KINDS)?;
        self.word(" ")?;
        self.object()
    }

    // A call behind its word: 2, the type, the operation, the object, the arguments, the guard.
    fn call(&mut self) -> Read<()> {
        self.put(2)?;
        let kind = self.place_of(&KINDS)?;
        self.put(kind)?;
        self.word("$")?;
        match kind {
            0 => self.name(&OPERATIONS[0])?,
            _ => self.name(&OPERATIONS[1])?,
        }
        self.word(" ")?;
        self.object()?;
        self.word(" ")?;
        self.arguments()?;
        self.word(" guard ")?;
        self.up_to(MOST_16)
    }

    // A fork behind its word: 3, the text, the arguments, and 0, or 1 and the member.
    fn fork(&mut self) -> Read<()> {
        self.put(3)?;
        self.name(&TEXTS)?;
        self.word(" ")?;
        self.arguments()?;
        self.word(" on ")?;
        if self.has("parent") {
            return self.put(0);
        }
        self.put(1)?;
        self.integer()
    }

    fn action(&mut self) -> Read<()> {
        if self.has("make ") {
            self.make()
        } else if self.has("call ") {
            self.call()
        } else {
            self.word("fork ")?;
            self.fork()
        }
    }

    // 0, or 1 and a value, or 2 and a fault.
    fn reply(&mut self) -> Read<()> {
        if self.has("none") {
            return self.put(0);
        }
        if self.has("fault ") {
            self.put(2)?;
            return self.name(&FAULTS);
        }
        self.put(1)?;
        self.value(LEVELS)
    }

    // All of the line.
    fn whole(&mut self) -> Read<()> {
        self.up_to(MOST_16)?;
        self.word(" ")?;
        self.up_to(MOST_64)?;
        self.word(" ")?;
        self.action()?;
        self.word(" ")?;
        self.reply()?;
        if self.peek().is_some() {
            return refuse(NoLine);
        }
        Ok(())
    }
}

// Adds what a line is, where it is one; else what was found stays as it was.
fn is_line(found: &mut Numbers, bytes: &[u8]) -> Result<bool, NoMemory> {
    let before = found.len();
    let mut plain = Plain {
        bytes,
        at: 0,
        found,
    };
    match plain.whole() {
        Ok(()) => Ok(true),
        Err(Refusal::Because { .. }) => {
            found.truncate(before);
            Ok(false)
        }
        Err(Refusal::NoMemory) => Err(NoMemory),
    }
}

/// The lines in front of a text, and the number of the first that is none, where one isn't.
pub fn first_lines(alloc: Global, text: &[u8]) -> Result<First, NoMemory> {
    let mut lines = Vec::new(alloc);
    let mut start = 0usize;
    let mut line = 1u32;
    for (at, byte) in text.iter().enumerate() {
        if *byte == b'\n' {
            let is_line = match text.get(start..at) {
                Some(bytes) => is_line(&mut lines, bytes)?,
                None => false,
            };
            if !is_line {
                return Ok(First {
                    lines,
                    bad: Some(line),
                });
            }
            start = at.saturating_add(1);
            line = line.saturating_add(1);
        }
    }
    let bad = if start < text.len() { Some(line) } else { None };
    Ok(First { lines, bad })
}
