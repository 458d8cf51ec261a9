//! Draws of bytes, the same ones on every run, and strings that are made of them.

use rand_core::SeedableRng;
use rand_core::utils::NextWord;
use rand_pcg::Pcg32;
use std::alloc::{AllocError, Global};
use std::mem;

/// What a string is that some bytes are changed of.
#[derive(Clone, Copy)]
pub enum Strings {
    /// Numbers in bytes: a small byte takes a byte's place, and any byte is put in.
    Numbers,
    /// Lines of text: a line feed takes a byte's place, and a byte is put in twice.
    Lines,
}

/// A generator, and the string that it makes next.
#[derive(Drop)]
pub struct Draws {
    words: Pcg32,
    bytes: Vec<u8>,
}

impl Draws {
    /// A generator that begins with this seed.
    pub fn new(alloc: Global, seed: u64) -> Draws {
        Draws {
            words: Pcg32::seed_from_u64(seed),
            bytes: Vec::new(alloc),
        }
    }

    /// A number below this one, 0 for 0.
    pub fn below(&mut self, bound: u8) -> u8 {
        (self.words.next_word() >> 16)
            .checked_rem(u32::from(bound))
            .and_then(|rest| u8::try_from(rest).ok())
            .unwrap_or(0)
    }

    /// Any byte.
    pub fn any(&mut self) -> u8 {
        let [byte, _, _, _] = self.words.next_word().to_be_bytes();
        byte
    }

    /// Adds these bytes to the string.
    pub fn put(&mut self, bytes: &[u8]) -> Result<(), AllocError> {
        self.bytes.extend_from_slice(bytes)
    }

    /// Adds this text to the string.
    pub fn put_text(&mut self, text: &str) -> Result<(), AllocError> {
        self.put(text.as_bytes())
    }

    /// Adds one of these texts.
    pub fn put_one(&mut self, texts: &[&str]) -> Result<(), AllocError> {
        let bound = u8::try_from(texts.len()).unwrap_or(u8::MAX);
        let place = self.below(bound);
        match texts.get(usize::from(place)) {
            Some(text) => self.put_text(text),
            None => Ok(()),
        }
    }

    /// The string that was made, with up to two changes. The next one is empty.
    pub fn changed(&mut self, alloc: Global, strings: Strings) -> Result<Vec<u8>, AllocError> {
        for _ in 0..self.below(3) {
            self.change_once(strings)?;
        }
        Ok(mem::replace(&mut self.bytes, Vec::new(alloc)))
    }

    // One change somewhere: a byte is another, one more or one less, goes away, is put in, or all from there on is cut off; or a byte
    // follows.
    fn change_once(&mut self, strings: Strings) -> Result<(), AllocError> {
        let word = self.words.next_word() as usize;
        let byte = self.any();
        let kind = self.below(8);
        let length = self.bytes.len();
        if length == 0 {
            return Ok(());
        }
        let at = word % length;
        let (other, more) = match strings {
            Strings::Numbers => (byte % 16, byte),
            Strings::Lines => (b'\n', self.bytes[at]),
        };
        match kind {
            0 => self.bytes[at] = byte,
            1 => self.bytes[at] = other,
            2 => self.bytes[at] = self.bytes[at].wrapping_add(1),
            3 => self.bytes[at] = self.bytes[at].wrapping_sub(1),
            4 => {
                self.bytes.remove(at);
            }
            5 => self.bytes.insert(at, more)?,
            6 => self.bytes.truncate(at),
            _ => self.bytes.push(byte)?,
        }
        Ok(())
    }
}
