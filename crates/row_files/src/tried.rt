//! Texts and byte strings that were read both ways.

use crate::flat::Numbers;
use orca_base::Refusal;
use std::alloc::AllocError;
use std::fmt::Debug;
use std::io;

/// What a reader answers, apart from want of memory.
pub type Answer<E> = Result<Numbers, E>;

/// The answer, where there was memory.
pub fn answer<E>(read: Result<Numbers, Refusal<E>>) -> Result<Answer<E>, AllocError> {
    match read {
        Ok(numbers) => Ok(Ok(numbers)),
        Err(Refusal::Because { cause }) => Ok(Err(cause)),
        Err(Refusal::NoMemory) => Err(AllocError),
    }
}

/// How many were read, and how many of them otherwise than the plain reader does.
#[derive(Drop)]
pub struct Counts {
    found: u32,
    refused: u32,
    different: u32,
}

impl Counts {
    /// None so far.
    pub fn new() -> Counts {
        Counts {
            found: 0,
            refused: 0,
            different: 0,
        }
    }

    /// One more. Of the first that is told otherwise both answers are printed.
    pub fn count<A: Debug + PartialEq, E: Debug + PartialEq>(
        &mut self,
        rt: &HostRuntime,
        bytes: &[u8],
        plain: &Result<A, E>,
        found: &Result<A, E>,
    ) -> io::Result<()> {
        let count = match plain {
            Ok(_) => &mut self.found,
            Err(_) => &mut self.refused,
        };
        *count = count.saturating_add(1);
        if *plain != *found {
            if self.different == 0 {
                println!(rt; "of {bytes:?}\nplain {plain:?}\nfound {found:?}")?;
            }
            self.different = self.different.saturating_add(1);
        }
        Ok(())
    }

    /// Prints how many there were. Of both sorts there are to be many.
    pub fn print(&self, rt: &HostRuntime, what: &str, least: u32) -> io::Result<()> {
        let all = self.found.saturating_add(self.refused);
        if self.found < least || self.refused < least {
            println!(rt; "{} {what} found, {} refused", self.found, self.refused)?;
        }
        println!(rt; "{all} {what}, {} told otherwise", self.different)
    }
}
