//! A message for rows.

ghost use Rattle.std.specs.Prelude.{if◌then◌else◌, nat_lt};

use orca_base::{Body, CallNo, MessageId, NoMemory, ProcessNo};
use std::alloc::Global;

/// A message of so many bytes, whose replies have 9 bytes. Those of calls below 1,000 are process 0's, the others process 1's.
#[derive(Drop)]
pub struct Plain {
    pub call: u64,
    pub bytes: u32,
}

impl Body for Plain {
    type Reply = u64;

    ghost id_of = { λ m. record { process = record { 0 = if nat_lt m.call 1000 then 0 else 1 }; call = record { 0 = m.call } } };

    ghost length_of = { λ m. m.bytes };

    ghost reply_length_of = { λ _. 9 };

    fn id(&self) -> MessageId {
        MessageId {
            process: ProcessNo(if self.call < 1000 { 0 } else { 1 }),
            call: CallNo(self.call),
        }
    }

    fn byte_length(&self) -> u32 {
        self.bytes
    }

    fn copy(&self, _alloc: Global) -> Result<Plain, NoMemory> {
        Ok(Plain {
            call: self.call,
            bytes: self.bytes,
        })
    }

    fn reply_length(_reply: &u64) -> u32 {
        9
    }

    fn copy_reply(_alloc: Global, reply: &u64) -> Result<u64, NoMemory> {
        Ok(*reply)
    }
}
