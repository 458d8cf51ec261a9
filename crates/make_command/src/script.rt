//! The script of losses.

ghost use Rattle.std.specs.Prelude.{◌≡◌, ◌≤◌, IfOk};
ghost use Rattle.make_command.specs.Losses.{loss, losses};

use fault_scripts::Script;
use net_rules::{Fate, Kinds, ScriptLine, Which};
use orca_base::NoMemory;
use std::alloc::Global;

/// How many packets the wire is asked about between one loss and the next, that one counted.
const PACKETS_A_LOSS: u64 = 50;

// The n-th loss.
fn loss(n: u64) -> ScriptLine
    requires { n ≤ 255 }
    ensures { result ≡ loss n }
{
    ScriptLine::Fate {
        kinds: Kinds::Any,
        which: Which::Nth {
            number: PACKETS_A_LOSS * n,
        },
        fate: Fate::Drop,
    }
}

/// The script by which so many packets are lost: the 50th that the wire is asked about, the 100th, and so on.
pub fn losses(alloc: Global, lost: u8) -> Result<Script, NoMemory>
    ensures { IfOk result (λ script. script ≡ losses lost) }
{
    let mut lines = Vec::new(alloc);
    'losses: for before in 0..lost {
        lines.push(loss(u64::from(before) + 1))?;
    }
    Ok(Script::from_lines(lines))
}
