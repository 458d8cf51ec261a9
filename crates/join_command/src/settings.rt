//! The settings of a run with a follower.

ghost use Rattle.std.specs.Prelude.{◌≡◌};
ghost use Rattle.join_command.specs.Asked.{join_settings};

use command_line::JoinOptions;
use orca_base::Items;
use run_loop::Settings;
use std::alloc::Global;

/// As many turns of each process as a run has whose words state no number (docs/FORMATS.md, The program).
pub const USUAL_TURNS: u64 = 1_000_000;

/// As many events as such a run has.
pub const USUAL_EVENTS: u64 = 1_000_000;

/// The settings of a run with these options: one wire serves the group, and each object is at every member.
pub(crate) fn settings_of(alloc: Global, options: JoinOptions) -> Settings
    ensures { result ≡ join_settings options }
{
    Settings {
        nodes: options.group.nodes,
        resilience: options.group.resilience,
        turns: USUAL_TURNS,
        events: USUAL_EVENTS,
        wires: 1,
        choices: Items::new(Vec::new(alloc)),
    }
}
