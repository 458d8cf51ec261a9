//! The settings of a run.

ghost use Rattle.std.specs.Prelude.{◌≡◌, ◌≤◌, IfOk, OnErr};
ghost use Rattle.accepted_law.specs.Limits.{IsWithinLimits};
ghost use Rattle.command_line.specs.Asked.{IsRunWithin};
ghost use Rattle.estimate_rules.specs.Estimates.{estimates};
ghost use Rattle.program_bodies.specs.Codes.{sources};
ghost use Rattle.replica_choice.specs.Asking.{AsksFirst};
ghost use Rattle.run_choices.specs.Chosen as rules;
ghost use Rattle.world_rules.specs.Frame.{AreSettings};

use choice_command::run_choices;
use command_line::RunOptions;
use orca_base::{Choice, Items, NoMemory};
use replica_choice::Policy;
use std::alloc::Global;
use type_decls::Checked;
use world_rules::Settings;

// Where the objects of a run of a checked program are kept: as the policy chooses, which is asked where no member may be lost.
fn choices<P: Policy>(
    alloc: Global,
    checked: &Checked<'_>,
    options: RunOptions,
    policy: &mut P,
) -> Result<Items<Items<Choice>>, NoMemory>
    requires within { IsWithinLimits (sources checked.now) }
    ensures chosen { IfOk result (λ v. v ≡ rules.run_choices (P.rule policy.old) (P.told policy.old) options (sources checked.now)) }
    ensures told { IfOk result (λ v.
        P.told policy.new ≡ rules.told_by_run (P.rule policy.old) (P.told policy.old) options (sources checked.now)) }
    ensures first { OnErr result ((options.group.resilience ≡ 0) × AsksFirst (P.rule policy.old) options.group.nodes
        (estimates (sources checked.now)) (P.told policy.old) (P.told policy.new)) }
    ensures same_rule { P.rule policy.new ≡ P.rule policy.old }
{
    if options.group.resilience == 0 {
        run_choices(alloc, checked, policy, options.group.nodes)
    } else {
        Ok(Items::new(Vec::new(alloc)))
    }
}

/// The settings of a run of a checked program by the options of the words, over so many wires, from 1 to 1,000 (docs/RUNTIME.md, Choice of
/// copies). Where no member may be lost the policy is asked about each site of the program once, in order, among the run's members, and each
/// object is kept where it answers; else it is asked nothing, and each object is at every member. It keeps its rule. The only error is want
/// of memory, where no member may be lost: then it was asked about so many sites from the front, maybe all. The program keeps within the
/// limits, as `within_limits` of program_limits says, and the options are in their ranges.
pub fn run_settings<P: Policy>(
    alloc: Global,
    checked: &Checked<'_>,
    options: RunOptions,
    wires: u16,
    policy: &mut P,
) -> Result<Settings, NoMemory>
    requires within { IsWithinLimits (sources checked.now) }
    requires options { IsRunWithin options }
    requires wires { (1 ≤ wires) × (wires ≤ 1000) }
    ensures settings { IfOk result (λ s.
        s ≡ rules.run_settings (P.rule policy.old) (P.told policy.old) options (sources checked.now) wires) }
    ensures ranges { IfOk result (λ s. AreSettings s) }
    ensures told { IfOk result (λ s.
        P.told policy.new ≡ rules.told_by_run (P.rule policy.old) (P.told policy.old) options (sources checked.now)) }
    ensures first { OnErr result ((options.group.resilience ≡ 0) × AsksFirst (P.rule policy.old) options.group.nodes
        (estimates (sources checked.now)) (P.told policy.old) (P.told policy.new)) }
    ensures same_rule { P.rule policy.new ≡ P.rule policy.old }
{
    let choices = choices(alloc, checked, options, policy)?;
    Ok(Settings {
        nodes: options.group.nodes,
        resilience: options.group.resilience,
        turns: options.turns,
        events: options.events,
        wires,
        choices,
    })
}
