//! The lines of `choice`.

ghost use Rattle.std.specs.Prelude.{◌≡◌, ◌++◌, IfOk, OnErr};
ghost use Rattle.accepted_law.specs.Limits.{IsWithinLimits};
ghost use Rattle.program_bodies.specs.Codes.{sources};
ghost use Rattle.estimate_rules.specs.Estimates as rules;
ghost use Rattle.replica_choice.specs.Asking.{AsksFirst, choices_by, questions};
ghost use Rattle.replica_choice.specs.Printed as printed;
ghost use Rattle.choice_command.specs.Lines as program;

use access_estimates::estimates;
use orca_base::NoMemory;
use replica_choice::{Policy, choice_text, choose_all};
use site_estimates::Estimate;
use std::alloc::Global;
use type_decls::Checked;

// Asks a policy about these sites, among so many members, and says what it chose.
fn asked_lines<P: Policy>(
    alloc: Global,
    policy: &mut P,
    sites: &[Estimate],
    nodes: u8,
) -> Result<Vec<u8>, NoMemory>
    ensures lines { IfOk result (λ v. v.items ≡
        printed.choice_text sites.now (choices_by (P.rule policy.old) nodes (P.told policy.old) sites.now)) }
    ensures told { IfOk result (λ v. P.told policy.new ≡
        P.told policy.old ++ questions nodes sites.now (choices_by (P.rule policy.old) nodes (P.told policy.old) sites.now)) }
    ensures first { OnErr result (AsksFirst (P.rule policy.old) nodes sites.now (P.told policy.old) (P.told policy.new)) }
    ensures same_rule { P.rule policy.new ≡ P.rule policy.old }
{
    let choices = choose_all(alloc, policy, sites, nodes)?;
    choice_text(alloc, sites, &choices)
}

/// What `choice` prints of a checked program (docs/FORMATS.md, Choices): a line for each site, with its estimate, and where the policy
/// keeps its object among so many members. The policy is asked about each site once, in their order, and keeps its rule. The only error is
/// want of memory: then it was asked about the first sites alone, if about any. The program keeps within the limits, as `within_limits` of
/// program_limits says.
pub fn choice_lines<P: Policy>(
    alloc: Global,
    checked: &Checked<'_>,
    policy: &mut P,
    nodes: u8,
) -> Result<Vec<u8>, NoMemory>
    requires within { IsWithinLimits (sources checked.now) }
    ensures lines { IfOk result (λ v. v.items ≡ program.choice_lines (P.rule policy.old) nodes (P.told policy.old) (sources checked.now)) }
    ensures told { IfOk result (λ v. P.told policy.new ≡ P.told policy.old ++ questions nodes (rules.estimates (sources checked.now))
        (program.program_choices (P.rule policy.old) nodes (P.told policy.old) (sources checked.now))) }
    ensures first { OnErr result (AsksFirst (P.rule policy.old) nodes (rules.estimates (sources checked.now)) (P.told policy.old) (P.told policy.new)) }
    ensures same_rule { P.rule policy.new ≡ P.rule policy.old }
{
    let sites = estimates(alloc, checked)?;
    asked_lines(alloc, policy, &sites, nodes)
}
