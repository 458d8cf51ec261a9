//! The choices of a run.

ghost use Rattle.std.specs.Prelude.{◌≡◌, ◌++◌, List, IfOk, OnErr, map};
ghost use Rattle.accepted_law.specs.Limits.{IsWithinLimits};
ghost use Rattle.program_bodies.specs.Codes.{sources};
ghost use Rattle.estimate_rules.specs.Estimates as rules;
ghost use Rattle.estimate_rules.specs.Sites.{all_of, choices_of};
ghost use Rattle.replica_choice.specs.Asking.{AsksFirst, choices_by, questions};
ghost use Rattle.choice_command.specs.Lines as program;

use access_estimates::estimates_by_text;
use orca_base::{Choice, Items, NoMemory};
use replica_choice::{Policy, choose_all};
use site_estimates::Estimate;
use std::alloc::Global;
use type_decls::Checked;

// Asks a policy about the sites of these texts, among so many members, and gives what it chose, text by text.
fn text_choices<P: Policy>(
    alloc: Global,
    policy: &mut P,
    texts: &[Vec<Estimate>],
    nodes: u8,
) -> Result<Items<Items<Choice>>, NoMemory>
    ensures chosen { IfOk result (λ v. v ≡ choices_of (map (λ l. l.items) texts.now)
        (choices_by (P.rule policy.old) nodes (P.told policy.old) (all_of (map (λ l. l.items) texts.now)))) }
    ensures told { IfOk result (λ v. P.told policy.new ≡ P.told policy.old ++ questions nodes (all_of (map (λ l. l.items) texts.now))
        (choices_by (P.rule policy.old) nodes (P.told policy.old) (all_of (map (λ l. l.items) texts.now)))) }
    ensures first { OnErr result
        (AsksFirst (P.rule policy.old) nodes (all_of (map (λ l. l.items) texts.now)) (P.told policy.old) (P.told policy.new)) }
    ensures same_rule { P.rule policy.new ≡ P.rule policy.old }
{
    let mut choices = Vec::new(alloc);
    'texts: for sites in texts {
        match choose_all(alloc, policy, sites, nodes) {
            Err(error) => return Err(error),
            Ok(chosen) => choices.push(Items::new(chosen))?,
        }
    }
    Ok(Items::new(choices))
}

/// What a policy chooses for a checked program's sites among so many members, text by text, as the settings of a run have it in which no
/// member may be lost (docs/RUNTIME.md, Choice of copies); in another one nobody is asked. That the n-th choice of a text is where the n-th
/// object of each process is kept that runs it, are laws of estimate_rules (`sites_are_objects`, `answers_by_text`). The policy is asked
/// about each site once, in the order of the texts, and keeps its rule. The only error is want of memory: then it was asked about so many
/// of them from the front, maybe all. The program keeps within the limits, as `within_limits` of program_limits says.
pub fn run_choices<P: Policy>(
    alloc: Global,
    checked: &Checked<'_>,
    policy: &mut P,
    nodes: u8,
) -> Result<Items<Items<Choice>>, NoMemory>
    requires within { IsWithinLimits (sources checked.now) }
    ensures chosen { IfOk result (λ v. v ≡ program.choices_by_text (P.rule policy.old) nodes (P.told policy.old) (sources checked.now)) }
    ensures told { IfOk result (λ v. P.told policy.new ≡ P.told policy.old ++ questions nodes (rules.estimates (sources checked.now))
        (program.program_choices (P.rule policy.old) nodes (P.told policy.old) (sources checked.now))) }
    ensures first { OnErr result
        (AsksFirst (P.rule policy.old) nodes (rules.estimates (sources checked.now)) (P.told policy.old) (P.told policy.new)) }
    ensures same_rule { P.rule policy.new ≡ P.rule policy.old }
{
    let texts = estimates_by_text(alloc, checked)?;
    text_choices(alloc, policy, &texts, nodes)
}
