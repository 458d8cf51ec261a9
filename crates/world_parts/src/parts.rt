//! The parts of a run: what a world in code is made of.

ghost use Rattle.std.specs.Prelude.{◌≡◌, [], IfOk, replicate, true};
ghost use Rattle.world_rules.specs.Frame.{AreSettings};
ghost use Rattle.world_rules.specs.Steps.{lives_in};
ghost use Rattle.world_parts.specs.Opening.{AreOpening};
ghost use Rattle.world_parts.specs.Seen.{tasks_out};
ghost use Rattle.world_parts.specs.Standing.{HasNumbers, Is, Laws, Stands, seen_of};

use crate::ledger::Ledger;
use group_member::Config;
use lossy_net::Net;
use node_core::Node;
use node_parts::{Kept, OneRun};
use orca_base::{Choice, Items, NoMemory};
use run_law::{letters_are_own, limits_stop, replies_stand, ticks_are_apart};
use std::alloc::Global;
use world_book::legal_book;
use world_facts::{ends_mean, processes_stand, standings_mean, worlds_count};
use world_law::{
    group_steps, letters_are_sound, numbers_stay_small, packets_are_numbered, processes_are_home,
};
use world_places::lines_have_places;
use world_rules::Settings;

/// The numbers of a run's settings.
#[derive(Clone, Copy, Debug, PartialEq, Eq)]
pub struct Numbers {
    pub nodes: u8,
    pub resilience: u8,
    pub turns: u64,
    pub events: u64,
    pub wires: u16,
}

/// The parts of a run: its members, which of them live, packets in flight, and what is kept; how many packets were sent and wires given
/// up, and how many ticks followed each other idle.
#[derive(Drop)]
pub struct Parts<P: OneRun> {
    pub numbers: Numbers,
    pub nodes: Vec<Node<P>>,
    pub lives: Vec<bool>,
    pub net: Net,
    pub ledger: Ledger,
    pub sent: u64,
    pub swaps: u16,
    pub idle: u64,
}

impl<P: OneRun> Parts<P> {
    /// Before the first event, by these settings, which are the run's.
    pub fn new(alloc: Global, machine: &P, settings: Settings) -> Result<Parts<P>, NoMemory>
        requires settings { settings ≡ P.run.frame.settings }
        requires ranges { AreSettings settings }
        ensures stands { IfOk result (Stands P.stood P.left P.run.frame) }
        ensures steps { IfOk result (λ parts. parts.ledger.steps ≡ []) }
        ensures tasks { IfOk result (λ parts. tasks_out (seen_of parts) ≡ 0) }
    {
        laws_of_runs(machine);
        let numbers = Numbers {
            nodes: settings.nodes,
            resilience: settings.resilience,
            turns: settings.turns,
            events: settings.events,
            wires: settings.wires,
        };
        let nodes = opening_nodes(alloc, machine, numbers, settings.choices)?;
        let lives = all_live(alloc, numbers.nodes)?;
        let net = Net::new(alloc);
        let ledger = Ledger::new(alloc);
        Ok(Parts {
            numbers,
            nodes,
            lives,
            net,
            ledger,
            sent: 0,
            swaps: 0,
            idle: 0,
        })
    }

    /// Whether the member of this number lives.
    pub fn lives(&self, member: u8) -> bool
        ensures { Is P.stood P.left P.run.frame self.now (λ w. result ≡ lives_in P.run.frame w member) }
    {
        match self.lives.get(member as usize) {
            Some(lives) => *lives,
            None => false,
        }
    }
}

// What is so of each run of the program. A call of this function does nothing.
fn laws_of_runs<P: OneRun>(machine: &P)
    ensures { Laws P.run.frame.performs P.run.frame.computes }
{
    legal_book(machine);
    ends_mean(machine);
    limits_stop(machine);
    letters_are_own(machine);
    ticks_are_apart();
    run_law::run_law(machine);
    replies_stand(machine);
    group_steps();
    packets_are_numbered();
    letters_are_sound();
    processes_are_home();
    numbers_stay_small();
    standings_mean();
    worlds_count();
    processes_stand();
    lines_have_places(machine);
}

// The members before the first event.
fn opening_nodes<P: OneRun>(
    alloc: Global,
    machine: &P,
    numbers: Numbers,
    choices: Items<Items<Choice>>,
) -> Result<Vec<Node<P>>, NoMemory>
    requires numbers { HasNumbers numbers P.run.frame.settings }
    requires choices { choices ≡ P.run.frame.settings.choices }
    requires ranges { AreSettings P.run.frame.settings }
    ensures { IfOk result (λ nodes. AreOpening P.stood P.left P.run.frame P.run.frame.settings.nodes nodes.items) }
{
    let choices = Kept::new(alloc, choices)?;
    let config = Config {
        nodes: numbers.nodes,
        resilience: numbers.resilience,
    };
    let mut nodes = Vec::new(alloc);
    'members: for me in 0..numbers.nodes {
        let node = Node::new(alloc, machine, config, me, choices.copy()?)?;
        nodes.push(node)?;
    }
    Ok(nodes)
}

// So many members live.
fn all_live(alloc: Global, nodes: u8) -> Result<Vec<bool>, NoMemory>
    ensures { IfOk result (λ lives. lives.items ≡ replicate nodes true) }
{
    let mut lives = Vec::new(alloc);
    'members: for _member in 0..nodes {
        lives.push(true)?;
    }
    Ok(lives)
}
