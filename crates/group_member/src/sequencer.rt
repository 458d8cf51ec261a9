//! What a member does as the sequencer of its incarnation.

ghost use Rattle.std.specs.Prelude.{◌≡◌, ◌<◌, ◌++◌, ◌∷◌, [], OnOk, length};
ghost use Rattle.group_member.specs.AtWork.{GoesOn};
ghost use Rattle.group_member.specs.ByOwn.{numbering_by, room_by, stable_by};
ghost use Rattle.group_member.specs.StandsFor.{Follows, IsMember, on_waiting};
ghost use Rattle.group_rules.specs.Member.{purged};
ghost use Rattle.group_rules.specs.Sequencer.{finish, order, order_all_waiting, order_waiting, ordered};

use crate::member::{Member, Waiting};
use crate::sends::Sends;
use group_packets::Packet;
use orca_base::{Body, ENTRIES_BEFORE_PURGE, NoMemory, WINDOW};
use std::alloc::Global;

impl<B: Body> Member<B> {
    // Whether the window has room for one more entry.
    pub(crate) fn has_room(&self) -> bool
        ensures { result ≡ room_by self.now }
    {
        self.window.kept() < WINDOW
    }

    // The least applied number that it heard of a member, its own among them.
    pub(crate) fn stable(&self) -> u64
        requires { IsMember self.now }
        ensures { result ≡ stable_by self.now }
    {
        let me = self.me as usize;
        let mut least = self.applied;
        'least: for member in 0..self.config.nodes as usize {
            if member != me {
                if let Some(applied) = self.heard[member] {
                    least = least.min(applied);
                }
            }
        }
        least
    }

    // The entries up to the lesser of this number and the applied one are purged, once enough are kept.
    pub(crate) fn purge(&mut self, stable: u64)
        requires { IsMember self.old }
        ensures row { Follows B.id_of B.length_of self.old self.new (λ g which m. purged m stable) }
        ensures member { IsMember self.new }
        ensures applied { self.new.applied ≡ self.old.applied }
    {
        if self.window.kept() >= ENTRIES_BEFORE_PURGE {
            self.window.purge_to(stable.min(self.applied));
        }
    }

    // Its log has one entry more.
    pub(crate) fn append(&mut self, message: B) -> Result<(), NoMemory>
        requires member { IsMember self.old }
        requires room { length self.old.window.items < WINDOW }
        ensures row { OnOk result
            (Follows B.id_of B.length_of self.old self.new (λ g which m. record m { log = m.log ++ message ∷ [] })) }
        ensures member { OnOk result (IsMember self.new) }
        ensures applied { self.new.applied ≡ self.old.applied }
        ensures waits { OnOk result (self.new.waiting ≡ self.old.waiting) }
    {
        self.last.note(&message)?;
        let _full = self.window.push(message);
        Ok(())
    }

    // Its log has one entry more; with resilience 0 it is accepted, and the sequencer isn't silent.
    fn number(&mut self, message: B) -> Result<(), NoMemory>
        requires member { IsMember self.old }
        requires room { length self.old.window.items < WINDOW }
        ensures row { OnOk result
            (Follows B.id_of B.length_of self.old self.new (λ g which m. ordered g.resilience message m)) }
        ensures member { OnOk result (IsMember self.new) }
        ensures applied { self.new.applied ≡ self.old.applied }
        ensures waits { OnOk result (self.new.waiting ≡ self.old.waiting) }
    {
        self.append(message)?;
        if self.config.resilience > 0 {
            return Ok(());
        }
        self.accepted = self.length();
        self.silent = 0;
        Ok(())
    }

    // What the others are told of its last entry, which is this message.
    fn numbering(&self, by_name: bool, message: B) -> Packet<B>
        requires { IsMember self.now }
        ensures { result ≡ numbering_by B.id_of self.now by_name message }
    {
        let incarnation = self.installed;
        let number = self.length();
        let accepted = self.accepted;
        let stable = self.stable();
        if by_name {
            let id = message.id();
            return Packet::Order {
                incarnation,
                number,
                process: id.process,
                call: id.call,
                accepted,
                stable,
            };
        }
        Packet::Entry {
            incarnation,
            number,
            accepted,
            stable,
            message,
        }
    }

    // The message is given the next number, and the others are told.
    pub(crate) fn order(
        &mut self,
        alloc: Global,
        sends: &mut Sends<B>,
        by_name: bool,
        message: B,
    ) -> Result<(), NoMemory>
        requires member { IsMember self.old }
        requires room { length self.old.window.items < WINDOW }
        ensures row { OnOk result
            (GoesOn B.id_of B.length_of self.old sends.old.items self.new sends.new.items (λ g which. order g which by_name message)) }
        ensures member { OnOk result (IsMember self.new) }
        ensures applied { self.new.applied ≡ self.old.applied }
        ensures waits { OnOk result (self.new.waiting ≡ self.old.waiting) }
    {
        let copied = message.copy(alloc)?;
        self.number(message)?;
        let packet = self.numbering(by_name, copied);
        self.tell(alloc, sends, packet)
    }

    // A message that waited is ordered, unless the log has it by now.
    fn order_waiting(
        &mut self,
        alloc: Global,
        sends: &mut Sends<B>,
        waiting: Waiting<B>,
    ) -> Result<(), NoMemory>
        requires member { IsMember self.old }
        requires room { length self.old.window.items < WINDOW }
        ensures row { OnOk result
            (GoesOn B.id_of B.length_of self.old sends.old.items self.new sends.new.items
            (λ g which. order_waiting g which (on_waiting waiting))) }
        ensures member { OnOk result (IsMember self.new) }
        ensures applied { self.new.applied ≡ self.old.applied }
        ensures waits { OnOk result (self.new.waiting ≡ self.old.waiting) }
    {
        if self.last.is_repeat(&waiting.message) {
            return Ok(());
        }
        self.order(alloc, sends, waiting.by_name, waiting.message)
    }

    // The messages that wait are ordered while there is room.
    fn order_all_waiting(&mut self, alloc: Global, sends: &mut Sends<B>) -> Result<(), NoMemory>
        requires { IsMember self.old }
        ensures row { OnOk result (GoesOn B.id_of B.length_of self.old sends.old.items self.new sends.new.items order_all_waiting) }
        ensures member { OnOk result (IsMember self.new) }
        ensures applied { self.new.applied ≡ self.old.applied }
    {
        'waiting: while self.has_room() && !self.none_waits() {
            let first = self.waiting.remove(0);
            self.order_waiting(alloc, sends, first)?;
        }
        Ok(())
    }

    // What the active sequencer does after each step: it purges, and orders what waits.
    pub(crate) fn finish(&mut self, alloc: Global, sends: &mut Sends<B>) -> Result<(), NoMemory>
        requires { IsMember self.old }
        ensures row { OnOk result (GoesOn B.id_of B.length_of self.old sends.old.items self.new sends.new.items finish) }
        ensures member { OnOk result (IsMember self.new) }
        ensures applied { self.new.applied ≡ self.old.applied }
    {
        if !self.leads() {
            return Ok(());
        }
        let stable = self.stable();
        self.purge(stable);
        self.order_all_waiting(alloc, sends)
    }
}
