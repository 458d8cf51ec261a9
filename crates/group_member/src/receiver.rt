//! What a member does that isn't the sequencer of its incarnation.

ghost use Rattle.std.specs.Prelude.{◌≡◌, ◌<◌, ◌≤◌, OnOk, length, nat_lt};
ghost use Rattle.group_member.specs.AtWork.{GoesOn};
ghost use Rattle.group_member.specs.ByOwn.{acknowledges_by, may_nack_by};
ghost use Rattle.group_member.specs.StandsFor.{Follows, HasNumbersOf, IsMember};
ghost use Rattle.group_rules.specs.Receiver.{accepts, acknowledge, appended, nack, send_ack, send_status, take_accept, take_entry, take_number};
ghost use Rattle.group_rules.specs.Work.{becomes, when};

use crate::member::Member;
use crate::sends::{Letter, Sends};
use group_packets::Packet;
use orca_base::{Body, ENTRIES_SENT_AGAIN, NoMemory};

impl<B: Body> Member<B> {
    // Whether it is an acknowledger.
    pub(crate) fn is_acker(&self) -> bool
        requires { IsMember self.now }
        ensures { result ≡ acknowledges_by self.now }
    {
        let sequencer = self.sequencer() as usize;
        let me = self.me as usize;
        let mut lower: u8 = 0;
        'lower: for other in 0..me {
            if self.answered[other] && other != sequencer {
                lower += 1;
            }
        }
        self.answered[me] && me != sequencer && lower < self.config.resilience
    }

    // Whether it didn't ask for entries since the last tick, or has enough more since.
    fn may_nack(&self) -> bool
        requires { IsMember self.now }
        ensures { result ≡ may_nack_by self.now }
    {
        if self.nacked == 0 {
            return true;
        }
        let first = self.length() + 1;
        first.saturating_sub(self.nacked) >= ENTRIES_SENT_AGAIN as u64
    }

    // It asks its sequencer for the entries from the next one on, unless it did so a short while ago.
    pub(crate) fn nack(&mut self, sends: &mut Sends<B>) -> Result<(), NoMemory>
        requires { IsMember self.old }
        ensures row { OnOk result (GoesOn B.id_of B.length_of self.old sends.old.items self.new sends.new.items nack) }
        ensures member { OnOk result (IsMember self.new) }
        ensures applied { self.new.applied ≡ self.old.applied }
    {
        if !self.may_nack() {
            return Ok(());
        }
        let first = self.length() + 1;
        self.nacked = first;
        let to = self.sequencer();
        let packet = Packet::Nack {
            incarnation: self.installed,
            first,
            applied: self.applied,
            whole: false,
        };
        sends.push(Letter { to, packet })?;
        Ok(())
    }

    // It asks for what it lacks, where this number is beyond its log.
    fn nack_below(&mut self, sends: &mut Sends<B>, number: u64) -> Result<(), NoMemory>
        requires { IsMember self.old }
        ensures row { OnOk result
            (GoesOn B.id_of B.length_of self.old sends.old.items self.new sends.new.items
            (λ g which v. when (nat_lt (length v.state.log) number) (nack g which) v)) }
        ensures member { OnOk result (IsMember self.new) }
        ensures applied { self.new.applied ≡ self.old.applied }
    {
        if number <= self.length() {
            return Ok(());
        }
        self.nack(sends)
    }

    // Its accepted number rises, at most to its length.
    fn accept(&mut self, accepted: u64)
        requires { IsMember self.old }
        ensures row { Follows B.id_of B.length_of self.old self.new (λ g which. accepts accepted) }
        ensures member { IsMember self.new }
        ensures applied { self.new.applied ≡ self.old.applied }
    {
        let fits = accepted.min(self.length());
        self.accepted = self.accepted.max(fits);
    }

    // An Accept: what it accepted rises, it asks for what it lacks, and purges.
    pub(crate) fn take_accept(
        &mut self,
        sends: &mut Sends<B>,
        accepted: u64,
        stable: u64,
    ) -> Result<(), NoMemory>
        requires { IsMember self.old }
        ensures row { OnOk result
            (GoesOn B.id_of B.length_of self.old sends.old.items self.new sends.new.items
            (λ g which. take_accept g which accepted stable)) }
        ensures member { OnOk result (IsMember self.new) }
        ensures applied { self.new.applied ≡ self.old.applied }
    {
        self.accept(accepted);
        self.nack_below(sends, accepted)?;
        self.purge(stable);
        Ok(())
    }

    // The next entry is appended, where the window has room.
    fn append_next(&mut self, message: B) -> Result<(), NoMemory>
        requires { IsMember self.old }
        ensures row { OnOk result (Follows B.id_of B.length_of self.old self.new (λ g which. appended message)) }
        ensures member { OnOk result (IsMember self.new) }
        ensures applied { self.new.applied ≡ self.old.applied }
    {
        if !self.has_room() {
            return Ok(());
        }
        self.append(message)
    }

    // It acknowledges its whole log.
    pub(crate) fn send_ack(&self, sends: &mut Sends<B>) -> Result<(), NoMemory>
        requires { IsMember self.now }
        ensures { OnOk result (GoesOn B.id_of B.length_of self.now sends.old.items self.now sends.new.items send_ack) }
    {
        let to = self.sequencer();
        let packet = Packet::Ack {
            incarnation: self.installed,
            length: self.length(),
            applied: self.applied,
        };
        sends.push(Letter { to, packet })?;
        Ok(())
    }

    // The next entry is appended after a purge; before a later one it asks for what it lacks.
    fn take_number(
        &mut self,
        sends: &mut Sends<B>,
        number: u64,
        stable: u64,
        message: B,
    ) -> Result<(), NoMemory>
        requires { IsMember self.old }
        ensures row { OnOk result
            (GoesOn B.id_of B.length_of self.old sends.old.items self.new sends.new.items
            (λ g which. take_number g which number stable message)) }
        ensures member { OnOk result (IsMember self.new) }
        ensures applied { self.new.applied ≡ self.old.applied }
    {
        let next = self.length() + 1;
        if number == next {
            self.purge(stable);
            return self.append_next(message);
        }
        if next < number {
            return self.nack(sends);
        }
        Ok(())
    }

    // An acknowledger whose log holds the number acknowledges.
    fn acknowledge(&self, sends: &mut Sends<B>, number: u64) -> Result<(), NoMemory>
        requires { IsMember self.now }
        ensures { OnOk result
            (GoesOn B.id_of B.length_of self.now sends.old.items self.now sends.new.items (λ g which. acknowledge g which number)) }
    {
        if !self.is_acker() {
            return Ok(());
        }
        if self.length() < number {
            return Ok(());
        }
        self.send_ack(sends)
    }

    // An Entry: it is appended or asked for, acknowledged, and then all is as at an Accept.
    pub(crate) fn take_entry(
        &mut self,
        sends: &mut Sends<B>,
        number: u64,
        accepted: u64,
        stable: u64,
        message: B,
    ) -> Result<(), NoMemory>
        requires { IsMember self.old }
        ensures row { OnOk result
            (GoesOn B.id_of B.length_of self.old sends.old.items self.new sends.new.items
            (λ g which. take_entry g which number accepted stable message)) }
        ensures member { OnOk result (IsMember self.new) }
        ensures applied { self.new.applied ≡ self.old.applied }
    {
        self.take_number(sends, number, stable, message)?;
        self.acknowledge(sends, number)?;
        self.take_accept(sends, accepted, stable)
    }

    // It tells its sequencer how far it is.
    pub(crate) fn send_status(&mut self, sends: &mut Sends<B>) -> Result<(), NoMemory>
        requires { IsMember self.old }
        ensures row { OnOk result (GoesOn B.id_of B.length_of self.old sends.old.items self.new sends.new.items send_status) }
        ensures numbers { HasNumbersOf self.old self.new }
        ensures member { OnOk result (IsMember self.new) }
    {
        self.reported = self.applied;
        let to = self.sequencer();
        let packet = Packet::Status {
            incarnation: self.installed,
            length: self.length(),
            applied: self.applied,
        };
        sends.push(Letter { to, packet })?;
        Ok(())
    }
}
