//! What another member than the coordinator does: it is invited, and takes a Result.

ghost use Rattle.std.specs.Prelude.{◌≡◌, ◌%◌, ◌==◌, IfOk, OnOk};
ghost use Rattle.group_member.specs.Packets.{heeds_by};
ghost use Rattle.group_member.specs.StandsFor.{Follows, IsMember};
ghost use Rattle.group_rules.specs.Reset.{promises_above};
ghost use Rattle.group_reset.specs.Calls.{Answers, HearsAs, InvitedAs, MayHear};

use group_member::{Letter, Member, Sends};
use group_packets::{News, Packet};
use orca_base::{Body, NoMemory};
use std::alloc::Global;

/// An invitation to an incarnation came from this member. One below the promised incarnation is dropped, and so is one that the
/// member coordinates itself. It is promised, where it is above the promised one, and answered where it isn't installed yet.
///
/// Where memory runs out nothing is said of the member: whoever wants it as it was keeps a copy.
pub fn invited<B: Body>(
    member: &mut Member<B>,
    alloc: Global,
    from: u8,
    incarnation: u64,
) -> Result<Sends<B>, NoMemory>
    requires { IsMember member.old }
    ensures row { IfOk result (λ sends. InvitedAs B.id_of B.length_of from incarnation member.old member.new sends.items) }
    ensures member { OnOk result (IsMember member.new) }
    ensures applied { OnOk result (member.new.applied ≡ member.old.applied) }
{
    if !heeds(member, incarnation) {
        return Ok(Vec::new(alloc));
    }
    if coordinates(member, incarnation) {
        return Ok(Vec::new(alloc));
    }
    member.listen(from, incarnation);
    promise_above(member, incarnation);
    let sends = answer(member, alloc, incarnation)?;
    Ok(sends)
}

/// A Result came from this member. One of an incarnation below the promised one is dropped. The log of a later incarnation than
/// the installed one is installed; where it begins beyond what the member applied, or one of the installed incarnation beyond
/// what it has, it takes no part any more.
///
/// Where memory runs out nothing is said of the member: whoever wants it as it was keeps a copy.
pub fn announced<B: Body>(
    member: &mut Member<B>,
    alloc: Global,
    from: u8,
    news: News<B>,
) -> Result<Sends<B>, NoMemory>
    requires { MayHear B.id_of B.length_of news member.old }
    ensures row { IfOk result (λ sends. HearsAs B.id_of B.length_of from news member.old member.new sends.items) }
    ensures member { OnOk result (IsMember member.new) }
    ensures applied { OnOk result (member.new.applied ≡ member.old.applied) }
{
    let incarnation = news.incarnation;
    let base = news.base;
    if !heeds(member, incarnation) {
        return Ok(Vec::new(alloc));
    }
    let installed = member.installed();
    if incarnation <= installed {
        let length = member.length();
        member.listen(from, incarnation);
        if base <= length {
            return Ok(Vec::new(alloc));
        }
        member.leave();
        return Ok(Vec::new(alloc));
    }
    let applied = member.applied();
    if applied < base {
        promise_above(member, incarnation);
        member.leave();
        return Ok(Vec::new(alloc));
    }
    let sends = member.install(alloc, news, &[])?;
    Ok(sends)
}

// Whether a packet of this incarnation is heeded.
fn heeds<B: Body>(member: &Member<B>, incarnation: u64) -> bool
    ensures { result ≡ heeds_by member.now incarnation }
{
    !member.is_outside() && member.promised() <= incarnation
}

// Whether it is the coordinator of this incarnation.
fn coordinates<B: Body>(member: &Member<B>, incarnation: u64) -> bool
    requires { IsMember member.now }
    ensures { result ≡ (incarnation % member.now.config.nodes == member.now.me) }
{
    (incarnation % member.config().nodes as u64) as u8 == member.me()
}

// It promises an incarnation above the promised one.
fn promise_above<B: Body>(member: &mut Member<B>, incarnation: u64)
    requires { IsMember member.old }
    ensures row { Follows B.id_of B.length_of member.old member.new (λ g which. promises_above incarnation) }
    ensures member { IsMember member.new }
    ensures applied { member.new.applied ≡ member.old.applied }
{
    let promised = member.promised();
    if incarnation <= promised {
        return;
    }
    member.promise(incarnation);
}

// It answers for the incarnation that it promised, where it hasn't installed that.
fn answer<B: Body>(
    member: &Member<B>,
    alloc: Global,
    incarnation: u64,
) -> Result<Sends<B>, NoMemory>
    requires { IsMember member.now }
    ensures { IfOk result (λ sends. Answers B.id_of B.length_of incarnation member.now sends.items) }
{
    let mut sends = Vec::new(alloc);
    let installed = member.installed();
    if incarnation <= installed {
        return Ok(sends);
    }
    let join = member.own_join(alloc)?;
    let to = (incarnation % member.config().nodes as u64) as u8;
    let packet = Packet::Join { join };
    sends.push(Letter { to, packet })?;
    Ok(sends)
}
