//! What a coordinator does: it invites, takes answers, and installs.

ghost use Rattle.std.specs.Prelude.{◌≡◌, ◌<◌, ◌≤◌, ◌+◌, ◌-◌, ◌*◌, ◌/◌, ◌%◌, ◌^◌, IfOk, OnOk, Some};
ghost use Rattle.group_member.specs.StandsFor.{IsMember, Tells};
ghost use Rattle.group_member.specs.Ticks.{gathering_by};
ghost use Rattle.group_rules.specs.Sets.{count};
ghost use Rattle.group_reset.specs.Calls.{ComesOf, CoordinatesAs, IsSome, JoinsAs, MayJoin};
ghost use Rattle.group_reset.specs.Choice.{best_by, gave_by, most_by};
ghost use Rattle.group_reset.specs.Concludes.{CanConclude, Concludes, gathered, IsNewsOf};

use crate::choice::{Choice, choose, count_answers, heard_of, members_of};
use crate::outcome::Joined;
use group_member::{Member, Sends, tell_others};
use group_packets::{Join, News, Packet};
use orca_base::{Body, Items, NoMemory};
use std::alloc::Global;

/// The member coordinates a new incarnation: it promises its own of the next round, (promised / N + 1) N + m, keeps its own
/// answer and invites the others. So a new member 1 of three promises 4. Where it is alone it installs at once. A member that
/// is outside does nothing.
///
/// Where memory runs out nothing is said of the member: whoever wants it as it was keeps a copy.
pub fn coordinate<B: Body>(member: &mut Member<B>, alloc: Global) -> Result<Sends<B>, NoMemory>
    requires stands { IsSome B.id_of B.length_of member.old }
    requires small { member.old.promised < 2 ^ 62 }
    ensures row { IfOk result (λ sends. CoordinatesAs B.id_of B.length_of member.old member.new sends.items) }
    ensures member { OnOk result (IsMember member.new) }
    ensures applied { OnOk result (member.new.applied ≡ member.old.applied) }
{
    let mut sends = Vec::new(alloc);
    if member.is_outside() {
        return Ok(sends);
    }
    let config = member.config();
    let me = member.me();
    let incarnation = next_incarnation(member.promised(), config.nodes, me);
    member.gather(alloc, incarnation)?;
    let packet = Packet::Invite { incarnation };
    tell_others(alloc, &mut sends, config.nodes, me, &packet)?;
    if config.nodes > 1 {
        return Ok(sends);
    }
    let done = conclude(member, alloc)?;
    Ok(done.1)
}

/// An answer to an invitation came from this member. Where the receiver gathers for that incarnation, the answer is kept in the
/// place of an earlier one of that member; else it is stale, and nothing changes. Once enough answered, itself included, the
/// coordinator installs; or it gives up, and is outside then, where the log that it would install begins beyond what it applied.
///
/// Where memory runs out nothing is said of the member: whoever wants it as it was keeps a copy.
pub fn joined<B: Body>(
    member: &mut Member<B>,
    alloc: Global,
    from: u8,
    join: Join<B>,
) -> Result<(Joined, Sends<B>), NoMemory>
    requires from { from < member.old.config.nodes }
    requires can { MayJoin B.id_of B.length_of from join member.old }
    ensures row { IfOk result (λ done. JoinsAs B.id_of B.length_of from join member.old member.new done.1.items) }
    ensures outcome { IfOk result (λ done. ComesOf B.id_of B.length_of from join member.old done.0) }
    ensures member { OnOk result (IsMember member.new) }
    ensures applied { OnOk result (member.new.applied ≡ member.old.applied) }
{
    if !is_gathering(member) {
        return Ok((Joined::Stale, Vec::new(alloc)));
    }
    if join.incarnation != member.promised() {
        return Ok((Joined::Stale, Vec::new(alloc)));
    }
    member.keep_answer(alloc, from, join)?;
    let done = conclude(member, alloc)?;
    Ok(done)
}

// Whether it gathers answers for the incarnation that it promised.
fn is_gathering<B: Body>(member: &Member<B>) -> bool
    requires { IsMember member.now }
    ensures { result ≡ gathering_by member.now }
{
    let coordinator = (member.promised() % member.config().nodes as u64) as u8;
    !member.is_outside() && member.installed() < member.promised() && coordinator == member.me()
}

// The next incarnation that a member coordinates.
fn next_incarnation(promised: u64, nodes: u8, me: u8) -> u64
    requires me { me < nodes }
    requires small { promised < 2 ^ 62 }
    ensures { result ≡ (promised / nodes + 1) * nodes + me }
{
    promised - promised % nodes as u64 + nodes as u64 + me as u64
}

// With the answers that it keeps it waits, gives up, or installs.
fn conclude<B: Body>(member: &mut Member<B>, alloc: Global) -> Result<(Joined, Sends<B>), NoMemory>
    requires member { IsMember member.old }
    requires can { CanConclude member.old }
    ensures row { IfOk result (λ done. Concludes B.id_of B.length_of member.old member.new done.1.items) }
    ensures outcome { IfOk result (λ done. Tells B.id_of B.length_of member.old (λ g which m. done.0 ≡ gathered g m)) }
    ensures member { OnOk result (IsMember member.new) }
    ensures applied { OnOk result (member.new.applied ≡ member.old.applied) }
{
    let have = answered(member);
    let need = needed(member);
    if have < need {
        return Ok((Joined::Waiting { have, need }, Vec::new(alloc)));
    }
    let choice = choice_of(member, alloc)?;
    let most = choice.most;
    let kept = choice.kept;
    match kept {
        Some(kept) => take(member, alloc, kept, most),
        None => unreachable!(),
    }
}

// How many members answered.
fn answered<B: Body>(member: &Member<B>) -> u8
    ensures { result ≡ count member.now.config.nodes (gave_by member.now.answers.items) }
{
    count_answers(member.answers(), member.config().nodes)
}

// How many members have to answer.
fn needed<B: Body>(member: &Member<B>) -> u8
    requires { IsMember member.now }
    ensures { result ≡ member.now.config.nodes - member.now.config.resilience }
{
    member.config().nodes - member.config().resilience
}

// The choice among its answers.
fn choice_of<B: Body>(member: &Member<B>, alloc: Global) -> Result<Choice<B>, NoMemory>
    ensures most { IfOk result
        (λ choice. choice.most ≡ most_by member.now.config.nodes member.now.answers.items member.now.accepted) }
    ensures kept { IfOk result (λ choice. choice.kept ≡ best_by member.now.config.nodes member.now.answers.items) }
{
    choose(
        alloc,
        member.answers(),
        member.config().nodes,
        member.accepted(),
    )
}

// The news of the answer that it keeps.
fn news_of<B: Body>(
    member: &Member<B>,
    alloc: Global,
    kept: Join<B>,
    most: u64,
) -> Result<News<B>, NoMemory>
    ensures { IfOk result (IsNewsOf member.now kept most) }
{
    let members = members_of(alloc, member.answers(), member.config().nodes)?;
    Ok(News {
        incarnation: member.promised(),
        accepted: most,
        base: kept.base,
        members: Items::new(members),
        messages: kept.messages,
    })
}

// It installs the log of the answer that it keeps, or gives up where that begins beyond what it applied.
fn take<B: Body>(
    member: &mut Member<B>,
    alloc: Global,
    kept: Join<B>,
    most: u64,
) -> Result<(Joined, Sends<B>), NoMemory>
    requires member { IsMember member.old }
    requires can { CanConclude member.old }
    requires many { member.old.config.nodes - member.old.config.resilience
        ≤ count member.old.config.nodes (gave_by member.old.answers.items) }
    requires kept { best_by member.old.config.nodes member.old.answers.items ≡ Some kept }
    requires most { most ≡ most_by member.old.config.nodes member.old.answers.items member.old.accepted }
    ensures row { IfOk result (λ done. Concludes B.id_of B.length_of member.old member.new done.1.items) }
    ensures outcome { IfOk result (λ done. Tells B.id_of B.length_of member.old (λ g which m. done.0 ≡ gathered g m)) }
    ensures member { OnOk result (IsMember member.new) }
    ensures applied { OnOk result (member.new.applied ≡ member.old.applied) }
{
    let applied = member.applied();
    let base = kept.base;
    if applied < base {
        member.leave();
        return Ok((Joined::GaveUp { base, applied }, Vec::new(alloc)));
    }
    let heard = heard_of(alloc, member.answers())?;
    let news = news_of(member, alloc, kept, most)?;
    let sends = member.install(alloc, news, heard.as_slice())?;
    Ok((Joined::Installed, sends))
}
