//! What is tested before an answer or a Result is handed to a member.

ghost use Rattle.std.specs.Prelude.{◌≡◌, ◌<◌, ◌≤◌, ◌+◌, ◌⊎◌, ◌∷◌, [], All, length, true};
ghost use Rattle.group_member.specs.StandsFor.{IsMember};
ghost use Rattle.member_rows.specs.Tested.{CanHear, CanJoin, HaveOne, IsFirst};

use crate::plain::Plain;
use group_member::Member;
use group_packets::{Join, News};
use history_buffer::Slot;
use orca_base::WINDOW;

// Whether it is an answer of a member that installed nothing, whose numbers are in order.
fn is_first(join: &Join<Plain>) -> bool
    ensures { result ≡ true → IsFirst join.now }
{
    join.installed == 0
        && join.accepted as u128 <= join.base as u128 + join.messages.len() as u128
        && join.messages.len() <= WINDOW as usize
}

// Whether all are such answers.
fn are_first(answers: &[(u8, Join<Plain>)]) -> bool
    ensures { result ≡ true → All (λ answer. IsFirst answer.1) answers.now }
{
    'answers: for answer in answers {
        if !is_first(&answer.1) {
            return false;
        }
    }
    true
}

/// Whether the member has accepted nothing, and this answer and all that it keeps are of members that installed nothing.
pub fn can_join(member: &Member<Plain>, join: &Join<Plain>) -> bool
    ensures { result ≡ true → CanJoin member.now join.now }
{
    if member.applied() != 0 {
        return false;
    }
    if member.accepted() != 0 {
        return false;
    }
    if !is_first(join) {
        return false;
    }
    are_first(member.answers())
}

// Whether the member and the log have the same first entry, which alone is applied, and nothing is purged.
fn have_one(member: &Member<Plain>, news: &News<Plain>) -> bool
    ensures { result ≡ true → HaveOne member.now news.now }
{
    if member.applied() != 1 || news.base != 0 {
        return false;
    }
    match (member.entry(1), news.messages.as_slice().first()) {
        (Slot::Found { item }, Some(first)) => item.call == first.call && item.bytes == first.bytes,
        _ => false,
    }
}

// Whether the log continues what the member applied.
fn continues(member: &Member<Plain>, news: &News<Plain>) -> bool
    ensures { result ≡ true → member.now.installed < news.now.incarnation
        → (member.now.applied ≡ 0) ⊎ HaveOne member.now news.now }
{
    if news.incarnation <= member.installed() || member.applied() == 0 {
        return true;
    }
    have_one(member, news)
}

// Whether the log reaches what the member accepted.
fn reaches(member: &Member<Plain>, news: &News<Plain>) -> bool
    ensures { result ≡ true → member.now.installed < news.now.incarnation
        → member.now.accepted ≤ news.now.base + length news.now.messages }
{
    news.incarnation <= member.installed()
        || member.accepted() as u128 <= news.base as u128 + news.messages.len() as u128
}

// Whether these are members 1 and 2.
fn are_one_and_two(members: &[u8]) -> bool
    ensures { result ≡ true → members.now ≡ 1 ∷ 2 ∷ [] }
{
    matches!(members, [1, 2])
}

/// Whether the member is one of three and another than the coordinator, the Result is of members 1 and 2, and its log has what the
/// member applied, which is nothing or one entry.
pub fn can_hear(member: &Member<Plain>, news: &News<Plain>) -> bool
    requires { IsMember member.now }
    ensures { result ≡ true → CanHear member.now news.now }
{
    if member.config().nodes != 3 {
        return false;
    }
    if (news.incarnation % 3) as u8 == member.me() {
        return false;
    }
    if news.accepted as u128 > news.base as u128 + news.messages.len() as u128 {
        return false;
    }
    if news.messages.len() > WINDOW as usize {
        return false;
    }
    if !reaches(member, news) || !are_one_and_two(news.members.as_slice()) {
        return false;
    }
    continues(member, news)
}
