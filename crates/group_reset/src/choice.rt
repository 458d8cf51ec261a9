//! What a coordinator reads of the answers that it keeps.

ghost use Rattle.std.specs.Prelude.{◌≡◌, IfOk, Some, map};
ghost use Rattle.group_member.specs.StandsFor.{join_of};
ghost use Rattle.group_rules.specs.OnWire.{members_below};
ghost use Rattle.group_rules.specs.Reset.{better_of, greater_of};
ghost use Rattle.group_rules.specs.Sets.{count};
ghost use Rattle.group_reset.specs.Choice.{accepted_in, applied_with, beats_by, best_by, extent_of, gave_by, most_by};

use group_packets::Join;
use orca_base::{Body, NoMemory};
use std::alloc::Global;

// What is chosen among the answers: the greatest accepted number, and the answer whose log is kept.
#[derive(Drop)]
pub(crate) struct Choice<B: Body> {
    pub(crate) most: u64,
    pub(crate) kept: Option<Join<B>>,
}

// Whether there is an answer of this member.
fn has_answer<B: Body>(answers: &[(u8, Join<B>)], from: u8) -> bool
    ensures { result ≡ gave_by answers.now from }
{
    'answers: for answer in answers {
        if answer.0 == from {
            return true;
        }
    }
    false
}

// An equal answer to that of this member, where there is one.
fn answer_of<B: Body>(
    alloc: Global,
    answers: &[(u8, Join<B>)],
    from: u8,
) -> Result<Option<Join<B>>, NoMemory>
    ensures { IfOk result (λ answer. answer ≡ join_of from answers.now) }
{
    'answers: for answer in answers {
        if answer.0 == from {
            return Ok(Some(answer.1.copy(alloc)?));
        }
    }
    Ok(None)
}

// How many of so many members answered.
pub(crate) fn count_answers<B: Body>(answers: &[(u8, Join<B>)], nodes: u8) -> u8
    ensures { result ≡ count nodes (gave_by answers.now) }
{
    let mut have: u8 = 0;
    'members: for member in 0..nodes {
        if has_answer(answers, member) {
            have += 1;
        }
    }
    have
}

// Who of so many members answered, rising.
pub(crate) fn members_of<B: Body>(
    alloc: Global,
    answers: &[(u8, Join<B>)],
    nodes: u8,
) -> Result<Vec<u8>, NoMemory>
    ensures { IfOk result (λ members. members.items ≡ members_below nodes (gave_by answers.now)) }
{
    let mut members = Vec::new(alloc);
    'members: for member in 0..nodes {
        if has_answer(answers, member) {
            members.push(member)?;
        }
    }
    Ok(members)
}

// The applied numbers that were reported, with their members.
pub(crate) fn heard_of<B: Body>(
    alloc: Global,
    answers: &[(u8, Join<B>)],
) -> Result<Vec<(u8, u64)>, NoMemory>
    ensures { IfOk result (λ heard. heard.items ≡ map applied_with answers.now) }
{
    let mut heard = Vec::new(alloc);
    'answers: for answer in answers {
        heard.push((answer.0, answer.1.applied))?;
    }
    Ok(heard)
}

// The choice among the answers of so many members: `own` is an accepted number beside theirs.
pub(crate) fn choose<B: Body>(
    alloc: Global,
    answers: &[(u8, Join<B>)],
    nodes: u8,
    own: u64,
) -> Result<Choice<B>, NoMemory>
    ensures most { IfOk result (λ choice. choice.most ≡ most_by nodes answers.now own) }
    ensures kept { IfOk result (λ choice. choice.kept ≡ best_by nodes answers.now) }
{
    let mut most = own;
    let mut kept = None;
    'members: for member in 0..nodes {
        let answer = answer_of(alloc, answers, member)?;
        most = greater(most, &answer);
        kept = better(kept, answer);
    }
    Ok(Choice { most, kept })
}

// The greater of a number and the accepted one of an answer.
fn greater<B: Body>(most: u64, answer: &Option<Join<B>>) -> u64
    ensures { result ≡ greater_of accepted_in answer.now most }
{
    match answer {
        Some(join) => join.accepted.max(most),
        None => most,
    }
}

// The better of two answers, where there are any: the first of equal ones.
fn better<B: Body>(kept: Option<Join<B>>, answer: Option<Join<B>>) -> Option<Join<B>>
    ensures { result ≡ better_of beats_by kept answer }
{
    match kept {
        None => answer,
        Some(first) => Some(better_than(first, answer)),
    }
}

// The same, where the first is there.
fn better_than<B: Body>(first: Join<B>, answer: Option<Join<B>>) -> Join<B>
    ensures { Some result ≡ better_of beats_by (Some first) answer }
{
    match answer {
        None => first,
        Some(second) => {
            if beats(&second, &first) {
                return second;
            }
            first
        },
    }
}

// Whether an answer's log is of a later incarnation than another's, or of the same with more entries.
fn beats<B: Body>(second: &Join<B>, first: &Join<B>) -> bool
    ensures { result ≡ beats_by second.now first.now }
{
    first.installed < second.installed
        || (second.installed == first.installed && extent(first) < extent(second))
}

// How many entries an answer's log has.
fn extent<B: Body>(join: &Join<B>) -> u128
    ensures { result ≡ extent_of join.now }
{
    join.base as u128 + join.messages.len() as u128
}
