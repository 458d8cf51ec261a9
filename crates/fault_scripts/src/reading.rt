//! Reading scripts.

ghost use Rattle.std.specs.Prelude.{◌≡◌, ◌≤◌, ◌<◌, ◌-◌, ◌^◌, ◌+◌, ◌++◌, [], Err, IfOk, List, OnOk, false, length, map};
ghost use Rattle.std.specs.List.{cons_option};
ghost use Rattle.std.specs.Str.{is_utf8};
ghost use Rattle.orca_base.specs.Refusal.{IfBecause, MatchRefusal};
ghost use Rattle.net_rules.specs.declared.line.ScriptLine.{ScriptLine as Said};
ghost use Rattle.fault_scripts.specs.declared.error.ScriptError.{ScriptError as Fault};
ghost use Rattle.fault_scripts.specs.declared.error.ScriptError.TheVariants.{BadNumber, UnknownWord};
ghost use Rattle.fault_scripts.specs.Reading.{Answers, Gives, behind_verb, count_at, fate_line, line_at, lines_at, member_at, next, over, packets_at, said_at, script_at, seeded_by, seed_line, sized_at, swap_line};
ghost use Rattle.fault_scripts.specs.Says.{IsScript, is_seed, speaks};
ghost use Rattle.fault_scripts.specs.Script.{IsRefusal};
ghost use Rattle.fault_scripts.specs.Words.{kinds_of, lines_of, number_in, packet_number, verb_of, which_of, words_of};

use crate::error::ScriptError;
use crate::numbers::{GREATEST, GREATEST_MEMBER, GREATEST_SEED, number_within, which};
use crate::script::Script;
use crate::words::{Verb, kinds, known_verb, next_word};
use net_rules::{Fate, Kinds, ScriptLine, Which, WireAct};
use orca_base::{NoMemory, Refusal, refuse};
use std::alloc::{AllocError, Global};

// Something and the words of the line behind it, or why it is none.
type Read<'a, T> = Result<(T, &'a [u8]), ScriptError>;

// A verb.
#[tactic(auto, unfolding(crate::specs::Reading::next))]
fn verb_at(line: u32, rest: &[u8]) -> Read<'_, Verb>
    ensures { Gives (λ x. (x.0, words_of x.1.now)) result (next verb_of (UnknownWord line) (words_of rest.now)) }
{
    let Some((word, behind)) = next_word(rest) else {
        return Err(ScriptError::UnknownWord { line });
    };
    match known_verb(word) {
        Some(found) => Ok((found, behind)),
        None => Err(ScriptError::UnknownWord { line }),
    }
}

// Kinds of packets.
#[tactic(auto, unfolding(crate::specs::Reading::next))]
fn kinds_at(line: u32, rest: &[u8]) -> Read<'_, Kinds>
    ensures { Gives (λ x. (x.0, words_of x.1.now)) result (next kinds_of (UnknownWord line) (words_of rest.now)) }
{
    let Some((word, behind)) = next_word(rest) else {
        return Err(ScriptError::UnknownWord { line });
    };
    match kinds(word) {
        Some(found) => Ok((found, behind)),
        None => Err(ScriptError::UnknownWord { line }),
    }
}

// Which packets.
#[tactic(auto, unfolding(crate::specs::Reading::next))]
fn which_at(line: u32, rest: &[u8]) -> Read<'_, Which>
    ensures { Gives (λ x. (x.0, words_of x.1.now)) result (next which_of (BadNumber line) (words_of rest.now)) }
{
    let Some((word, behind)) = next_word(rest) else {
        return Err(ScriptError::BadNumber { line });
    };
    match which(word) {
        Some(found) => Ok((found, behind)),
        None => Err(ScriptError::BadNumber { line }),
    }
}

// A number in a range.
#[tactic(auto, unfolding(crate::specs::Reading::next))]
fn number_at(line: u32, rest: &[u8], least: u64, most: u64) -> Read<'_, u64>
    ensures is { Gives (λ x. (x.0, words_of x.1.now)) result (next (number_in least most) (BadNumber line) (words_of rest.now)) }
    ensures range { IfOk result (λ x. x.0 ≤ most) }
{
    let Some((word, behind)) = next_word(rest) else {
        return Err(ScriptError::BadNumber { line });
    };
    match number_within(word, least, most) {
        Some(number) => Ok((number, behind)),
        None => Err(ScriptError::BadNumber { line }),
    }
}

// That no word is left.
#[tactic(auto, unfolding(crate::specs::Reading::over))]
fn end(line: u32, rest: &[u8]) -> Result<(), ScriptError>
    ensures { Gives (λ x. x) result (over line (words_of rest.now)) }
{
    match next_word(rest) {
        None => Ok(()),
        Some(_) => Err(ScriptError::UnknownWord { line }),
    }
}

// Kinds, and which packets of these.
#[tactic(auto, unfolding(crate::specs::Reading::packets_at))]
fn packets_of(line: u32, rest: &[u8]) -> Read<'_, (Kinds, Which)>
    ensures { Gives (λ x. (x.0, words_of x.1.now)) result (packets_at line (words_of rest.now)) }
{
    let (kinds, rest) = kinds_at(line, rest)?;
    let (which, rest) = which_at(line, rest)?;
    Ok(((kinds, which), rest))
}

// Kinds, and how many packets of these.
#[tactic(auto, unfolding(crate::specs::Reading::count_at))]
fn count_of(line: u32, rest: &[u8]) -> Read<'_, (Kinds, u64)>
    ensures { Gives (λ x. (x.0, words_of x.1.now)) result (count_at line (words_of rest.now)) }
{
    let (kinds, rest) = kinds_at(line, rest)?;
    let (number, rest) = number_at(line, rest, 1, GREATEST)?;
    Ok(((kinds, number), rest))
}

// What stands behind `drop` and `twice`.
#[tactic(auto, unfolding(crate::specs::Reading::fate_line))]
fn fate_of(line: u32, fate: Fate, rest: &[u8]) -> Result<ScriptLine, ScriptError>
    ensures { Gives (λ x. x) result (fate_line line fate (words_of rest.now)) }
{
    let ((kinds, which), rest) = packets_of(line, rest)?;
    end(line, rest)?;
    Ok(ScriptLine::Fate { kinds, which, fate })
}

// What stands behind `hold` and `cut`: which packets, and a number.
#[tactic(auto, unfolding(crate::specs::Reading::sized_at))]
fn sized_of(line: u32, rest: &[u8]) -> Result<(Kinds, Which, u32), ScriptError>
    ensures { Gives (λ x. x) result (sized_at line (words_of rest.now)) }
{
    let ((kinds, which), rest) = packets_of(line, rest)?;
    let (size, rest) = number_at(line, rest, 0, u64::from(u32::MAX))?;
    end(line, rest)?;
    Ok((kinds, which, size as u32))
}

// What stands behind `crash` and `suspect`: a member, and how many packets.
#[tactic(auto, unfolding(crate::specs::Reading::member_at))]
fn member_of(line: u32, rest: &[u8]) -> Result<(u8, Kinds, u64), ScriptError>
    ensures { Gives (λ x. x) result (member_at line (words_of rest.now)) }
{
    let (node, rest) = number_at(line, rest, 0, GREATEST_MEMBER)?;
    let ((kinds, number), rest) = count_of(line, rest)?;
    end(line, rest)?;
    Ok((node as u8, kinds, number))
}

// What stands behind `swap`.
#[tactic(auto, unfolding(crate::specs::Reading::swap_line))]
fn swap_of(line: u32, rest: &[u8]) -> Result<ScriptLine, ScriptError>
    ensures { Gives (λ x. x) result (swap_line line (words_of rest.now)) }
{
    let ((kinds, number), rest) = count_of(line, rest)?;
    end(line, rest)?;
    let act = WireAct::Swap;
    Ok(ScriptLine::Act { kinds, number, act })
}

// What stands behind `seed`.
#[tactic(auto, unfolding(crate::specs::Reading::seed_line))]
fn seed_of(line: u32, rest: &[u8]) -> Result<ScriptLine, ScriptError>
    ensures { Gives (λ x. x) result (seed_line line (words_of rest.now)) }
{
    let (seed, rest) = number_at(line, rest, 0, GREATEST_SEED)?;
    let (percent, rest) = number_at(line, rest, 0, 100)?;
    end(line, rest)?;
    let percent = percent as u8;
    Ok(ScriptLine::Seed { seed, percent })
}

// What stands behind a verb. Where a line of random words stands already, `seed` begins no line.
fn behind(seeded: bool, line: u32, verb: Verb, rest: &[u8]) -> Result<ScriptLine, ScriptError>
    ensures { Gives (λ x. x) result (behind_verb seeded line verb (words_of rest.now)) }
{
    match verb {
        Verb::Drop => fate_of(line, Fate::Drop, rest),
        Verb::Twice => fate_of(line, Fate::Twice, rest),
        Verb::Hold => {
            let (kinds, which, ticks) = sized_of(line, rest)?;
            let fate = Fate::Hold { ticks };
            Ok(ScriptLine::Fate { kinds, which, fate })
        }
        Verb::Cut => {
            let (kinds, which, length) = sized_of(line, rest)?;
            let fate = Fate::Cut { length };
            Ok(ScriptLine::Fate { kinds, which, fate })
        }
        Verb::Crash => {
            let (node, kinds, number) = member_of(line, rest)?;
            let act = WireAct::Crash { node };
            Ok(ScriptLine::Act { kinds, number, act })
        }
        Verb::Suspect => {
            let (node, kinds, number) = member_of(line, rest)?;
            let act = WireAct::Suspect { node };
            Ok(ScriptLine::Act { kinds, number, act })
        }
        Verb::Swap => swap_of(line, rest),
        Verb::Seed if seeded => Err(ScriptError::UnknownWord { line }),
        Verb::Seed => seed_of(line, rest),
    }
}

// What a line's words say.
#[tactic(auto, unfolding(crate::specs::Reading::said_at))]
fn said_of(seeded: bool, line: u32, words: &[u8]) -> Result<ScriptLine, ScriptError>
    ensures { Gives (λ x. x) result (said_at seeded line (words_of words.now)) }
{
    let (verb, rest) = verb_at(line, words)?;
    behind(seeded, line, verb, rest)
}

// Whether a line says something: it isn't empty, and doesn't begin with `#`.
fn is_spoken(line: &[u8]) -> bool
    ensures { result ≡ speaks line.now }
{
    match line {
        [] => false,
        [first, ..] => *first != b'#',
    }
}

// Whether a line is UTF-8.
fn is_text(line: &[u8]) -> bool
    ensures { result ≡ is_utf8 line.now }
{
    match str::from_utf8(line) {
        Ok(_) => true,
        Err(_) => false,
    }
}

// What a line says, if anything.
#[tactic(auto, unfolding(crate::specs::Reading::line_at))]
fn line_of(
    seeded: bool,
    number: u32,
    line: &[u8],
) -> Result<Option<ScriptLine>, Refusal<ScriptError>>
    ensures { Answers (λ x. x) result (line_at seeded number line.now) }
{
    if !is_text(line) {
        return refuse(ScriptError::UnknownWord { line: number });
    }
    if !is_spoken(line) {
        return Ok(None);
    }
    match said_of(seeded, number, line) {
        Ok(said) => Ok(Some(said)),
        Err(cause) => refuse(cause),
    }
}

// Whether it is a line of random words.
fn is_random(line: &ScriptLine) -> bool
    ensures { result ≡ is_seed line.now }
{
    matches!(line, ScriptLine::Seed { .. })
}

// Puts what a line says behind what those before it say, and gives whether a line of random words stands by then.
fn note(said: &mut Vec<ScriptLine>, seeded: bool, one: Option<ScriptLine>) -> Result<bool, NoMemory>
    ensures said { OnOk result (said.new.items ≡ said.old.items ++ cons_option one []) }
    ensures seeded { IfOk result (λ now. now ≡ seeded_by seeded one) }
{
    let Some(line) = one else {
        return Ok(seeded);
    };
    said.push(line)?;
    Ok(seeded || is_random(&line))
}

// What lines say.
fn lines_said(alloc: Global, lines: &[&[u8]]) -> Result<Vec<ScriptLine>, Refusal<ScriptError>>
    requires { length lines.now < 2 ^ 32 }
    ensures { Answers (λ v. v.items) result (lines_at false 1 (map (λ line. line.now) lines.now)) }
{
    let mut said = Vec::new(alloc);
    let mut seeded = false;
    'lines: for (index, line) in lines.iter().enumerate() {
        let one = line_of(seeded, index as u32 + 1, line)?;
        seeded = note(&mut said, seeded, one)?;
    }
    Ok(said)
}

// The lines of a text, lent.
fn lines(alloc: Global, text: &[u8]) -> Result<Vec<&[u8]>, AllocError>
    ensures { IfOk result (λ v. map (λ line. line.now) v.items ≡ lines_of text.now) }
{
    text.split(|byte| *byte == b'\n').collect(alloc)
}

// What a text says.
#[tactic(auto, unfolding(crate::specs::Reading::script_at))]
fn text_said(alloc: Global, text: &[u8]) -> Result<Vec<ScriptLine>, Refusal<ScriptError>>
    requires { length text.now < 2 ^ 32 - 1 }
    ensures { Answers (λ v. v.items) result (script_at text.now) }
{
    let lines = lines(alloc, text)?;
    lines_said(alloc, &lines)
}

/// The script that a text is (docs/RUNTIME.md, Fault scripts), or the first line that is wrong. There are fewer than 2^32 - 1 bytes, so
/// that each line has a number.
pub fn read_script(alloc: Global, text: &[u8]) -> Result<Script, Refusal<ScriptError>>
    requires { length text.now < 2 ^ 32 - 1 }
    // The text says this.
    ensures found { IfOk result (λ script. IsScript text.now script) }
    // A text that says something is read so.
    ensures only { (said : List Said) → IsScript text.now said → MatchRefusal result (λ script. script ≡ said) (λ _. ⊥) }
    // What is refused has no lines that it says; this is the first that is wrong, and no other is.
    ensures none { IfBecause result (λ _. (said : List Said) → IsScript text.now said → ⊥) }
    ensures refused { IfBecause result (IsRefusal text.now) }
    ensures first { IfBecause result (λ error. (other : Fault) → IsRefusal text.now other → other ≡ error) }
    // The same in one equation.
    ensures exact { Answers (λ script. script) result (script_at text.now) }
{
    let lines = text_said(alloc, text)?;
    Ok(Script::from_lines(lines))
}
