//! From sources to a program.

ghost use Rattle.std.specs.Prelude.{◌≡◌, List, map, Err, IfOk};
ghost use Rattle.orca_base.specs.declared.refusal.Refusal.TheVariants.{Because};
ghost use Rattle.orca_base.specs.Refusal.{IfBecause};
ghost use Rattle.orca_io.specs.Files.{File};
ghost use Rattle.link_rules.specs.Units.{source};
ghost use Rattle.orca_front.specs.Sources.{AreUnits, IsAccepted, IsFault, IsLinkFault, IsUnit, Reaches, file_of};
ghost use Rattle.orca_front.specs.Texts.{FitsText};

use crate::fault::FrontFault;
use crate::reading::{TextFault, unit_of};
use crate::source::SourceFile;
use link_rules::NamedUnit;
use orca_base::{Refusal, Text, refuse};
use orca_modules::{Program, link};
use std::alloc::Global;
use type_decls::{Checked, check};

// Why a source is no unit, where all before it are.
fn unread(
    alloc: Global,
    file: &SourceFile<'_>,
    fault: TextFault,
) -> Result<NamedUnit, Refusal<FrontFault>>
    requires { FitsText file.now.text.items (Err (Because fault)) }
    ensures never { IfOk result (λ _. ⊥) }
    ensures refused { (sources : List File) → Reaches sources (file_of file.now) → IfBecause result (IsLinkFault sources) }
{
    match fault {
        TextFault::TooNested => refuse(FrontFault::TooNested),
        TextFault::Faulty { at, said } => {
            let file = Text::from_str(alloc, file.name)?;
            refuse(FrontFault::Faulty { file, at, said })
        }
    }
}

// The unit that a source is, or why it is none, where all before it are units.
fn read(alloc: Global, file: &SourceFile<'_>) -> Result<NamedUnit, Refusal<FrontFault>>
    ensures unit { IfOk result (λ u. IsUnit (file_of file.now) (source u)) }
    ensures refused { (sources : List File) → Reaches sources (file_of file.now) → IfBecause result (IsLinkFault sources) }
{
    match unit_of(alloc, &file.text) {
        Ok(unit) => {
            let name = Text::from_str(alloc, file.name)?;
            Ok(NamedUnit { file: name, unit })
        }
        Err(Refusal::Because { cause }) => unread(alloc, file, cause),
        Err(Refusal::NoMemory) => Err(Refusal::NoMemory),
    }
}

// The units that sources are, or why the first that is none isn't.
fn units(alloc: Global, files: &[SourceFile<'_>]) -> Result<Vec<NamedUnit>, Refusal<FrontFault>>
    ensures units { IfOk result (λ us. AreUnits (map file_of files.now) (map source us.items)) }
    ensures refused { IfBecause result (IsLinkFault (map file_of files.now)) }
{
    let mut units = Vec::new(alloc);
    'files: for file in files {
        match read(alloc, file) {
            Ok(unit) => units.push(unit)?,
            Err(refusal) => return Err(refusal),
        }
    }
    Ok(units)
}

/// The program that these sources are, or why they are none: the first text that is no unit, or, where all are, the first breach of
/// the lowest rule of linking (docs/FORMATS.md, Statuses).
pub fn linked(alloc: Global, files: &[SourceFile<'_>]) -> Result<Program, Refusal<FrontFault>>
    ensures program { IfOk result (λ p. AreUnits (map file_of files.now) (map source p.units.items)) }
    ensures refused { IfBecause result (IsLinkFault (map file_of files.now)) }
{
    let units = units(alloc, files)?;
    match link(alloc, units) {
        Ok(program) => Ok(program),
        Err(Refusal::Because { cause }) => refuse(FrontFault::Unlinked { error: cause }),
        Err(Refusal::NoMemory) => Err(Refusal::NoMemory),
    }
}

/// The program beside the tables of its declarations, exactly where it breaks no rule of typing, or its first breach (docs/LANGUAGE.md,
/// Typing).
pub fn accepted<'p>(alloc: Global, program: &'p Program) -> Result<Checked<'p>, Refusal<FrontFault>>
    ensures program { IfOk result (λ c. c.program.now ≡ program.now) }
    ensures accepted { (sources : List File) → AreUnits sources (map source program.now.units.items) →
        IfOk result (λ _. IsAccepted sources (map source program.now.units.items)) }
    ensures refused { (sources : List File) → AreUnits sources (map source program.now.units.items) → IfBecause result (IsFault sources) }
{
    match check(alloc, program) {
        Ok(checked) => Ok(checked),
        Err(Refusal::Because { cause }) => refuse(FrontFault::Mistyped { error: cause }),
        Err(Refusal::NoMemory) => Err(Refusal::NoMemory),
    }
}
