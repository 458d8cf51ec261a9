//! That an ending without a run excludes the others, and a run, which is one.

ghost use Rattle.std.specs.Prelude.{◌≡◌, ℕ, List, Option, Some};
ghost use Rattle.net_rules.specs.declared.line.ScriptLine.{ScriptLine};
ghost use Rattle.orca_io.specs.Files.{File};
ghost use Rattle.orca_io.specs.Reading.{FileRead};
ghost use Rattle.orca_io.specs.declared.shelf.ShelfFault.TheVariants.{Failed};
ghost use Rattle.command_files.specs.Stopped.{Never, StoppedAt};
ghost use Rattle.link_rules.specs.Units.{Source};
ghost use Rattle.replica_choice.specs.declared.policy.Asked.{Asked};
ghost use Rattle.command_files.specs.Sources.{Word};
ghost use Rattle.orca_answers.specs.Choosing.{Chooser, told_all};
ghost use Rattle.orca_answers.specs.Endings.{IsEnding};
ghost use Rattle.orca_answers.specs.Named.{IsNamed};
ghost use Rattle.orca_answers.specs.Job.{chooses, deed_in};
ghost use Rattle.orca_answers.specs.Listings.{IsSameText};
ghost use Rattle.orca_answers.specs.Made.{IsMade};
ghost use Rattle.orca_answers.specs.Programs.{IsProgram, IsProgramSince};

use program_names::names_law;

/// The law of endings, where files are told and no read failed, and of the run that words name; it does nothing.
///
/// - `once`: words have one ending without a run at most, by a policy, by its status, by its line, but for the notes of a listing
///   (docs/FORMATS.md, Statuses), and by what the policy is asked for it.
/// - `apart`: they have none where they name a run, of a program that is accepted and with a script.
/// - `chosen`: where they ask for the choices of an accepted program, the policy was asked about each of its sites.
/// - `named`: they name one run at most, by its program and its script.
/// - `read`: so they do by what was read, whether files are told or not.
/// - `program`: by the texts that were read the program is one.
/// - `quiet`: where no file's read failed, an ending is one without a fault.
/// - `made`: they name one run of a program that is made of a number at most, by its program and its script.
/// - `alone`: where they name one they have no ending, and name no run of files.
pub fn endings_law()
    ensures once { (policy : Chooser) (words : List Word) (files : List File) (old new was now : List FileRead) (one two : ℕ)
        (a b : List ℕ) (asked other : List Asked) → IsEnding policy words (Some files) old new Never one a asked →
        IsEnding policy words (Some files) was now Never two b other → (one ≡ two) × IsSameText words a b × (asked ≡ other) }
    ensures apart { (policy : Chooser) (words : List Word) (files : List File) (was now old new : List FileRead) (units : List Source)
        (lines : List ScriptLine) (one : ℕ) (a : List ℕ) (asked : List Asked) →
        IsEnding policy words (Some files) was now Never one a asked → IsNamed words (Some files) old new units lines → ⊥ }
    ensures chosen { (policy : Chooser) (words : List Word) (files : List File) (old new : List FileRead) (nodes : ℕ)
        (names : List Word) (units : List Source) (one : ℕ) (a : List ℕ) (asked : List Asked) →
        deed_in words ≡ Some (chooses nodes names) → IsProgram (Some files) names units →
        IsEnding policy words (Some files) old new Never one a asked → asked ≡ told_all policy nodes units }
    ensures named { (words : List Word) (files : List File) (old new was now : List FileRead) (units others : List Source)
        (lines more : List ScriptLine) → IsNamed words (Some files) old new units lines → IsNamed words (Some files) was now others more →
        (units ≡ others) × (lines ≡ more) }
    ensures read { (words : List Word) (told other : Option (List File)) (old new : List FileRead) (units others : List Source)
        (lines more : List ScriptLine) → IsNamed words told old new units lines → IsNamed words other old new others more →
        (units ≡ others) × (lines ≡ more) }
    ensures program { (told other : Option (List File)) (old new : List FileRead) (names : List Word) (units others : List Source) →
        IsProgramSince told old new names units → IsProgramSince other old new names others → units ≡ others }
    ensures quiet { (policy : Chooser) (words : List Word) (told : Option (List File)) (before now : ℕ) (old new : List FileRead)
        (one : ℕ) (a : List ℕ) (asked : List Asked) → ((file : Word) → StoppedAt before now old new Failed file → ⊥) →
        IsEnding policy words told old new (StoppedAt before now old new) one a asked →
        IsEnding policy words told old new Never one a asked }
    ensures made { (words : List Word) (old new was now : List FileRead) (units others : List Source) (lines more : List ScriptLine) →
        IsMade words old new units lines → IsMade words was now others more → (units ≡ others) × (lines ≡ more) }
    ensures alone { (policy : Chooser) (words : List Word) (told other : Option (List File)) (before after : ℕ)
        (old new was now : List FileRead) (units others : List Source) (lines more : List ScriptLine) (one : ℕ) (a : List ℕ)
        (asked : List Asked) → IsMade words old new units lines →
        (IsEnding policy words told was now (StoppedAt before after was now) one a asked → ⊥)
        × (IsNamed words other was now others more → ⊥) }
{
    names_law();
}
