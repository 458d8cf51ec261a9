//! The names of a checked program.

ghost use Rattle.std.specs.Prelude.{◌≡◌, ◌++◌, ◌∷◌, [], IfOk, OnOk, codes, filter, if◌then◌else◌, map};
ghost use Rattle.orca_syntax.specs.Shown.{head as head_shown};
ghost use Rattle.link_rules.specs.Units.{source};
ghost use Rattle.meaning_rules.specs.Programs.{is_process as is_process_text, is_specification as is_specified};
ghost use Rattle.type_forms.specs.Seen.{top, what};
ghost use Rattle.accepted_law.specs.Limits.{IsWithinLimits};
ghost use Rattle.history_text.specs.Sound.{AreTables};
ghost use Rattle.program_names.specs.Naming.{AreNamesOf, CallsNamed, HistoriesNamed, head_names, name_text, operation_texts};

use crate::law::names_law;
use history_text::{Names, Operations};
use link_rules::{Role, linking_law};
use orca_base::{NoMemory, Text};
use orca_tree::Head;
use std::alloc::Global;
use type_decls::Checked;
use type_forms::{Top, What};

// Whether a name of the top level is a specification.
fn is_specification(item: &Top<'_>) -> bool
    ensures { result ≡ is_specified (top item.now) }
{
    matches!(item.role, Role::Specification)
}

// Whether a name of the top level is a process.
fn is_process(item: &Top<'_>) -> bool
    ensures { result ≡ is_process_text (what item.now.what) }
{
    matches!(item.what, What::Process { .. })
}

// Puts a name of the top level behind those of object types, where it is a specification.
fn add_kind(alloc: Global, kinds: &mut Vec<Text>, item: &Top<'_>) -> Result<(), NoMemory>
    ensures { OnOk result (kinds.new.items ≡
        kinds.old.items ++ map name_text (if is_specified (top item.now) then top item.now ∷ [] else [])) }
{
    if is_specification(item) {
        kinds.push(Text::from_str(alloc, item.name)?)?;
    }
    Ok(())
}

// The name of the output object's type, and those of the specifications.
fn kinds_of(alloc: Global, tops: &[Top<'_>]) -> Result<Vec<Text>, NoMemory>
    ensures { IfOk result (λ v. v.items ≡ codes "Output" ∷ map name_text (filter is_specified (map top tops.now))) }
{
    let mut kinds = Vec::new(alloc);
    kinds.push(Text::from_str(alloc, "Output")?)?;
    'tops: for item in tops {
        add_kind(alloc, &mut kinds, item)?;
    }
    Ok(kinds)
}

// The names of heads.
fn names_of(alloc: Global, heads: &[Head]) -> Result<Vec<Text>, NoMemory>
    ensures { IfOk result (λ v. v.items ≡ map (λ h. h.name.text) (map head_shown heads.now)) }
{
    let mut names = Vec::new(alloc);
    'heads: for head in heads {
        names.push(head.name.text.copy(alloc)?)?;
    }
    Ok(names)
}

// The names of the operations of a specification; of what is none, none.
fn operations_in(alloc: Global, item: &Top<'_>) -> Result<Operations, NoMemory>
    ensures { IfOk result (λ o. o.names.items ≡ operation_texts (top item.now)) }
{
    let names = match item.what {
        What::Specified { heads } => names_of(alloc, heads)?,
        _ => Vec::new(alloc),
    };
    Ok(Operations { names })
}

// Puts the names of operations behind those of other object types, where a name of the top level is a specification.
fn add_operations(alloc: Global, all: &mut Vec<Operations>, item: &Top<'_>) -> Result<(), NoMemory>
    ensures { OnOk result (map (λ o. o.names.items) all.new.items ≡
        map (λ o. o.names.items) all.old.items ++ map operation_texts (if is_specified (top item.now) then top item.now ∷ [] else [])) }
{
    if is_specification(item) {
        all.push(operations_in(alloc, item)?)?;
    }
    Ok(())
}

// The operation of the output object's type.
fn output_operations(alloc: Global) -> Result<Operations, NoMemory>
    ensures { IfOk result (λ o. o.names.items ≡ codes "WriteLine" ∷ []) }
{
    let mut names = Vec::new(alloc);
    names.push(Text::from_str(alloc, "WriteLine")?)?;
    Ok(Operations { names })
}

// The names of the operations of each object type.
fn operations_of(alloc: Global, tops: &[Top<'_>]) -> Result<Vec<Operations>, NoMemory>
    ensures { IfOk result (λ v. map (λ o. o.names.items) v.items ≡
        (codes "WriteLine" ∷ []) ∷ map operation_texts (filter is_specified (map top tops.now))) }
{
    let mut all = Vec::new(alloc);
    all.push(output_operations(alloc)?)?;
    'tops: for item in tops {
        add_operations(alloc, &mut all, item)?;
    }
    Ok(all)
}

// Puts a name of the top level behind those of texts, where it is a process.
fn add_text(alloc: Global, texts: &mut Vec<Text>, item: &Top<'_>) -> Result<(), NoMemory>
    ensures { OnOk result (texts.new.items ≡
        texts.old.items ++ map name_text (if is_process_text (what item.now.what) then top item.now ∷ [] else [])) }
{
    if is_process(item) {
        texts.push(Text::from_str(alloc, item.name)?)?;
    }
    Ok(())
}

// The names of processes.
fn texts_of(alloc: Global, tops: &[Top<'_>]) -> Result<Vec<Text>, NoMemory>
    ensures { IfOk result (λ v. v.items ≡ map name_text (filter (λ t. is_process_text t.what) (map top tops.now))) }
{
    let mut texts = Vec::new(alloc);
    'tops: for item in tops {
        add_text(alloc, &mut texts, item)?;
    }
    Ok(texts)
}

/// The names of a checked program, by the numbers by which its histories go. The only error is want of memory. The cost is linear in the
/// program's text.
pub fn names(alloc: Global, checked: &Checked<'_>) -> Result<Names, NoMemory>
    ensures are { IfOk result (λ names. AreNamesOf (map source checked.now.program.now.units.items) names) }

    // Where the program keeps within the limits, printers and readers of histories may be given them, and each line of each history of the
    // program has its names there, and so has each call that is a process's next action after one.
    ensures tables { IsWithinLimits (map source checked.now.program.now.units.items) → IfOk result AreTables }
    ensures histories { IsWithinLimits (map source checked.now.program.now.units.items) →
        IfOk result (HistoriesNamed (map source checked.now.program.now.units.items)) }
    ensures calls { IsWithinLimits (map source checked.now.program.now.units.items) →
        IfOk result (CallsNamed (map source checked.now.program.now.units.items)) }
{
    linking_law();
    names_law();
    let tops = checked.symbols.index.tops();
    Ok(Names {
        kinds: kinds_of(alloc, tops)?,
        operations: operations_of(alloc, tops)?,
        texts: texts_of(alloc, tops)?,
    })
}
