//! Texts of processes.

ghost use Rattle.std.specs.Prelude.{◌≡◌, ◌++◌, ◌∷◌, [], List, IfOk, OnOk, if◌then◌else◌};
ghost use Rattle.link_rules.specs.Units.{Source};
ghost use Rattle.type_rules.specs.TopLevel.{TopName};
ghost use Rattle.meaning_rules.specs.Programs.{is_process as is_process_text, process_texts};
ghost use Rattle.type_forms.specs.Indexed.{Indexes};
ghost use Rattle.type_forms.specs.Seen.{top, what};
ghost use Rattle.program_tables.specs.Listed.{Lists};

use crate::places::Places;
use orca_base::NoMemory;
use std::alloc::Global;
use std::collections::BTreeMap;
use type_forms::{Index, Top, What};
use type_tables::note;

/// The processes of a program in their order, and their places by name.
#[derive(Drop)]
pub struct Texts<'p> {
    pub processes: Vec<Top<'p>>,
    pub places: Places<'p>,
}

// Whether a name of the top level is a process.
fn is_process(item: &Top<'_>) -> bool
    ensures { result ≡ is_process_text (what item.now.what) }
{
    matches!(item.what, What::Process { .. })
}

// Puts a name of the top level behind the others, where it is a process.
fn add<'p>(texts: &mut Texts<'p>, item: &Top<'p>) -> Result<(), NoMemory>
    ensures { (ts : List TopName) → Lists ts texts.old → OnOk result
        (Lists (ts ++ (if is_process_text (what item.now.what) then top item.now ∷ [] else [])) texts.new) }
{
    if is_process(item) {
        note(&mut texts.places, item.name, texts.processes.len())?;
        texts.processes.push(*item)?;
    }
    Ok(())
}

/// The texts of a program's processes.
pub fn texts_of<'p>(alloc: Global, index: &Index<'p>) -> Result<Texts<'p>, NoMemory>
    ensures { (us : List Source) → Indexes index.now us → IfOk result (λ t. Lists (process_texts us) t) }
{
    let mut texts = Texts {
        processes: Vec::new(alloc),
        places: BTreeMap::new(alloc),
    };
    let tops = index.tops();
    'tops: for item in tops {
        add(&mut texts, item)?;
    }
    Ok(texts)
}
