//! The names of the programs whose histories are read.

ghost use Rattle.std.specs.Prelude.{◌≡◌, ◌∷◌, [], IfOk};
ghost use Rattle.history_text.specs.Sound.{AreTables, IsTable};

use history_text::{Names, Operations};
use orca_base::{NoMemory, Text};
use std::alloc::Global;

// A table of one name.
fn one(alloc: Global, name: &str) -> Result<Vec<Text>, NoMemory>
    ensures { IfOk result (λ names. names.items ≡ name.now ∷ []) }
{
    let mut names = Vec::new(alloc);
    names.push(Text::from_str(alloc, name)?)?;
    Ok(names)
}

// A table of two names.
fn two(alloc: Global, first: &str, second: &str) -> Result<Vec<Text>, NoMemory>
    ensures { IfOk result (λ names. names.items ≡ first.now ∷ second.now ∷ []) }
{
    let mut names = one(alloc, first)?;
    names.push(Text::from_str(alloc, second)?)?;
    Ok(names)
}

/// The names of the generator's texts.
pub fn of_makers(alloc: Global) -> Result<Names, NoMemory>
    ensures { IfOk result (λ names. AreTables names) }
{
    let mut operations = Vec::new(alloc);
    operations.push(Operations {
        names: two(alloc, "Put", "put")?,
    })?;
    operations.push(Operations {
        names: two(alloc, "Take", "Put")?,
    })?;
    Ok(Names {
        kinds: two(alloc, "Cell", "Cell_2")?,
        operations,
        texts: two(alloc, "Main", "main7")?,
    })
}

/// The names of the program of one cell: Output with WriteLine, Cell with Assign and Value, and OrcaMain.
pub fn of_one_cell(alloc: Global) -> Result<Names, NoMemory>
    ensures { IfOk result (λ names. AreTables names) }
{
    let output = Operations {
        names: one(alloc, "WriteLine")?,
    };
    let cell = Operations {
        names: two(alloc, "Assign", "Value")?,
    };
    let mut operations = Vec::new(alloc);
    operations.push(output)?;
    operations.push(cell)?;
    Ok(Names {
        kinds: two(alloc, "Output", "Cell")?,
        operations,
        texts: one(alloc, "OrcaMain")?,
    })
}

// A table of four names.
fn four(
    alloc: Global,
    first: &str,
    second: &str,
    third: &str,
    last: &str,
) -> Result<Vec<Text>, NoMemory>
    ensures { IfOk result (λ names. names.items ≡ first.now ∷ second.now ∷ third.now ∷ last.now ∷ []) }
{
    let mut names = two(alloc, first, second)?;
    names.push(Text::from_str(alloc, third)?)?;
    names.push(Text::from_str(alloc, last)?)?;
    Ok(names)
}

// The names of object types.
fn kinds(alloc: Global) -> Result<Vec<Text>, NoMemory>
    ensures { IfOk result (λ names. IsTable names.items) }
{
    let names = four(alloc, "Output", "Pool", "Flag", "Broken")?;
    Ok(names)
}

// The names of a flag's operations.
fn of_flag(alloc: Global) -> Result<Vec<Text>, NoMemory>
    ensures { IfOk result (λ names. IsTable names.items) }
{
    let names = four(alloc, "Await", "Set", "Spoil", "Step")?;
    Ok(names)
}

// The names of process texts.
fn process_texts(alloc: Global) -> Result<Vec<Text>, NoMemory>
    ensures { IfOk result (λ names. IsTable names.items) }
{
    let names = four(alloc, "First", "Second", "Third", "Fourth")?;
    Ok(names)
}

// The names of operations of types with two.
fn of_others(alloc: Global, first: &str, second: &str) -> Result<Operations, NoMemory>
    requires { IsTable (first.now ∷ second.now ∷ []) }
    ensures { IfOk result (λ operations. IsTable operations.names.items) }
{
    let names = two(alloc, first, second)?;
    Ok(Operations { names })
}

/// The names of the program of pools and flags whose processes are scripts.
pub fn of_scripts(alloc: Global) -> Result<Names, NoMemory>
    ensures { IfOk result (λ names. AreTables names) }
{
    let output = of_others(alloc, "WriteLine", "Flush")?;
    let pool = of_others(alloc, "Put", "Take")?;
    let flag = Operations {
        names: of_flag(alloc)?,
    };
    let kinds = kinds(alloc)?;
    let texts = process_texts(alloc)?;
    let mut operations = Vec::new(alloc);
    operations.push(output)?;
    operations.push(pool)?;
    operations.push(flag)?;
    Ok(Names {
        kinds,
        operations,
        texts,
    })
}
