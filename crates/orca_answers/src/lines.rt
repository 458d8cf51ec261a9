//! The lines that the program says where it runs nothing, and texts that it says as they are.

ghost use Rattle.std.specs.Prelude.{◌≡◌, IfOk};
ghost use Rattle.orca_answers.specs.Lines as lines;

use fault_scripts::ScriptError;
use orca_base::NoMemory;
use std::alloc::Global;

/// The bytes of a text.
pub fn whole(alloc: Global, text: &str) -> Result<Vec<u8>, NoMemory>
    ensures { IfOk result (λ v. v.items ≡ text.now) }
{
    Ok(Vec::from_slice(alloc, text.as_bytes())?)
}

/// The usage line.
pub fn usage_line(alloc: Global) -> Result<Vec<u8>, NoMemory>
    ensures { IfOk result (λ line. line.items ≡ lines.usage_line) }
{
    let line = format!(in alloc;
        "usage: orca check FILE... | run [OPTIONS] FILE... | code FILE... | choice [--nodes N] FILE... | replay HISTORY FILE... | make [OPTIONS] NUMBER\n"
    )?;
    Ok(line.into_bytes())
}

/// The program in the files is accepted.
pub fn ok_line(alloc: Global) -> Result<Vec<u8>, NoMemory>
    ensures { IfOk result (λ line. line.items ≡ lines.ok_line) }
{
    Ok(Vec::from_slice(alloc, b"ok\n")?)
}

/// The line of a script is none.
pub fn script_line(alloc: Global, error: ScriptError) -> Result<Vec<u8>, NoMemory>
    ensures { IfOk result (λ line. line.items ≡ lines.script_line error) }
{
    match error {
        ScriptError::UnknownWord { line } => script_said(alloc, line, "unknown word"),
        ScriptError::BadNumber { line } => script_said(alloc, line, "bad number"),
    }
}

// What is said of the line of a script.
fn script_said(alloc: Global, line: u32, said: &str) -> Result<Vec<u8>, NoMemory>
    ensures { IfOk result (λ bytes. bytes.items ≡ lines.script_said line said.now) }
{
    let text = format!(in alloc; "orca: script line {line}: {said}\n")?;
    Ok(text.into_bytes())
}
