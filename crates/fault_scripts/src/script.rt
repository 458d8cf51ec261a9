//! Scripts.

ghost use Rattle.std.specs.Prelude.{◌≡◌, [], IfOk};

use net_rules::ScriptLine;
use orca_base::NoMemory;
use std::alloc::Global;
use std::marker::Model;

/// What a wire is to do, line by line; clauses see it as the list of its lines. Lines that say nothing aren't kept.
#[derive(Debug, Drop)]
pub struct Script {
    lines: Vec<ScriptLine>,
}

impl Model for Script {
    ghost use Rattle.std.specs.Prelude.{List};
    ghost use Rattle.net_rules.specs.declared.line.ScriptLine.{ScriptLine};

    ghost Value = { List ScriptLine };

    ghost view = { λ s. s.lines.items };
}

impl Script {
    /// The empty script, by which every packet passes.
    pub fn empty(alloc: Global) -> Script
        ensures { result ≡ [] }
    {
        Script {
            lines: Vec::new(alloc),
        }
    }

    /// The script of these lines.
    pub fn from_lines(lines: Vec<ScriptLine>) -> Script
        ensures { result ≡ lines.items }
    {
        Script { lines }
    }

    /// Its lines, lent.
    pub fn lines(&self) -> &[ScriptLine]
        ensures { result.now ≡ self.now }
    {
        self.lines.as_slice()
    }

    /// Its lines, given away.
    pub fn into_lines(self) -> Vec<ScriptLine>
        ensures { result.items ≡ self }
    {
        self.lines
    }

    /// An equal script.
    pub fn copy(&self, alloc: Global) -> Result<Script, NoMemory>
        ensures { IfOk result (λ copied. copied ≡ self.now) }
    {
        Ok(Script {
            lines: Vec::from_slice(alloc, &self.lines)?,
        })
    }
}
