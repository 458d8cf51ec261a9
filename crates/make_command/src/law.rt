//! That the text of the losses is their script; and rows.

ghost use Rattle.std.specs.Prelude.{◌≡◌, ◌≤◌, ◌++◌, ◌∷◌, [], ℕ, List, codes, length};
ghost use Rattle.command_line.specs.declared.options.TheConstants.{PACKETS_LOST};
ghost use Rattle.fault_scripts.specs.Says.{IsScript};
ghost use Rattle.net_rules.specs.declared.fate.Fate.TheVariants.{Drop};
ghost use Rattle.net_rules.specs.declared.line.Kinds.TheVariants.{Any};
ghost use Rattle.net_rules.specs.declared.line.ScriptLine.TheVariants.{Fate};
ghost use Rattle.net_rules.specs.declared.line.Which.TheVariants.{Nth};
ghost use Rattle.value_core.specs.declared.action.Line.{Line};
ghost use Rattle.value_core.specs.History.{output_of};
ghost use Rattle.make_command.specs.Losses.{losses, losses_text};
ghost use Rattle.make_command.specs.Summary.{summary_line};

/// The script of losses is that of the text with a line `drop any N` for each; it does nothing.
pub fn losses_law()
    ensures { (lost : ℕ) → lost ≤ PACKETS_LOST → IsScript (losses_text lost) (losses lost) }
{}

/// Two losses, and their text; and the summary of the run of 42, whatever its history has beside its length and what it writes.
pub fn make_rows()
    ensures lost { losses 2 ≡ Fate Any (Nth 50) Drop ∷ Fate Any (Nth 100) Drop ∷ [] }
    ensures text { losses_text 2 ≡ codes "drop any 50" ++ 10 ∷ (codes "drop any 100" ++ 10 ∷ []) }
    ensures summary { (book : List Line) → length book ≡ 1439 → output_of book ≡ codes "152295" ++ 10 ∷ [] →
        summary_line 42 6 728 book ≡ codes "make 42: processes 6, entries 728, lines 1439, output 152295" ++ 10 ∷ [] }
{}
