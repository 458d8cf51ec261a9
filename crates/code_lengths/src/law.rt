//! Code is no longer than its text.

ghost use Rattle.std.specs.Prelude.{◌≤◌, ℕ, List, length};
ghost use Rattle.std.specs.List.{sum_by};
ghost use Rattle.orca_grammar.specs.Forms.{spelled};
ghost use Rattle.orca_syntax.specs.Derivation.{syntax_marks};
ghost use Rattle.orca_syntax.specs.Syntax.{Syntax};
ghost use Rattle.link_rules.specs.Rules.{Links};
ghost use Rattle.link_rules.specs.Units.{Source};
ghost use Rattle.code_rules.specs.Program.{program_code};
ghost use Rattle.code_lengths.specs.Lengths.{declared_length, program_length, tokens_in};

/// Code is no longer than its text. The code of a program that links, of all its functions, processes, makings and operations, has together
/// at most one instruction for each token of its texts. And what the declarations of a unit give has at most one for each token of the
/// unit, whatever its phrases are, and in any program.
pub fn length_law()
    ensures programs { (us : List Source) → Links us → program_length (program_code us) ≤ sum_by tokens_in us }
    ensures units { (us : List Source) (m : List ℕ) (s : Syntax) →
        sum_by (declared_length us m) s.declarations ≤ length (spelled (syntax_marks s)) }
{}
