//! The law of the grammar.

ghost use Rattle.std.specs.Prelude.{◌≡◌, ◌∷◌, List, false, true};
ghost use Rattle.orca_lexer.specs.declared.token.Token.{Token};
ghost use Rattle.orca_grammar.specs.Forms.{Derives, Form, Mark, Nest};
ghost use Rattle.orca_grammar.specs.Grammar.{IsText};
ghost use Rattle.orca_grammar.specs.Promise.{IsOne, IsReadSo};
ghost use Rattle.orca_grammar.specs.Reading.{decided, first, is_any, next, nullable, within};
ghost use Rattle.orca_grammar.specs.Rules.{rule, unit as unit_form};
ghost use Rattle.orca_grammar.specs.Sets.{firsts_of, nexts_of, sets};
ghost use Rattle.orca_grammar.specs.Words.{AreTokensOf};
ghost use Rattle.orca_grammar.specs.Wrong.{call_beside_names, statements_without_semicolons};

/// A list of tokens is one unit at most, however deep it nests; and the reader of the grammar says which, where no token of it stands
/// too deep, or else the first token, or the end, with which no unit goes on, or the first token that stands too deep. The tokens of a
/// unit are those of its marks, kind by kind, and with the places that the marks keep.
pub fn grammar_law()
    ensures one { (tokens : List Token) → IsOne tokens }
    ensures reads { (tokens : List Token) → IsReadSo tokens }
    ensures words { (ms : List Mark) (tokens : List Token) → IsText ms tokens → AreTokensOf ms tokens }
{}

/// One token decides each choice of the grammar. What each rule begins with is its set, what may go on behind it is among its set, and no
/// nested phrase is empty. What is derived of a form begins with a token of the form's set; it has none only where the form may be empty.
/// Two slips in the grammar would leave choices open.
pub fn decision_law()
    ensures nested { (n : Nest) → decided sets (rule n) ≡ true }
    ensures whole { decided sets unit_form ≡ true }
    ensures firsts { (n : Nest) → first sets (rule n) ≡ firsts_of n }
    ensures nexts { (n : Nest) → within (next sets (rule n)) (nexts_of n) ≡ true }
    ensures some { (n : Nest) → nullable (rule n) ≡ false }
    ensures begins { (f : Form) (ms : List Mark) (t : Token) (ts rest : List Token) → Derives rule f ms (t ∷ ts) rest →
        (rest ≡ t ∷ ts → ⊥) → is_any (first sets f) t.kind ≡ true }
    ensures empty { (f : Form) (ms : List Mark) (ts : List Token) → Derives rule f ms ts ts → nullable f ≡ true }
    ensures call { decided sets call_beside_names ≡ false }
    ensures statements { decided sets statements_without_semicolons ≡ false }
{}
