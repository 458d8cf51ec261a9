//! The law of the syntax.

ghost use Rattle.std.specs.Prelude.{◌≡◌, ℕ, List};
ghost use Rattle.orca_lexer.specs.declared.token.Token.{Token};
ghost use Rattle.orca_grammar.specs.Forms.{Mark};
ghost use Rattle.orca_grammar.specs.Grammar.{IsText};
ghost use Rattle.orca_tree.specs.declared.tree.Unit.{Unit as UnitTree};
ghost use Rattle.orca_tree.specs.Marks.{unit as unit_marks};
ghost use Rattle.orca_syntax.specs.Syntax.{Syntax};
ghost use Rattle.orca_syntax.specs.Shown.{syntax_of};
ghost use Rattle.orca_syntax.specs.Derivation.{syntax_marks};
ghost use Rattle.orca_syntax.specs.Places.{ArePlaces, AreShownPlaces, IsInTextOrder};
ghost use Rattle.orca_syntax.specs.Sound.{IsSoundSyntax};
ghost use Rattle.orca_syntax.specs.TextSyntax.{AreWordsSound, HasSyntax, IsOfSyntax, IsShown, IsSyntaxReadBack, LosesPlaces, Reads};

/// The law of the syntax. What the grammar derives is derived with the marks of a syntax, and no list of tokens has two: so a text whose
/// tokens are a unit has one syntax, and each other text none. A tree has the marks of the syntax that it shows: where a text has the marks
/// of a tree, that is *the* syntax of the text, and trees that are read from the same tokens show the same. The tokens of a text's syntax
/// are sound, and so are the words of each phrase in it; its records have a field and its enumerations a name. The text `printed u`, which
/// `print_tree` gives where it is UTF-8, has the same syntax as the text that the unit was read from, places aside. The place of a phrase
/// that keeps one is that of its first token, in the syntax and in the tree; and the places that a text's syntax keeps rise, in the order
/// in which its marks stand.
pub fn syntax_law()
    ensures some { (ms : List Mark) (tokens : List Token) → IsText ms tokens → IsOfSyntax ms }
    ensures one { (tokens : List Token) (s t : Syntax) → Reads tokens s → Reads tokens t → s ≡ t }
    ensures once { (text : List ℕ) (s t : Syntax) → HasSyntax text s → HasSyntax text t → s ≡ t }
    ensures marks { (u : UnitTree) → unit_marks u ≡ syntax_marks (syntax_of u) }
    ensures shown { (u : UnitTree) → IsShown u }
    ensures trees { (u v : UnitTree) (tokens : List Token) → IsText (unit_marks u) tokens → IsText (unit_marks v) tokens →
        syntax_of u ≡ syntax_of v }
    ensures sound { (text : List ℕ) (s : Syntax) → HasSyntax text s → AreWordsSound s }
    ensures parts { (text : List ℕ) (s : Syntax) → HasSyntax text s → IsSoundSyntax s }
    ensures bare { (s : Syntax) → LosesPlaces s }
    ensures printed { (u : UnitTree) → IsSyntaxReadBack u }
    ensures places { ArePlaces }
    ensures shown_places { AreShownPlaces }
    ensures rise { (text : List ℕ) (s : Syntax) → HasSyntax text s → IsInTextOrder s }
{}
