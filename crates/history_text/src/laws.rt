//! That texts of histories differ as histories do.

ghost use Rattle.std.specs.Prelude.{◌≡◌, ◌<◌, ◌^◌, ◌++◌, List, ℕ, None, Option, Some, length};
ghost use Rattle.std.specs.Str.{IsAscii};
ghost use Rattle.value_core.specs.declared.action.Line.{Line};
ghost use Rattle.history_text.specs.Reading.{line_at};
ghost use Rattle.history_text.specs.Sound.{AreFirst, AreLines, AreTables, IsLine};
ghost use Rattle.history_text.specs.Spelling.{history_text, line_text};
ghost use Rattle.history_text.specs.declared.names.Names.{Names};

/// The laws of spellings, for proofs that stand on this crate; it does nothing.
pub fn line_law()
    // Where the texts of two sound lines stand in front of texts, and the whole is the same, the lines are the same, and so is what
    // follows. So a text is that of one line at most, and none is a proper prefix of another.
    ensures prefix { (names : Names) (one two : Line) (behind more : List ℕ) → AreTables names → IsLine names one → IsLine names two →
        line_text names one ++ behind ≡ line_text names two ++ more → (one ≡ two) × (behind ≡ more) }
    // A text is that of one history at most.
    ensures history { (names : Names) (one two : List Line) → AreTables names → AreLines names one → AreLines names two →
        history_text names one ≡ history_text names two → one ≡ two }
    // Texts of histories are ASCII.
    ensures ascii { (names : Names) (lines : List Line) → AreTables names → AreLines names lines → IsAscii (history_text names lines) }
    // Of the text of lines these are the first, and no line is bad; and any text has one such front.
    ensures whole { (names : Names) (lines : List Line) → AreLines names lines → AreFirst names (history_text names lines) lines None }
    ensures once { (names : Names) (text : List ℕ) (one two : List Line) (bad worse : Option ℕ) → AreTables names →
        AreFirst names text one bad → AreFirst names text two worse → (one ≡ two) × (bad ≡ worse) }
{}

/// The laws of the reading function; it does nothing.
pub fn reading_law()
    // What is read from the front of a text is sound, and spelled there.
    ensures found { (names : Names) (text : List ℕ) (x : Line × List ℕ) → length text < 2 ^ 32 → line_at names text ≡ Some x →
        IsLine names x.0 × (text ≡ line_text names x.0 ++ x.1) }
    // What is sound and spelled there is read, whatever follows.
    ensures again { (names : Names) (line : Line) (behind : List ℕ) → AreTables names → IsLine names line →
        line_at names (line_text names line ++ behind) ≡ Some (line, behind) }
{}
