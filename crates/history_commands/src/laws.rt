//! That a text has one answer, that a book is printed, and that its text is read back as the book and is legal.

ghost use Rattle.std.specs.Prelude.{◌≡◌, ℕ, All, List};
ghost use Rattle.value_core.specs.History.{Legal};
ghost use Rattle.value_core.specs.Meaning.{Computes, Performs};
ghost use Rattle.value_core.specs.Sound.{IsSoundLine};
ghost use Rattle.value_core.specs.declared.action.Line.{Line};
ghost use Rattle.book_law.specs.Events.{In};
ghost use Rattle.history_text.specs.Sound.{AreLines, AreTables, HasNames, IsPrintable};
ghost use Rattle.history_text.specs.declared.names.Names.{Names};
ghost use Rattle.history_commands.specs.ReadBack.{ReadsBack};
ghost use Rattle.history_commands.specs.Replays.{IsToldOf};
ghost use Rattle.history_commands.specs.declared.answer.Answer.{Answer};

/// The laws of what is said of a text, whatever a program means; it does nothing.
///
/// - `back`: where lines have a text and are a history, that text is read back as these lines, and is answered as legal.
/// - `once`: a text has one answer at most. So where it is legal no line of it breaks, and a line that is told is the first.
/// - `printable`: sound lines whose names are known may be printed, as those of a run's book.
pub fn answer_law()
    ensures back { (p : Performs) (q : Computes) (names : Names) (lines : List Line) → AreLines names lines → Legal p q lines →
        ReadsBack p q names lines }
    ensures once { (p : Performs) (q : Computes) (names : Names) (text : List ℕ) (one two : Answer) → AreTables names →
        IsToldOf p q names text one → IsToldOf p q names text two → one ≡ two }
    ensures printable { (names : Names) (lines : List Line) → ((line : Line) → In line lines → IsSoundLine line) →
        All (λ line. HasNames names line.action) lines → All (IsPrintable names) lines }
{}
