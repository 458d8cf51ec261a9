//! The law of names.

ghost use Rattle.std.specs.Prelude.{◌≡◌, List, map};
ghost use Rattle.link_rules.specs.Rules.{Links};
ghost use Rattle.link_rules.specs.Units.{Source};
ghost use Rattle.type_rules.specs.Breaches.{IsWellTyped};
ghost use Rattle.meaning_rules.specs.Accepted.{AreTexts};
ghost use Rattle.accepted_law.specs.Limits.{IsWithinLimits};
ghost use Rattle.history_text.specs.Sound.{AreTables};
ghost use Rattle.history_text.specs.declared.names.Names.{Names};
ghost use Rattle.program_names.specs.Naming.{AreNamesOf, CallsNamed, HistoriesNamed};

use accepted_law::accepted_law;
use meaning_rules::{fitting_law, meaning_law, typed_law};

/// The law of names. In a program that links and is well typed, whose words are such as a text may have, and which keeps within the limits,
/// its names are tables: each has letters, digits and `_` alone, no two of one table are the same, and there are no more than 2^16. And
/// each line of each of its histories has its names in them, and so has each call that is a process's next action after one. Of any
/// sources they are those alone.
pub fn names_law()
    ensures tables { (us : List Source) (names : Names) → Links us → IsWellTyped us → AreTexts us → IsWithinLimits us →
        AreNamesOf us names → AreTables names }
    ensures histories { (us : List Source) (names : Names) → Links us → IsWellTyped us → AreTexts us → IsWithinLimits us →
        AreNamesOf us names → HistoriesNamed us names }
    ensures calls { (us : List Source) (names : Names) → Links us → IsWellTyped us → AreTexts us → IsWithinLimits us →
        AreNamesOf us names → CallsNamed us names }
    ensures once { (us : List Source) (one two : Names) → AreNamesOf us one → AreNamesOf us two → (one.kinds.items ≡ two.kinds.items)
        × (map (λ o. o.names.items) one.operations.items ≡ map (λ o. o.names.items) two.operations.items)
        × (one.texts.items ≡ two.texts.items) }
{
    accepted_law();
    fitting_law();
    meaning_law();
    typed_law();
}
