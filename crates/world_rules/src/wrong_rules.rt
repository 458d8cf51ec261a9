//! Wrong rules, each told apart from the right one, which the check computes.

ghost use Rattle.world_rules.specs.Wrong.{WrongRules};

/// Reads before their entry's lines, a read below its process's place, a view older than its process's last line, an entry applied
/// twice, lines of an entry told by two members, a step of a run that isn't going.
pub fn wrong_rules_differ()
    ensures { WrongRules }
{}
