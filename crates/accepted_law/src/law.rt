//! The law of checked programs.

ghost use Rattle.std.specs.Prelude.{List};
ghost use Rattle.link_rules.specs.Units.{Source};
ghost use Rattle.link_rules.specs.Rules.{Links};
ghost use Rattle.type_rules.specs.Breaches.{IsWellTyped};
ghost use Rattle.meaning_rules.specs.Accepted.{AreTexts, IsAccepted};
ghost use Rattle.accepted_law.specs.Limits.{IsWithinLimits};
ghost use Rattle.accepted_law.specs.StartsFit.{StartsFit};
ghost use Rattle.type_rules.specs.Scopes.{Scope};
ghost use Rattle.accepted_law.specs.Meets.{Meets};
ghost use Rattle.accepted_law.specs.Numbers.{AreNumbers};
ghost use Rattle.accepted_law.specs.Known.{ArePhrasesKnown, AreTypesKnown};
ghost use Rattle.accepted_law.specs.NextNamed.{CallsKnown, MakesKnown};

/// The law of checked programs. In a program that links and is well typed, whose words are such as a text may have, each declared type is
/// known, and is what its definition says: none holds itself; and each type phrase of such words that breaks no rule is a type, and one of
/// data where that is no object type. Where it keeps within the limits too, it is accepted, as preservation asks: types of data open with
/// values that fit and nest no deeper than values may; calls, operations and processes are what their signatures say, and the main process
/// has no parameters. In an accepted program bodies begin in variables that fit; and within the limits the numbers of object types,
/// operations, texts, fields and guards have 16 bits, and those of a process's variables 32. What typing finds by a name in a program that
/// links, and what the meaning finds by it, are the same: variables, functions, functions of graphs, operations, processes and fields. And
/// what a process makes is of an object type that has a specification, and so isn't the output object's, whatever its arguments and the
/// replies that it got; and arguments fit only operations that have a head in the specification of their type, or the output object's one.
pub fn accepted_law()
    ensures types { (us : List Source) → Links us → IsWellTyped us → AreTexts us → AreTypesKnown us }
    ensures phrases { (us : List Source) → Links us → IsWellTyped us → AreTexts us → ArePhrasesKnown us }
    ensures accepted { (us : List Source) → Links us → IsWellTyped us → AreTexts us → IsWithinLimits us → IsAccepted us }
    ensures starts { (us : List Source) → IsAccepted us → StartsFit us }
    ensures numbers { (us : List Source) → IsWithinLimits us → AreNumbers us }
    ensures meets { (v : Scope) → Links v.program → Meets v }
    ensures makes { (us : List Source) → IsWellTyped us → AreTexts us → MakesKnown us }
    ensures calls { (us : List Source) → Links us → IsWellTyped us → AreTexts us → IsWithinLimits us → CallsKnown us }
{}
