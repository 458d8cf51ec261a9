//! The sentences of each cause. `@` stands for what they speak of.

ghost use Rattle.std.specs.Prelude.{◌≡◌, map};
ghost use Rattle.refusal_notes.specs.Texts as texts;

use crate::cause::{Cause, Hint, HistoryPart, ScriptRule, UsageRule};
use orca_base::{FaultKind, What};
use orca_lexer::LexRule;

/// The rules of the lexer, in the order of their numbers (docs/LANGUAGE.md, Tokens).
pub const LEXICAL: [&str; 4] = [
    "The text isn't UTF-8: at this byte no character goes on. Save the file as UTF-8.",
    "No token has this character, or it stands in a char or a string that can't hold it. A char holds one character, with a code \
     from 32 to 126 or written `\\n`, `\\t`, `\\\\`, `\\'` or `\\\"`; so do strings, with any number of them.",
    "The char or string that begins here isn't closed on its line. A quote of the same kind within is written with a backslash in front.",
    "A number is at most 9223372036854775807.",
];

/// The rules of linking, in the order of their numbers (docs/LANGUAGE.md, Linking).
pub const LINKING: [&str; 5] = [
    "@ is defined twice. A name of the top level is defined once in the whole program, and so is a module's; only the two halves \
     of an object type share theirs. (linking rule 1)",
    "None of the given files is the module @. A file is that module where its first line is `module NAME;` with this name; name \
     it on the command line, too. (linking rule 2)",
    "The import of @ leads back to the module that imports it. Modules import one another in no circle: move what both need into \
     a third. (linking rule 3)",
    "A program begins with `process OrcaMain();`, which none of the given files has. (linking rule 4)",
    "The specification of the object type @ has no implementation in the given files. (linking rule 5)",
];

/// The rules of typing, in the order of their numbers (docs/LANGUAGE.md, Typing).
pub const TYPING: [&str; 41] = [
    "An implementation holds no call of an operation, no `fork` and no `WriteLine`: its operations work on their own object \
     alone, each at once. Let the process do it. (rule 1)",
    "@ isn't declared where it could be seen from here. A name is one of this body, of this module, or of a module that this one \
     imports; the variable of a loop is seen in that loop's body alone. (rule 2)",
    "@ is declared twice: among the fields of a record, the operations of a specification, the fields and operations of an \
     implementation, or the parameters, variables and loop variables of a body. Give one another name. (rule 3)",
    "@ has a meaning here already: a declaration of the top level has this name, or a field of the object. Give the parameter, \
     variable or field another one. (rule 4)",
    "@ is no type, where one is asked for, or no value, where one is asked for. (rule 5)",
    "@ is an object type. It stands only as the type of a process's variable, and behind `shared` in a parameter: objects are \
     shared, and not copied into other values. (rule 6)",
    "Behind `shared` stands an object type, which @ is not. Leave out `shared`, and the argument is copied. (rule 7)",
    "The type @ holds itself, so it would never end. Hold a number, or a name of a node in a graph, that stands for the other \
     value. (rule 8)",
    "The bounds of an array and the value of a constant are numbers or constants that lead to one, and the low bound is at most \
     the high one. `graph` stands only as a high bound, and then the low bound is 1. (rule 9)",
    "A variable of this type would be too large from the start: its opening value is larger than 10,000, or it nests more than 16 \
     deep. Sets, bags and graphs begin empty. (rule 10)",
    "The implementation of @ has no specification in the same module. The two halves of an object type stand in one module. (rule 11)",
    "The operations of an implementation have the heads of the specification's: in the same order, with the same names, \
     parameters, types and results. This head differs, or is lacking in the implementation. (rule 12)",
    "Only a process, or a function with a `shared` parameter, calls operations of objects or `WriteLine`. (rule 13)",
    "Only a process forks another: `fork` stands in no function and in no operation. (rule 14)",
    "The function @ has a `shared` parameter, so that only a process, or a function with a `shared` parameter of its own, may \
     call it. (rule 15)",
    "`OrcaMain` is the process that a program begins with, so that it has no parameters; and no process has an `out` parameter, \
     since nobody waits for its end. Hand results over by an object. (rule 16)",
    "The condition behind `guard` is boolean, and this isn't. (rule 17)",
    "A guard looks and changes nothing: it holds no `from`, `addnode` or `deletenode`, and no call of a function with an `out` \
     parameter. (rule 18)",
    "@ can't be written. On the left of `:=` stands a variable, a field of the object, a parameter that isn't `shared`, or a part \
     of one; a constant, an object and the variable of a loop can't be assigned to. (rule 19)",
    "What stands on the right of `:=` isn't of the type of what stands on the left, and nothing is converted. (rule 20)",
    "The condition of `if`, `elsif`, `while` and `until` is boolean, and this isn't. (rule 21)",
    "The bounds of a `for` are integers, and this isn't. (rule 22)",
    "In a body with a result `return` has a value of the result's type; in any other body it has none. (rule 23)",
    "Behind `fork` stands the name of a process, which @ is not. (rule 24)",
    "Behind `on` stands the number of a member, which is an integer, and this isn't. (rule 25)",
    "In front of `(` stands the name of a function, which @ is not. An operation is called with its object in front: \
     `object$operation(..)`. (rule 26)",
    "In front of `$` stands an object variable or a `shared` parameter, and @ is neither. (rule 27)",
    "The object has no operation @. Its specification lists those that it has. (rule 28)",
    "@ is called with more or fewer arguments than it has parameters. (rule 29)",
    "The argument isn't of its parameter's type, and nothing is converted. (rule 30)",
    "A `shared` parameter is given an object: the name of an object variable, or of a `shared` parameter, of just that object \
     type. (rule 31)",
    "An `out` parameter is given a variable that may be written, or a part of one, of just its type; and two `out` parameters of \
     a call aren't given parts of the same variable. (rule 32)",
    "A call that is a statement has no result, and one within an expression has one. Assign a result to a variable, also where \
     nobody reads it. (rule 33)",
    "`WriteLine` writes integers, booleans, chars, strings and values of enumerations, and this is none. Write an array or a \
     record part by part. (rule 34)",
    "The operands of `and`, `or` and `not` are boolean, and this isn't. (rule 35)",
    "The operands of `+`, `-`, `*`, `/` and `%` are integers, and those of `&` are strings; this isn't. (rule 36)",
    "Both sides of a comparison have one type, which is no object type; and on the right of `in` stands a set or a bag of the \
     left side's type. (rule 37)",
    "`insert`, `delete` and `from` have a set or a bag that may be written; and the element is of the type of its elements. (rule 38)",
    "`size` is asked of a set, a bag or a string, and `ord` of a char or a value of an enumeration; this is none. (rule 39)",
    "`.` and a name stand behind a record that has this field; `[` and `]` stand behind an array with an integer between them, or \
     behind a graph with the name of a node. (rule 40)",
    "`addnode` and `deletenode` have a graph that may be written, and `deletenode` has the name of a node in front of it. (rule 41)",
];

/// The limits, in the order of `What`.
pub const LIMITS: [&str; 9] = [
    "A file of a program has at most 1,000,000 bytes. Divide it into modules.",
    "A script has at most 1,000,000 bytes.",
    "A history that is replayed has at most 64,000,000 bytes.",
    "A program has at most 64 files, one for each module.",
    "Statements, expressions and types stand in one another at most 64 levels deep. Move inner parts into functions.",
    "A program has at most 100,000 tokens and declared names together.",
    "A run makes at most 4,096 objects, one for each object variable of each process.",
    "A run has at most 256 processes, of which `OrcaMain` is the first.",
    "A run has at most 2,000,000 lines in its history: that many operations on objects, makings and forks.",
];

/// More than 255 parameters.
pub const PARAMETERS: &str =
    "A function, a process and an operation have at most 255 parameters. Put some into a record.";

/// Hints for tokens, in the order of `Hint`.
pub const HINTS: [&str; 6] = [
    "`=` compares two values. A variable gets a value by `:=`.",
    "Something is missing in front of the `;`.",
    "@ ends a part that isn't whole, or that isn't open here. An `if` ends with `fi`, `while`, `for` and `guard` with `od`, \
     `repeat` with `until` and its condition, and all others with `end`; each statement has a `;` behind it.",
    "The line `module NAME;` comes first in a file, behind it come the imports, and then the declarations.",
    "@ is a word of the language. It stands only where the grammar has it, and can't be a name.",
    "The grammar has nothing here that begins so. Something is missing in front, or this is too much.",
];

/// The end of a text.
pub const UNEXPECTED_END: &str =
    "The text ends before what was begun is whole: an `end`, `od`, `fi` or `;` is missing.";

/// Two modules Main.
pub const TWO_MAINS: &str =
    "Two files are the module Main: a file without a line `module NAME;` is. Give this one such a line, and import it where it is \
     used. (linking rule 1)";

/// The lines of scripts, in the order of `ScriptRule`.
pub const SCRIPTS: [&str; 3] = [
    "A word of this line is unknown, is missing or is one too many, the line isn't UTF-8, or it is a second one of `seed`. A line \
     is `drop KIND N`, `twice KIND N`, `hold KIND N TICKS`, `cut KIND N BYTES`, where N may be `all`, `crash MEMBER KIND N`, \
     `suspect MEMBER KIND N`, `swap KIND N` or `seed NUMBER PERCENT`.",
    "A number is missing in this line, isn't written in 1 to 19 digits, or is out of its range: packets count from 1, members go \
     from 0 to 15, and PERCENT from 0 to 100.",
    "This line ends in a carriage return and a line feed, as Windows ends lines; in a script it ends in a line feed alone. Save the file \
     with such lines.",
];

/// A member that isn't there.
pub const NO_SUCH_MEMBER: &str =
    "The run has no member @, so that this line does nothing. Members are numbered from 0, and `--nodes` says how many there are.";

/// The lines of histories, in the order of `HistoryPart`.
pub const HISTORIES: [&str; 6] = [
    "This line isn't one of a history, or a name in it is none of the program's. Each line ends with a line feed alone.",
    "There is no such process at this line: it wasn't forked in front of it.",
    "This isn't the number of the next line of its process. They count from 0.",
    "The process isn't at this action here, by what it was replied so far.",
    "The operation doesn't run by this guard here, or would have to wait.",
    "The operation gives another reply here.",
];

/// A file that isn't there.
pub const ABSENT: &str =
    "There is no file of this name. Names are looked up from the folder that `orca` was called in.";

/// A file that can't be read.
pub const UNREADABLE: &str =
    "The file is there and can't be read. It may be a folder, or closed to this user.";

/// The faults, in the order of their numbers.
pub const FAULTS: [&str; 8] = [
    "Overflow: the result of `+`, `-`, `*` or `/`, or the quotient of `%`, doesn't fit 64 bits, or a graph has no name left for a \
     node. The process ended there.",
    "DivideByZero: the right side of `/` or `%` was 0. The process ended there.",
    "IndexOutside: the index of an array was outside of its bounds, or a graph has no node of the name. The process ended there.",
    "FromEmpty: `from` was asked for an element of an empty set or bag. The process ended there. `size` tells whether one is empty.",
    "TooLarge: a value, or the arguments of one call or fork together, would have been larger than 10,000, or a string longer than \
     9,999 characters. The process ended there.",
    "TooLong: a guard, an operation or the `begin` part of an object took more than 10,000 turns. The process that called it ended there.",
    "TooDeep: 65 calls of functions would have been open within one another. The process ended there.",
    "NoReturn: a body with a result came to its end without `return`. The process ended there.",
];

/// A process that waits for ever.
pub const BLOCKED: &str =
    "All guards of the operation that it waits for are false, and no process is left that could make one true.";

/// A group that is lost.
pub const NO_GROUP: &str =
    "More members crashed, or were left out, than `--resilience` allows, and nothing goes on. With R for `--resilience`, \
     `--nodes` is to be above 2 R.";

/// A run that had its events.
pub const OUT_OF_EVENTS: &str =
    "The run had as many events as `--events` allows, 1,000,000 where it isn't said. Allow more, up to 4,000,000, where the \
     program ends at all.";

/// A process that had its turns.
pub const OUT_OF_TURNS: &str =
    "The process took as many turns as `--turns` allows, 1,000,000 where it isn't said: a turn is a round of a loop or a call of \
     a function. Allow more, up to 10,000,000, where its loop ends at all.";

/// The process that began is gone.
pub const MAIN_LOST: &str =
    "Process 0, which runs `OrcaMain`, was on a member that was lost in the run. A process whose member is lost isn't waited for, \
     and what it would still have written is missing above.";

/// What is wrong with words, in the order of `UsageRule`.
pub const USAGE: [&str; 13] = [
    "A command is missing. `orca --help` lists the commands.",
    "@ is no command. `orca --help` lists the commands, and says which are built.",
    "@ isn't built yet. `orca --help` says what is.",
    "@ is no option of this command. `orca COMMAND --help` lists its options; a file with such a name stands behind `--`.",
    "The value of the option @ is missing.",
    "The option @ takes no value.",
    "@ is no value of its option: it takes a number in decimal digits, in the range that `orca COMMAND --help` tells.",
    "The option @ stands there twice.",
    "With R for `--resilience`, `--nodes` is to be above 2 R: more than half of the members have to stay.",
    "A word is missing: the files of the program, a history or a number. `orca COMMAND --help` says what the command takes.",
    "@ is one word too many. `orca COMMAND --help` says what the command takes.",
    "A word isn't UTF-8. Give the file another name.",
    "These words are no command. `orca --help` lists the commands, and `orca COMMAND --help` says what one takes.",
];

// The text with this number, from 0.
#[tactic(auto, using(crate::proofs::Rows::row_read, crate::proofs::Rows::row_past))]
fn row(rows: &[&'static str], number: usize) -> &'static str
    ensures { result.now ≡ texts.row (map (λ text. text.now) rows.now) number }
{
    if number < rows.len() {
        rows[number]
    } else {
        ""
    }
}

// The text with this number, from 1.
fn rule(rows: &[&'static str], number: u8) -> &'static str
    ensures { result.now ≡ texts.rule (map (λ text. text.now) rows.now) number }
{
    row(rows, (number as usize).saturating_sub(1))
}

// The place of a hint in its table.
fn hint_number(hint: Hint) -> usize
    ensures { result ≡ texts.hint_number hint }
{
    hint as usize
}

// That of a limit.
fn limit_number(what: What) -> usize
    ensures { result ≡ texts.limit_number what }
{
    what as usize
}

// That of a rule of scripts.
fn script_number(rule: ScriptRule) -> usize
    ensures { result ≡ texts.script_number rule }
{
    rule as usize
}

// That of a part of a history's line.
fn part_number(part: HistoryPart) -> usize
    ensures { result ≡ texts.part_number part }
{
    part as usize
}

// That of a fault.
fn fault_number(fault: FaultKind) -> usize
    ensures { result ≡ texts.fault_number fault }
{
    fault as usize
}

// That of a rule of command lines.
fn usage_number(rule: UsageRule) -> usize
    ensures { result ≡ texts.usage_number rule }
{
    rule as usize
}

/// The sentences of a cause, with `@` for what they speak of.
pub fn text_of(cause: Cause) -> &'static str
    ensures { result.now ≡ texts.text_of cause }
{
    match cause {
        Cause::Lexical { rule: broken } => rule(&LEXICAL, broken.number()),
        Cause::Unexpected { hint } => row(&HINTS, hint_number(hint)),
        Cause::UnexpectedEnd => UNEXPECTED_END,
        Cause::Linking { rule: broken } => rule(&LINKING, broken),
        Cause::TwoMains => TWO_MAINS,
        Cause::Typing { rule: broken } => rule(&TYPING, broken),
        Cause::Limit { what } => row(&LIMITS, limit_number(what)),
        Cause::Parameters => PARAMETERS,
        Cause::Script { rule: broken } => row(&SCRIPTS, script_number(broken)),
        Cause::NoSuchMember => NO_SUCH_MEMBER,
        Cause::History { part } => row(&HISTORIES, part_number(part)),
        Cause::Absent => ABSENT,
        Cause::Unreadable => UNREADABLE,
        Cause::Faulted { fault } => row(&FAULTS, fault_number(fault)),
        Cause::Blocked => BLOCKED,
        Cause::NoGroup => NO_GROUP,
        Cause::OutOfEvents => OUT_OF_EVENTS,
        Cause::OutOfTurns => OUT_OF_TURNS,
        Cause::MainLost => MAIN_LOST,
        Cause::Usage { rule: broken } => row(&USAGE, usage_number(broken)),
    }
}
