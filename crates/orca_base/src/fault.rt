//! Faults of a running program.

/// How a computation faults (docs/LANGUAGE.md, Faults). Their order is that of their numbers in bytes.
#[derive(Clone, Copy, Debug, PartialEq, Eq, PartialOrd, Ord)]
pub enum FaultKind {
    /// An integer result doesn't fit 64 bits, or of `%` the quotient doesn't.
    Overflow,
    /// The right side of `/` or `%` is 0.
    DivideByZero,
    /// An array index is outside its bounds, or a graph has no node of the name.
    IndexOutside,
    /// `from` is applied to an empty set or bag.
    FromEmpty,
    /// A value's size would pass its limit.
    TooLarge,
    /// A guard, an operation's body or a making takes too many turns.
    TooLong,
    /// A function call would be the 65th nested one.
    TooDeep,
    /// A body with a result ends without `return`.
    NoReturn,
}
