//! What a name is defined as.

/// What a name is defined as, as far as another definition may share it.
#[derive(Clone, Copy, Debug, PartialEq, Eq)]
pub enum Role {
    /// The unit's module.
    Module,
    /// The specification of an object type.
    Specification,
    /// The implementation of an object type.
    Implementation,
    /// A constant, a type, a value of an enumeration, a function or a process.
    Other,
}
