//! What is done to the elements of sets and bags: by halving where they are known to be in order, and else one after the other.

ghost use Rattle.std.specs.Prelude.{◌≡◌, IfOk, IsTrue, OnOk, Ok, Err};
ghost use Rattle.orca_base.specs.Refusal.{MatchRefusal};
ghost use Rattle.value_core.specs.View.{datum_of};
ghost use Rattle.value_ops.specs.Elements as rules;
ghost use Rattle.value_ops.specs.Elements.{elements, least_of, without_least};
ghost use Rattle.frame_variables.specs.Ordered.{IsOrdered};

use crate::elements;
use crate::orders::is_ordered;
use orca_base::{FaultKind, NoMemory, Refusal};
use std::alloc::Global;
use value_core::Value;

/// Adds an element to a set that doesn't have it, or to a bag, and gives whether all is known to be in order then.
///
/// # Errors
/// Want of memory.
pub fn insert(
    alloc: Global,
    all: &mut Value,
    element: Value,
    in_order: bool,
) -> Result<bool, NoMemory>
    requires { IsTrue in_order → IsOrdered (datum_of all.old) }
    ensures inserted { OnOk result (datum_of all.new ≡ rules.inserted (datum_of element) (datum_of all.old)) }
    ensures ordered { IfOk result (λ ordered. IsTrue ordered → IsOrdered (datum_of all.new)) }
{
    if in_order {
        let ordered = is_ordered(&element);
        value_ops::insert(alloc, all, element)?;
        return Ok(ordered);
    }
    elements::insert(alloc, all, element)?;
    Ok(false)
}

/// Takes one equal element out of a set or bag, where there is one.
///
/// # Errors
/// Want of memory.
pub fn delete(
    alloc: Global,
    all: &mut Value,
    element: &Value,
    in_order: bool,
) -> Result<(), NoMemory>
    requires { IsTrue in_order → IsOrdered (datum_of all.old) }
    ensures left { OnOk result (datum_of all.new ≡ rules.deleted (datum_of element.now) (datum_of all.old)) }
    ensures ordered { OnOk result (IsTrue in_order → IsOrdered (datum_of all.new)) }
{
    if in_order {
        value_ops::delete(alloc, all, element)?;
        return Ok(());
    }
    elements::delete(alloc, all, element)
}

/// Takes the least element out of a set or bag: `from`.
///
/// # Errors
/// `FromEmpty` where there is none, and want of memory.
pub fn take_least(alloc: Global, all: &mut Value) -> Result<Value, Refusal<FaultKind>>
    ensures taken { MatchRefusal result (λ v. least_of (datum_of all.old) ≡ Ok (datum_of v))
        (λ f. least_of (datum_of all.old) ≡ Err f) }
    ensures rest { OnOk result (datum_of all.new ≡ without_least (datum_of all.old)) }
    ensures ordered { IsOrdered (datum_of all.old) → IsOrdered (datum_of all.new) }
{
    value_ops::take_least(alloc, all)
}
