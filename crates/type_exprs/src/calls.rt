//! The rules of calls.

ghost use Rattle.std.specs.Prelude.{◌≡◌, ◌==◌, ◌&&◌, ◌||◌, List, Some, IfOk, length, not, option_map, slice_get};
ghost use Rattle.std.specs.List.{list_any};
ghost use Rattle.orca_syntax.specs.Shown.{exprs};
ghost use Rattle.type_rules.specs.Types.{object_in, outside_of};
ghost use Rattle.type_rules.specs.TopLevel.{top_names};
ghost use Rattle.type_rules.specs.declared.breach.Breach.{Breach as BreachRule};
ghost use Rattle.type_rules.specs.Scopes as scopes;
ghost use Rattle.type_rules.specs.Expressions as rules;
ghost use Rattle.type_forms.specs.Finding.{Finds, FirstOf};
ghost use Rattle.type_forms.specs.Indexed.{IsInside, standing};
ghost use Rattle.type_forms.specs.Seen.{top, what};
ghost use Rattle.type_exprs.specs.Callees.{called_as, invoked_as, used_as};
ghost use Rattle.type_exprs.specs.Scoped.{IsScope, lent_local};

use crate::kinds::copy_known;
use crate::lending::roots_differ;
use crate::scope::{Local, Scope, is_plain, may_be_object, may_invoke};
use crate::values::outer;
use orca_base::{NoMemory, Place};
use orca_tree::{Expression, Name};
use std::alloc::Global;
use type_forms::{Found, Standing, Top, What, asks, breaks, lesser};
use type_rules::{Base, Breach, DataType, Formal, Owner, Predeclared, Signature};

/// What is called by a function's name.
#[derive(Clone, Copy)]
pub enum FunctionCallee<'a> {
    Unknown,
    NoFunction,
    AFunction { signature: &'a Signature },
    AGraphFunction { signature: &'a Signature },
}

/// What is called by an object's name and an operation's.
#[derive(Clone, Copy)]
pub enum OperationCallee<'a> {
    UnknownObject,
    NoObject,
    Untyped,
    NoOperation,
    AnOperation { signature: &'a Signature },
}

/// A call in an expression gives a value, and one as a statement none.
#[derive(Clone, Copy)]
pub enum Use {
    AsValue,
    AsStatement,
}

// What is called by a name of the top level.
fn top_function<'a>(scope: Scope<'a, '_>, number: usize, item: Top<'_>) -> FunctionCallee<'a>
    ensures { (w : scopes.Scope) → IsScope scope.entry w → slice_get (top_names w.program) number ≡ Some (top item.entry) →
        called_as result ≡ rules.top_function w (top item.entry) (what item.entry.what) }
{
    match item.what {
        What::Function { .. } => match scope.tables.signature(number) {
            None => FunctionCallee::NoFunction,
            Some(signature) => FunctionCallee::AFunction { signature },
        },
        _ => FunctionCallee::NoFunction,
    }
}

// What is called by a name that every module has.
fn predeclared_function<'a>(scope: Scope<'a, '_>, word: Predeclared) -> FunctionCallee<'a>
    ensures { (w : scopes.Scope) → IsScope scope.entry w → called_as result ≡ rules.predeclared_function word }
{
    match word {
        Predeclared::AddNode => FunctionCallee::AGraphFunction {
            signature: scope.tables.add_node,
        },
        Predeclared::DeleteNode => FunctionCallee::AGraphFunction {
            signature: scope.tables.delete_node,
        },
        _ => FunctionCallee::NoFunction,
    }
}

// What is called by a name that is none of the body's.
fn outer_function<'a>(scope: Scope<'a, '_>, is: Standing<'_>) -> FunctionCallee<'a>
    ensures { (w : scopes.Scope) → IsScope scope.entry w → IsInside w.program is.entry →
        called_as result ≡ rules.outer_function w (standing is.entry) }
{
    match is {
        Standing::Nothing => FunctionCallee::Unknown,
        Standing::Top { number, item } => top_function(scope, number, item),
        Standing::Everywhere { word } => predeclared_function(scope, word),
    }
}

// What is called by a name, where this is what it is of the body.
fn function_of<'a>(scope: Scope<'a, '_>, name: &str, local: Option<&Local>) -> FunctionCallee<'a>
    ensures { (w : scopes.Scope) → IsScope scope.entry w →
        called_as result ≡ rules.function_of w name.now (lent_local name.now local.entry) }
{
    match local {
        None => outer_function(scope, outer(scope, name)),
        Some(_) => FunctionCallee::NoFunction,
    }
}

/// What is called by a name.
pub fn called<'a>(scope: Scope<'a, '_>, name: &Name) -> FunctionCallee<'a>
    ensures { (w : scopes.Scope) → IsScope scope.entry w → called_as result ≡ rules.called w name.now }
{
    let local = scope.local(name.text.as_str());
    function_of(scope, name.text.as_str(), local)
}

// Whether a call is used as it may be, by what it gives.
fn is_used_well(way: Use, gives: &Option<Option<DataType>>) -> bool
    ensures { result ≡ rules.is_used_well (used_as way) gives.now }
{
    match way {
        Use::AsValue => gives.is_some(),
        Use::AsStatement => gives.is_none(),
    }
}

// Whether there are as many arguments as parameters.
#[tactic(auto, using(crate::proofs::Pushed::counted))]
fn is_filled(formals: &[Formal], given: &[Expression]) -> bool
    ensures { result ≡ (length formals.now == rules.count_of (exprs given.now)) }
{
    formals.len() == given.len()
}

/// The first rule that a call breaks by its use and the number of its arguments.
pub fn called_well(
    way: Use,
    at: Place,
    name: &Name,
    signature: &Signature,
    given: &[Expression],
) -> Option<Breach>
    ensures { FirstOf result (rules.called_well (used_as way) at name.now signature.now (exprs given.now)) }
{
    lesser(
        asks(33, at, is_used_well(way, &signature.result)),
        asks(29, name.at, is_filled(signature.formals.as_slice(), given)),
    )
}

// Whether a parameter is `shared`.
fn is_shared(formal: &Formal) -> bool
    ensures { result ≡ rules.is_shared formal.now }
{
    matches!(formal, Formal::Shared { .. })
}

// Whether a parameter is for `out`.
fn is_out(formal: &Formal) -> bool
    ensures { result ≡ rules.is_out formal.now }
{
    matches!(formal, Formal::Out { .. })
}

// Whether a parameter is `shared`, among these.
fn has_shared(formals: &[Formal]) -> bool
    ensures { result ≡ list_any rules.is_shared formals.now }
{
    'formals: for formal in formals {
        if is_shared(formal) {
            return true;
        }
    }
    false
}

// Whether a parameter is for `out`, among these.
fn has_out(formals: &[Formal]) -> bool
    ensures { result ≡ list_any rules.is_out formals.now }
{
    'formals: for formal in formals {
        if is_out(formal) {
            return true;
        }
    }
    false
}

// Whether a function with these parameters may be called in a body.
fn may_share(owner: Owner, formals: &[Formal]) -> bool
    ensures { result ≡ (scopes.may_invoke owner || not (list_any rules.is_shared formals.now)) }
{
    may_invoke(owner) || !has_shared(formals)
}

// Whether a function with these parameters may be called, in a guard or not.
fn may_lend(in_guard: bool, formals: &[Formal]) -> bool
    ensures { result ≡ not (in_guard && list_any rules.is_out formals.now) }
{
    !(in_guard && has_out(formals))
}

// The first rule that a call of a function with this signature breaks itself.
fn own_rules(
    scope: Scope<'_, '_>,
    way: Use,
    name: &Name,
    signature: &Signature,
    given: &[Expression],
) -> Option<Breach>
    ensures { (w : scopes.Scope) → IsScope scope.entry w →
        FirstOf result (rules.function_rules w (used_as way) name.now (exprs given.now) (rules.AFunction signature.now)) }
{
    let formals = signature.formals.as_slice();
    lesser(
        asks(15, name.at, may_share(scope.owner, formals)),
        lesser(
            asks(18, name.at, may_lend(scope.in_guard, formals)),
            called_well(way, name.at, name, signature, given),
        ),
    )
}

// The first rule that a call of a function breaks itself.
fn function_rules(
    scope: Scope<'_, '_>,
    way: Use,
    name: &Name,
    given: &[Expression],
    is: FunctionCallee<'_>,
) -> Option<Breach>
    ensures { (w : scopes.Scope) → IsScope scope.entry w →
        FirstOf result (rules.function_rules w (used_as way) name.now (exprs given.now) (called_as is.entry)) }
{
    match is {
        FunctionCallee::Unknown => breaks(2, name.at),
        FunctionCallee::NoFunction => breaks(26, name.at),
        FunctionCallee::AFunction { signature } => own_rules(scope, way, name, signature, given),
        FunctionCallee::AGraphFunction { signature } => lesser(
            asks(18, name.at, !scope.in_guard),
            called_well(way, name.at, name, signature, given),
        ),
    }
}

/// The parameters of what is called.
pub fn formals_of(is: FunctionCallee<'_>) -> &[Formal]
    ensures { result.now ≡ (rules.signature_of (called_as is.entry)).formals }
{
    match is {
        FunctionCallee::Unknown | FunctionCallee::NoFunction => &[],
        FunctionCallee::AFunction { signature } | FunctionCallee::AGraphFunction { signature } => {
            signature.formals.as_slice()
        }
    }
}

// The type of a result, where there is one and it is known.
fn result_type(
    alloc: Global,
    gives: &Option<Option<DataType>>,
) -> Result<Option<DataType>, NoMemory>
    ensures { IfOk result (λ t. t ≡ rules.result_type gives.now) }
{
    match gives {
        None => Ok(None),
        Some(kind) => Ok(copy_known(alloc, kind)?),
    }
}

// The type of what a call gives, where it is known.
fn called_type(alloc: Global, is: FunctionCallee<'_>) -> Result<Option<DataType>, NoMemory>
    ensures { IfOk result (λ t. t ≡ rules.result_type (rules.signature_of (called_as is.entry)).result) }
{
    match is {
        FunctionCallee::Unknown | FunctionCallee::NoFunction => Ok(None),
        FunctionCallee::AFunction { signature } | FunctionCallee::AGraphFunction { signature } => {
            Ok(result_type(alloc, &signature.result)?)
        }
    }
}

/// What was found of a call of a function, by the first breach inside of its arguments.
pub fn function_found(
    alloc: Global,
    scope: Scope<'_, '_>,
    way: Use,
    name: &Name,
    given: &[Expression],
    is: FunctionCallee<'_>,
    inside: Option<Breach>,
) -> Result<Found<DataType>, NoMemory>
    ensures { (w : scopes.Scope) → IsScope scope.entry w → (bs : List BreachRule) → FirstOf inside bs →
        IfOk result (λ f. Finds f (rules.call_found w (used_as way) name.now (exprs given.now) (called_as is.entry) bs)) }
{
    let own = function_rules(scope, way, name, given, is);
    let again = roots_differ(alloc, formals_of(is), given)?;
    let gives = called_type(alloc, is)?;
    Ok(Found::unless(lesser(own, lesser(inside, again)), gives))
}

// The number of an object type.
fn object_number(kind: &DataType) -> Option<usize>
    ensures { result ≡ object_in (outside_of kind.now) }
{
    if !kind.layers.as_slice().is_empty() {
        return None;
    }
    match kind.base {
        Base::Object { number } => Some(number),
        _ => None,
    }
}

// The operation of this name, where this is its signature, if it has one.
fn of_operation(signature: Option<&Signature>) -> OperationCallee<'_>
    ensures { invoked_as result ≡ rules.of_operation (option_map (λ s. s.now) signature.entry) }
{
    match signature {
        None => OperationCallee::NoOperation,
        Some(signature) => OperationCallee::AnOperation { signature },
    }
}

// The operation of this name of the object type of this number, if it is one.
fn of_object<'a>(
    scope: Scope<'a, '_>,
    operation: &Name,
    number: Option<usize>,
) -> OperationCallee<'a>
    ensures { (w : scopes.Scope) → IsScope scope.entry w → invoked_as result ≡ rules.of_object w operation.now number }
{
    match number {
        None => OperationCallee::NoObject,
        Some(number) => of_operation(scope.tables.operation(number, operation.text.as_str())),
    }
}

// The operation of this name of an object of this type, where that is known.
fn of_type<'a>(
    scope: Scope<'a, '_>,
    operation: &Name,
    kind: &Option<DataType>,
) -> OperationCallee<'a>
    ensures { (w : scopes.Scope) → IsScope scope.entry w → invoked_as result ≡ rules.of_type w operation.now kind.now }
{
    match kind {
        None => OperationCallee::Untyped,
        Some(kind) => of_object(scope, operation, object_number(kind)),
    }
}

// What is called before `$` that is no name of the body.
fn outer_object(is: Standing<'_>) -> OperationCallee<'static>
    ensures { invoked_as result ≡ rules.outer_object (standing is.entry) }
{
    match is {
        Standing::Nothing => OperationCallee::UnknownObject,
        _ => OperationCallee::NoObject,
    }
}

// The operation of this name, where this is what the object's name is of the body.
fn of_local<'a>(
    scope: Scope<'a, '_>,
    object: &Name,
    operation: &Name,
    local: Option<&Local>,
) -> OperationCallee<'a>
    ensures { (w : scopes.Scope) → IsScope scope.entry w →
        invoked_as result ≡ rules.of_local w object.now operation.now (lent_local object.now.text local.entry) }
{
    match local {
        None => outer_object(outer(scope, object.text.as_str())),
        Some(local) => {
            if may_be_object(local.role) {
                of_type(scope, operation, &local.kind)
            } else {
                OperationCallee::NoObject
            }
        }
    }
}

/// What is called by an object's name and an operation's.
pub fn invoked<'a>(scope: Scope<'a, '_>, object: &Name, operation: &Name) -> OperationCallee<'a>
    ensures { (w : scopes.Scope) → IsScope scope.entry w → invoked_as result ≡ rules.invoked w object.now operation.now }
{
    let local = scope.local(object.text.as_str());
    of_local(scope, object, operation, local)
}

// The first rule that a call of an operation breaks by its names, its use and the number of its arguments.
fn operation_rules(
    way: Use,
    object: &Name,
    operation: &Name,
    given: &[Expression],
    is: OperationCallee<'_>,
) -> Option<Breach>
    ensures { FirstOf result
        (rules.operation_rules (used_as way) object.now operation.now (exprs given.now) (invoked_as is.entry)) }
{
    match is {
        OperationCallee::UnknownObject => breaks(2, object.at),
        OperationCallee::NoObject => breaks(27, object.at),
        OperationCallee::Untyped => None,
        OperationCallee::NoOperation => breaks(28, operation.at),
        OperationCallee::AnOperation { signature } => {
            called_well(way, object.at, operation, signature, given)
        }
    }
}

/// The parameters of an operation that is called.
pub fn operation_formals(is: OperationCallee<'_>) -> &[Formal]
    ensures { result.now ≡ (rules.invoked_signature (invoked_as is.entry)).formals }
{
    match is {
        OperationCallee::AnOperation { signature } => signature.formals.as_slice(),
        _ => &[],
    }
}

// The type of what an operation gives, where it is known.
fn invoked_type(alloc: Global, is: OperationCallee<'_>) -> Result<Option<DataType>, NoMemory>
    ensures { IfOk result (λ t. t ≡ rules.result_type (rules.invoked_signature (invoked_as is.entry)).result) }
{
    match is {
        OperationCallee::AnOperation { signature } => Ok(result_type(alloc, &signature.result)?),
        _ => Ok(None),
    }
}

/// The first rule that an operation call or `WriteLine` breaks by where it stands.
pub fn acts(scope: Scope<'_, '_>, at: Place) -> Option<Breach>
    ensures { (w : scopes.Scope) → IsScope scope.entry w → FirstOf result (rules.acts w at) }
{
    lesser(
        asks(1, at, is_plain(scope.owner)),
        asks(13, at, may_invoke(scope.owner)),
    )
}

/// What was found of a call of an operation, by the first breach inside of its arguments.
pub fn operation_found(
    alloc: Global,
    scope: Scope<'_, '_>,
    way: Use,
    object: &Name,
    operation: &Name,
    given: &[Expression],
    is: OperationCallee<'_>,
    inside: Option<Breach>,
) -> Result<Found<DataType>, NoMemory>
    ensures { (w : scopes.Scope) → IsScope scope.entry w → (bs : List BreachRule) → FirstOf inside bs →
        IfOk result (λ f. Finds f
        (rules.invoke_found w (used_as way) object.now operation.now (exprs given.now) (invoked_as is.entry) bs)) }
{
    let own = operation_rules(way, object, operation, given, is);
    let gives = invoked_type(alloc, is)?;
    let first = lesser(acts(scope, object.at), lesser(own, inside));
    Ok(Found::unless(first, gives))
}
