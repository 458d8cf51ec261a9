//! Values: what variables hold, what operations take and give.

ghost use Rattle.std.specs.Prelude.{◌≡◌, ◌↔◌, ◌<◌, ◌≤◌, ◌^◌, ◌++◌, ◌∷◌, [], Some, length, map, slice_get, slice_set, insert, remove, option_map, IsTrue, IfOk, OnOk, OnErr};
ghost use Rattle.std.specs.Option.{option_copied};
ghost use Rattle.std.specs.Borrow.{sem};
ghost use Rattle.std.specs.Arc.{arc_value};
ghost use Rattle.value_core.specs.Datum.{list_of};
ghost use Rattle.value_core.specs.Lending.{LendsPart, LendsParts};
ghost use Rattle.value_core.specs.View.{datum_of};
ghost use Rattle.value_core.specs.Order.{tag, datum_cmp, data_cmp};
ghost use Rattle.value_core.specs.OrderLaws.{parts_in};
ghost use Rattle.value_core.specs.Lengths.{told_length, value_length, values_length};

use crate::text::TextValue;
use orca_base::{NoMemory, ObjectId};
use std::alloc::Global;
use std::cmp::Ordering;
use std::marker::Model;
use std::mem;
use std::sync::Arc;

/// A value of the language, in 16 bytes: a string and a list stand behind one pointer.
#[cycle(value)]
#[derive(Debug)]
pub enum Value {
    /// An integer of 64 bits.
    Int(i64),
    /// A boolean.
    Truth(bool),
    /// A char, by its code.
    Char(u8),
    /// An enumeration's value, by its number from 0.
    Enum(u16),
    /// A string.
    Text(TextValue),
    /// An array, its parts from the low bound on.
    Array(BoxedParts),
    /// A record, its fields in order of declaration.
    Fields(BoxedParts),
    /// A set, its elements rising.
    Set(BoxedParts),
    /// A bag, its elements never falling.
    Bag(BoxedParts),
    /// The name of an object.
    Object(ObjectId),
}

const _: () = prove!(mem::size_of::<Value>() == 16);

/// A list of values, which clauses see as `Data` of specs/.
#[cycle(value)]
#[derive(Debug, Drop)]
pub struct Parts {
    items: Vec<Value>,
}

/// The values of an object's fields, in order of declaration.
pub type ObjectState = Parts;

/// A list of values behind one pointer, as values hold it, which equal values share. Clauses see it as `Data` of specs/, as the list itself.
#[cycle(value)]
#[derive(Debug, Drop)]
pub struct BoxedParts {
    parts: Arc<Parts>,
}

impl Model for Parts {
    ghost use Rattle.value_core.specs.Datum.{Data};
    ghost use Rattle.value_core.specs.Code.{data_code};

    ghost Value = { Data };

    ghost coded = { data_code };

    ghost use Rattle.value_core.specs.Sizes.{count_of_all};
    ghost use Rattle.value_core.specs.View.{data_in};

    ghost view = { λ p. data_in p.items.items };

    ghost size = { count_of_all };

    ghost use Rattle.std.proofs.Common.{arith};
    ghost use Rattle.value_core.specs.Falls.{most_le};

    ghost size_decreases = { λ p h. Prim.omega (arith, most_le p.items.items) };
}

impl Model for BoxedParts {
    ghost use Rattle.value_core.specs.Datum.{Data};
    ghost use Rattle.value_core.specs.Code.{data_code};

    ghost Value = { Data };

    ghost use Rattle.std.specs.Arc.{arc_value};

    ghost coded = { data_code };

    ghost use Rattle.std.specs.Prelude.{◌+◌};
    ghost use Rattle.value_core.specs.Sizes.{count_of_all};

    ghost view = { λ b. arc_value b.parts };

    ghost size = { λ w. count_of_all w + 1 };

    ghost use Rattle.std.proofs.Common.{arith};

    ghost size_decreases = { λ b h. Prim.omega arith };
}

impl Parts {
    /// No values.
    pub fn new(alloc: Global) -> Parts
        ensures { list_of result ≡ [] }
    {
        Parts {
            items: Vec::new(alloc),
        }
    }

    /// These values.
    pub fn from_vec(values: Vec<Value>) -> Parts
        ensures { list_of result ≡ map datum_of values.items }
    {
        Parts { items: values }
    }

    /// The values in order. It takes no memory.
    pub fn into_vec(self) -> Vec<Value>
        ensures { map datum_of result.items ≡ list_of self }
    {
        self.items
    }

    /// Whether there are no values.
    pub fn is_empty(&self) -> bool
        ensures { IsTrue result ↔ (list_of self.now ≡ []) }
    {
        self.items.is_empty()
    }

    /// How many values there are.
    pub fn len(&self) -> usize
        ensures len { result ≡ length (list_of self.now) }
        ensures few { length (list_of self.now) < 2 ^ 63 }
    {
        self.items.len()
    }

    /// The values in order.
    pub fn as_slice(&self) -> &[Value]
        ensures { map datum_of result.now ≡ list_of self.now }
    {
        self.items.as_slice()
    }

    /// The value at this index from 0, if there is one.
    pub fn get(&self, index: usize) -> Option<&Value>
        ensures { option_map datum_of (option_copied result) ≡ slice_get (list_of self.now) index }
    {
        self.items.get(index)
    }

    /// The value at this index from 0, to be changed where it stands.
    pub fn part_mut(&mut self, index: usize) -> &mut Value
        requires { index < length (list_of self.old) }
        ensures* writes_back { sem 𝓛 (LendsPart self.entry index result) }
        ensures value { slice_get (list_of self.old) index ≡ Some (datum_of result.now) }
    {
        &mut self.items[index]
    }

    /// Puts a value in place of the one at this index from 0, and gives that one.
    pub fn replace(&mut self, index: usize, value: Value) -> Value
        requires { index < length (list_of self.old) }
        ensures new { list_of self.new ≡ slice_set (list_of self.old) index (datum_of value) }
        ensures old { slice_get (list_of self.old) index ≡ Some (datum_of result) }
    {
        mem::replace(&mut self.items[index], value)
    }

    /// Puts a value in place of the one at this index from 0.
    pub fn set(&mut self, index: usize, value: Value)
        requires { index < length (list_of self.old) }
        ensures { list_of self.new ≡ slice_set (list_of self.old) index (datum_of value) }
    {
        self.replace(index, value);
    }

    /// Puts a value before the one at this index from 0, or at the end.
    pub fn insert(&mut self, index: usize, value: Value) -> Result<(), NoMemory>
        requires { index ≤ length (list_of self.old) }
        ensures ok { OnOk result (list_of self.new ≡ insert (list_of self.old) index (datum_of value)) }
        ensures err { OnErr result (self.new ≡ self.old) }
    {
        self.items.insert(index, value)?;
        Ok(())
    }

    /// Takes out the value at this index from 0.
    pub fn remove(&mut self, index: usize) -> Value
        requires { index < length (list_of self.old) }
        ensures new { list_of self.new ≡ remove (list_of self.old) index }
        ensures old { slice_get (list_of self.old) index ≡ Some (datum_of result) }
    {
        self.items.remove(index)
    }

    /// Adds a value at the end.
    pub fn push(&mut self, value: Value) -> Result<(), NoMemory>
        ensures ok { OnOk result (list_of self.new ≡ list_of self.old ++ datum_of value ∷ []) }
        ensures err { OnErr result (self.new ≡ self.old) }
    {
        self.items.push(value)?;
        Ok(())
    }

    /// Equal values.
    pub fn copy(&self, alloc: Global) -> Result<Parts, NoMemory>
        ensures { IfOk result (λ p. p ≡ self.now) }
    {
        let mut items = Vec::new(alloc);
        for value in &self.items {
            items.push(value.copy(alloc)?)?;
        }
        Ok(Parts { items })
    }

    /// How many bytes spell the values one after the other, or `u32::MAX` where there are more.
    #[cycle(lengths)]
    pub fn byte_length(&self) -> u32
        ensures { result ≡ told_length (values_length self.now) }
    {
        let mut length = 0u32;
        for value in &self.items {
            length = length.saturating_add(value.byte_length());
        }
        length
    }

    /// The order of lists of values: by values from the left, a prefix first.
    #[cycle(compares)]
    pub fn compare(&self, other: &Parts) -> Ordering
        ensures { result ≡ data_cmp self.now other.now }
    {
        for (index, one) in self.items.iter().enumerate() {
            let Some(two) = other.items.get(index) else {
                return Ordering::Greater;
            };
            let order = one.compare(two);
            if order != Ordering::Equal {
                return order;
            }
        }
        self.items.len().cmp(&other.items.len())
    }

    /// Whether both lists have the same values.
    pub fn is(&self, other: &Parts) -> bool
        ensures { IsTrue result ↔ (self.now ≡ other.now) }
    {
        self.compare(other).is_eq()
    }
}

impl BoxedParts {
    /// This list, put behind a pointer.
    pub fn new(alloc: Global, parts: Parts) -> Result<BoxedParts, NoMemory>
        ensures { IfOk result (λ b. b ≡ parts) }
    {
        Ok(BoxedParts {
            parts: Arc::new(alloc, parts)?,
        })
    }

    /// The list itself, moved out where nobody else has it, else an equal one, whose lists are shared.
    pub fn into_parts(self, alloc: Global) -> Result<Parts, NoMemory>
        ensures { IfOk result (λ p. p ≡ self) }
    {
        match Arc::try_unwrap(self.parts) {
            Ok(parts) => Ok(parts),
            Err(shared) => shared.copy(alloc),
        }
    }

    /// The list itself.
    pub fn as_parts(&self) -> &Parts
        ensures { result.now ≡ self.now }
    {
        &self.parts
    }

    /// The list itself, to be changed where it stands. Where others share it, it becomes one of its own first, whose lists are shared.
    pub fn as_parts_mut(&mut self, alloc: Global) -> Result<&mut Parts, NoMemory>
        ensures* writes_back { sem 𝓛 (LendsParts self.entry result) }
        ensures value { IfOk result (λ r. r.now ≡ self.old) }
    {
        self.unshare(alloc)?;
        match Arc::get_mut(&mut self.parts) {
            Some(parts) => Ok(parts),
            None => Err(NoMemory),
        }
    }

    // It shares the list with nobody, or memory lacks.
    fn unshare(&mut self, alloc: Global) -> Result<(), NoMemory>
        ensures { self.new ≡ self.old }
    {
        if Arc::strong_count(&self.parts) > 1 {
            self.parts = Arc::new(alloc, self.parts.copy(alloc)?)?;
        }
        Ok(())
    }

    /// The same list, which is shared: it costs a count. Want of memory is answered where no more may share it.
    pub fn copy(&self) -> Result<BoxedParts, NoMemory>
        ensures { IfOk result (λ b. b ≡ self.now) }
    {
        Ok(BoxedParts {
            parts: Arc::try_clone(&self.parts)?,
        })
    }
}

// By hand, so that a value that is dropped is one call, and isn't laid out form by form wherever that happens.
impl Drop for Value {
    #[cycle(drops)]
    fn drop(self) {
        match self {
            Value::Int(_) | Value::Truth(_) | Value::Char(_) | Value::Enum(_) | Value::Object(_) =>
                {}
            Value::Text(_text) => {}
            Value::Array(_parts) => {}
            Value::Fields(_parts) => {}
            Value::Set(_parts) => {}
            Value::Bag(_parts) => {}
        }
    }
}

impl Value {
    /// Its parts, which are the elements of a set or bag, moved out where nobody shares them; of a value that has none no parts.
    pub fn into_parts(self, alloc: Global) -> Result<Parts, NoMemory>
        ensures { IfOk result (λ p. list_of p ≡ list_of (parts_in (datum_of self))) }
    {
        match self {
            Value::Array(parts) | Value::Fields(parts) | Value::Set(parts) | Value::Bag(parts) => {
                parts.into_parts(alloc)
            }
            Value::Int(_) | Value::Truth(_) | Value::Char(_) | Value::Enum(_) | Value::Object(_) =>
                Ok(Parts::new(alloc)),
            Value::Text(_text) => Ok(Parts::new(alloc)),
        }
    }

    /// An equal value.
    pub fn copy(&self, alloc: Global) -> Result<Value, NoMemory>
        ensures { IfOk result (λ v. v ≡ self.now) }
    {
        match self {
            Value::Int(number) => Ok(Value::Int(*number)),
            Value::Truth(truth) => Ok(Value::Truth(*truth)),
            Value::Char(code) => Ok(Value::Char(*code)),
            Value::Enum(number) => Ok(Value::Enum(*number)),
            Value::Text(text) => Ok(Value::Text(text.copy()?)),
            Value::Array(parts) => Ok(Value::Array(parts.copy()?)),
            Value::Fields(parts) => Ok(Value::Fields(parts.copy()?)),
            Value::Set(parts) => Ok(Value::Set(parts.copy()?)),
            Value::Bag(parts) => Ok(Value::Bag(parts.copy()?)),
            Value::Object(object) => Ok(Value::Object(*object)),
        }
    }

    /// How many bytes spell the value, or `u32::MAX` where there are more.
    #[cycle(lengths)]
    pub fn byte_length(&self) -> u32
        ensures { result ≡ told_length (value_length (datum_of self.now)) }
    {
        match self {
            Value::Int(_) => 9,
            Value::Truth(_) | Value::Char(_) => 2,
            Value::Enum(_) => 3,
            Value::Text(text) => told(text.as_bytes().len()).saturating_add(5),
            Value::Array(parts) | Value::Fields(parts) | Value::Set(parts) | Value::Bag(parts) => {
                parts.as_parts().byte_length().saturating_add(5)
            }
            Value::Object(_) => 7,
        }
    }

    /// The order of values. Values of one type are ordered as docs/LANGUAGE.md, Values, says; values of two kinds by the
    /// order of the variants.
    #[cycle(compares)]
    pub fn compare(&self, other: &Value) -> Ordering
        ensures { result ≡ datum_cmp (datum_of self.now) (datum_of other.now) }
    {
        match (self, other) {
            (Value::Int(one), Value::Int(two)) => one.cmp(two),
            (Value::Truth(one), Value::Truth(two)) => one.cmp(two),
            (Value::Char(one), Value::Char(two)) => one.cmp(two),
            (Value::Enum(one), Value::Enum(two)) => one.cmp(two),
            (Value::Text(one), Value::Text(two)) => one.as_bytes().cmp(two.as_bytes()),
            (Value::Array(one), Value::Array(two)) => one.as_parts().compare(two.as_parts()),
            (Value::Fields(one), Value::Fields(two)) => one.as_parts().compare(two.as_parts()),
            (Value::Set(one), Value::Set(two)) => one.as_parts().compare(two.as_parts()),
            (Value::Bag(one), Value::Bag(two)) => one.as_parts().compare(two.as_parts()),
            (Value::Object(one), Value::Object(two)) => one.cmp(two),
            _ => self.tag().cmp(&other.tag()),
        }
    }

    /// Whether both values are the same.
    pub fn is(&self, other: &Value) -> bool
        ensures { IsTrue result ↔ (self.now ≡ other.now) }
    {
        self.compare(other).is_eq()
    }

    // The place of the variant, from 1.
    fn tag(&self) -> u8
        ensures { result ≡ tag (datum_of self.now) }
    {
        match self {
            Value::Int(_) => 1,
            Value::Truth(_) => 2,
            Value::Char(_) => 3,
            Value::Enum(_) => 4,
            Value::Text(_) => 5,
            Value::Array(_) => 6,
            Value::Fields(_) => 7,
            Value::Set(_) => 8,
            Value::Bag(_) => 9,
            Value::Object(_) => 10,
        }
    }
}

// A length, or `u32::MAX` where it is greater.
fn told(length: usize) -> u32
    ensures { result ≡ told_length length }
{
    if length > u32::MAX as usize {
        u32::MAX
    } else {
        length as u32
    }
}
