//! Brackets, and the lists that stand in them.

ghost use Rattle.std.specs.Prelude.{◌≡◌};
ghost use Rattle.value_core.specs.View.{datum_of};
ghost use Rattle.value_texts.specs.Reading.{closing, may_follow, opened_by, within};

use value_core::{BoxedParts, Value};

/// The brackets of a list in a text.
#[derive(Clone, Copy, Debug, PartialEq, Eq)]
pub enum Brackets {
    /// `[ ]`, of an array.
    Square,
    /// `( )`, of a record.
    Round,
    /// `{ }`, of a set.
    Curly,
    /// `< >`, of a bag.
    Pointed,
}

impl Brackets {
    // The brackets that a byte opens.
    #[tactic(auto, unfolding(crate::specs::Reading::opened_by))]
    pub(crate) fn opened_by(byte: u8) -> Option<Brackets>
        ensures { result ≡ opened_by byte }
    {
        match byte {
            b'[' => Some(Brackets::Square),
            b'(' => Some(Brackets::Round),
            b'{' => Some(Brackets::Curly),
            b'<' => Some(Brackets::Pointed),
            _ => None,
        }
    }

    // The byte that closes them.
    pub(crate) fn closing(self) -> u8
        ensures { result ≡ closing self }
    {
        match self {
            Brackets::Square => b']',
            Brackets::Round => b')',
            Brackets::Curly => b'}',
            Brackets::Pointed => b'>',
        }
    }

    // What stands in them.
    pub(crate) fn value(self, parts: BoxedParts) -> Value
        ensures { datum_of result ≡ within self parts }
    {
        match self {
            Brackets::Square => Value::Array(parts),
            Brackets::Round => Value::Fields(parts),
            Brackets::Curly => Value::Set(parts),
            Brackets::Pointed => Value::Bag(parts),
        }
    }

    // Whether the part may stand behind the one before it.
    pub(crate) fn may_follow(self, last: &Value, part: &Value) -> bool
        ensures { result ≡ may_follow self (datum_of last.now) (datum_of part.now) }
    {
        match self {
            Brackets::Square | Brackets::Round => true,
            Brackets::Curly => last.compare(part).is_lt(),
            Brackets::Pointed => !part.compare(last).is_lt(),
        }
    }
}
