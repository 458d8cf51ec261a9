//! The texts that values hold.

ghost use Rattle.std.specs.Prelude.{◌≡◌, ◌<◌, ◌^◌, IfOk, length};

use orca_base::{NoMemory, Text};
use std::alloc::Global;
use std::marker::Model;
use std::sync::Arc;

/// A text behind one pointer, as values hold it, which equal values share. Clauses see it as the list of its bytes, as the text
/// itself.
#[derive(Debug, Drop)]
pub struct TextValue {
    text: Arc<Text>,
}

impl Model for TextValue {
    ghost use Rattle.std.specs.Prelude.{List, ℕ};
    ghost use Rattle.std.specs.Arc.{arc_value};

    ghost Value = { List ℕ };

    ghost view = { λ t. arc_value t.text };
}

impl TextValue {
    /// This text, put behind a pointer.
    pub fn new(alloc: Global, text: Text) -> Result<TextValue, NoMemory>
        ensures { IfOk result (λ t. t ≡ text) }
    {
        Ok(TextValue {
            text: Arc::new(alloc, text)?,
        })
    }

    /// A text with these characters.
    pub fn from_str(alloc: Global, string: &str) -> Result<TextValue, NoMemory>
        ensures { IfOk result (λ t. t ≡ string.now) }
    {
        TextValue::new(alloc, Text::from_str(alloc, string)?)
    }

    /// The same text, which is shared: it costs a count. Want of memory is answered where no more may share it.
    pub fn copy(&self) -> Result<TextValue, NoMemory>
        ensures { IfOk result (λ t. t ≡ self.now) }
    {
        Ok(TextValue {
            text: Arc::try_clone(&self.text)?,
        })
    }

    /// The text's characters.
    pub fn as_str(&self) -> &str
        ensures { result.now ≡ self.now }
    {
        self.text.as_str()
    }

    /// The text's bytes.
    pub fn as_bytes(&self) -> &[u8]
        ensures bytes { result.now ≡ self.now }
        ensures few { length self.now < 2 ^ 63 }
    {
        self.text.as_bytes()
    }
}
