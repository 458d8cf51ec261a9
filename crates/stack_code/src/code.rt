//! The code of a program.

ghost use Rattle.std.specs.Prelude.{◌≡◌};
ghost use Rattle.stack_code.specs.Bodies.{program_shown};
ghost use Rattle.stack_code.specs.Sound.{IsWholeCode};
ghost use Rattle.stack_code.specs.Spots.{packed_spots};

use crate::bodies::{PackedBody, PackedType};
use orca_base::TextNo;

/// The code of a program: of its functions, each at its number among the names of the top level; of the texts of its processes, and which
/// of them begins; and of its object types, from number 1 on. It can't get stuck: jumps stay inside, heights of the stack agree, each way
/// back passes a turn, guards stand in operations alone, and the text that begins is there.
#[derive(Drop)]
pub struct Code<'p> {
    pub functions: Vec<Option<PackedBody<'p>>>,
    pub texts: Vec<PackedBody<'p>>,
    pub main: TextNo,
    pub types: Vec<Option<PackedType<'p>>>,
    pub ghost whole: { ∥ IsWholeCode (program_shown functions.items texts.items main types.items) ∥₁ },
}

impl<'p> Code<'p> {
    /// Code that is sound.
    pub fn new(
        functions: Vec<Option<PackedBody<'p>>>,
        texts: Vec<PackedBody<'p>>,
        main: TextNo,
        types: Vec<Option<PackedType<'p>>>,
    ) -> Code<'p>
        requires { IsWholeCode (program_shown functions.items texts.items main types.items) }
        ensures code { program_shown result.functions.items result.texts.items result.main result.types.items ≡
            program_shown functions.entry.items texts.entry.items main types.entry.items }
        ensures spots { packed_spots result.functions.items result.texts.items result.types.items ≡
            packed_spots functions.entry.items texts.entry.items types.entry.items }
    {
        Code {
            functions,
            texts,
            main,
            types,
        }
    }
}
