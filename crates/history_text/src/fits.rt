//! Lines that may be printed have a text.

ghost use Rattle.std.specs.Prelude.{◌<◌, ◌^◌, All};
ghost use Rattle.history_text.specs.Sound.{AreLines, HasNames, IsLine, IsNamed, IsPrintable, ObjectFits, PlaceFits};

use crate::names::Names;
use orca_base::{CallNo, ObjectId, ProcessNo};
use value_core::{Action, Line};

// The numbers of an object have the bits of their types.
fn object_fits(object: ObjectId)
    ensures { ObjectFits object }
{}

// So has the member that a fork names.
fn place_fits(place_on: Option<i64>)
    ensures { PlaceFits place_on }
{}

// So have the numbers of a line.
fn numbers_fit(process: ProcessNo, call: CallNo, guard: u16)
    ensures process { process.0 < 2 ^ 16 }
    ensures call { call.0 < 2 ^ 64 }
    ensures guard { guard < 2 ^ 16 }
{}

// An action whose names are known is named.
fn action_fits(names: &Names, action: &Action)
    requires { HasNames names.now action.now }
    ensures { IsNamed names.now action.now }
{
    match action {
        Action::Make { object, .. } | Action::Call { object, .. } => object_fits(*object),
        Action::Fork { place_on, .. } => place_fits(*place_on),
        Action::Ended | Action::Faulted { .. } => {}
    }
}

// A line that may be printed has a text.
fn line_fits(names: &Names, line: &Line)
    requires { IsPrintable names.now line.now }
    ensures { IsLine names.now line.now }
{
    numbers_fit(line.process, line.call, line.guard);
    action_fits(names, &line.action);
}

/// Lines that may be printed have a text: their numbers have the bits of their types. It takes no memory, and goes over the lines once; a
/// caller that prints none of them learns it so.
pub fn lines_fit(names: &Names, lines: &[Line])
    requires { All (IsPrintable names.now) lines.now }
    ensures { AreLines names.now lines.now }
{
    'lines: for line in lines {
        line_fits(names, line);
    }
}
