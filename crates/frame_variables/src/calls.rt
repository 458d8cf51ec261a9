//! A call's variables.

ghost use Rattle.std.specs.Prelude.{◌≡◌};
ghost use Rattle.frame_variables.specs.Gives.{state_of};

use crate::frame::Frame;
use crate::run::Run;
use std::mem;

/// Other variables in place of those of a run, which are given: a call's own, and behind it its caller's again.
pub fn exchange_frame<'a>(frame: Frame<'a>, run: &mut Run<'a>) -> Frame<'a>
    ensures given { result ≡ run.old.frame }
    ensures new { state_of run.new ≡ record (state_of run.old) { frame = frame.entry } }
{
    mem::replace(&mut run.frame, frame)
}
