//! Steps of resets.

ghost use Rattle.group_rows.specs.Resetting.{AnsweredAgain, InstallTakesBase, OwnResultSpares};

/// A Result of its own incarnation spares a member whose log reaches the base.
pub fn own_result_spares()
    ensures { OwnResultSpares }
{}

/// An install takes the base of the log that it takes, and no Nack is open behind it.
pub fn install_takes_base()
    ensures { InstallTakesBase }
{}

/// What comes again is answered again, or replaces what came before; the greatest accepted number that is reported counts.
pub fn answered_again()
    ensures { AnsweredAgain }
{}
