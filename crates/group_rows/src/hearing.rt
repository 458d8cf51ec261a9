//! What ends a member's silence, and what a sequencer knows of what the others applied.

ghost use Rattle.group_rows.specs.Hearing.{
  GathersAnew,
  LateMemberIsSpared,
  OldReport,
  SequencerIsHeard,
  SequencerSilence,
};

/// Any packet of the installed incarnation from its sequencer ends a member's silence, and no other does.
pub fn sequencer_is_heard()
    ensures { SequencerIsHeard }
{}

/// A sequencer isn't silent once its accepted number rises. A tentative entry leaves its silence, and so does its install.
pub fn sequencer_silence()
    ensures { SequencerSilence }
{}

/// A coordinator that gathers and is due, or suspects, coordinates the next incarnation.
pub fn gathers_anew()
    ensures { GathersAnew }
{}

/// A purge leaves what a member that didn't answer lacks, once the sequencer heard of it.
pub fn late_member_is_spared()
    ensures { LateMemberIsSpared }
{}

/// A report that is older than what was heard lowers nothing.
pub fn old_report()
    ensures { OldReport }
{}
