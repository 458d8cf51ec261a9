//! Whole runs, step by step, which the check computes.

ghost use Rattle.world_rules.specs.LostEntry.{LostEntry};
ghost use Rattle.world_rules.specs.OneCell.{OneCell};

/// One cell on three members, of which one acknowledges: 22 steps, 15 packets, a book of four lines.
pub fn one_cell_on_three_members()
    ensures { OneCell }
{}

/// An entry that is lost and asked for, and a read at an earlier view, which stands before an entry that its member had applied: 17
/// steps, 8 packets, a book of six lines.
pub fn lost_entry_and_early_read()
    ensures { LostEntry }
{}
