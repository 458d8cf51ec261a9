//! The definitions of command lines, of help and of histories, computed on worked examples.

ghost use Rattle.std.specs.Prelude.{◌≡◌, None, Option, Some, codes};
ghost use Rattle.std.specs.Str.Iter.{HasSubslice};
ghost use Rattle.command_line.specs.Command.{Command};
ghost use Rattle.command_line.specs.Help.{help_of};
ghost use Rattle.command_line.specs.declared.request.CommandName.{CommandName};
ghost use Rattle.value_core.specs.History.{HasEnded, Legal, output_of};
ghost use Rattle.meaning_rules.specs.Meanings.{computes_of, performs_of};
ghost use Rattle.meaning_rules.specs.ObjectExamples.{one_orca};
ghost use Rattle.top_tests.specs.OneCell.{book, book_of};
ghost use Rattle.top_tests.specs.Words as words;

/// What command lines ask for, one of each command: the words in full, with what isn't said filled in.
pub fn command_rows()
    ensures check { Command words.check_line ≡ Some words.check_asked }
    ensures run { Command words.run_line ≡ Some words.run_asked }
    ensures code { Command words.code_line ≡ Some words.code_asked }
    ensures noted { Command words.noted_line ≡ Some words.noted_asked }
    ensures choice { Command words.choice_line ≡ Some words.choice_asked }
    ensures replay { Command words.replay_line ≡ Some words.replay_asked }
    ensures make { Command words.make_line ≡ Some words.make_asked }
    ensures join { Command words.join_line ≡ Some words.join_asked }
{}

/// What help says: among all commands each has a line of its own, and each help has its usage line.
pub fn help_rows()
    ensures commands { (name : CommandName) → HasSubslice (help_of None) (words.help_line name) }
    ensures usage { (of : Option CommandName) → HasSubslice (help_of of) (words.usage of) }
{}

/// The four lines of the one cell's history are a history of its program, after which its process has ended; they write 6
/// and a line feed. With another call number, guard or value of the third line they are none.
pub fn one_cell_law()
    ensures legal { Legal (performs_of one_orca) (computes_of one_orca) book }
    ensures ended { HasEnded (performs_of one_orca) (computes_of one_orca) book (record { 0 = 0 }) }
    ensures output { output_of book ≡ codes "6\n" }
    ensures call { Legal (performs_of one_orca) (computes_of one_orca) (book_of 3 0 6) → ⊥ }
    ensures guard { Legal (performs_of one_orca) (computes_of one_orca) (book_of 2 1 6) → ⊥ }
    ensures value { Legal (performs_of one_orca) (computes_of one_orca) (book_of 2 0 7) → ⊥ }
{}
