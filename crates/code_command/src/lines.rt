//! Notes that are lines.

ghost use Rattle.std.specs.Prelude.{◌≡◌};
ghost use Rattle.std.specs.List.{list_all};
ghost use Rattle.code_command.specs.Lines.{is_line};

use orca_base::Text;

// Whether a note is a line.
fn is_line(note: &Text) -> bool
    ensures { result ≡ is_line note.now }
{
    !note.as_bytes().contains(&b'\n')
}

// Whether each of the notes in front of a line is one.
fn row_is_lines(row: &[Text]) -> bool
    ensures { result ≡ list_all is_line row.now }
{
    row.iter().all(|note| is_line(note))
}

/// Whether each note is a line.
pub fn are_lines(rows: &[Vec<Text>]) -> bool
    ensures { result ≡ list_all (λ own. list_all is_line own.items) rows.now }
{
    rows.iter().all(|row| row_is_lines(row))
}
