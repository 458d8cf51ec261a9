//! The lines of a table, by the mark that they begin with.

/// A line of a table.
#[derive(Clone, Copy)]
pub enum Row<'a> {
    /// `=> WORDS`: a case begins, of a call with these words.
    Call { words: &'a str },
    /// `-- WHY`: what the case is about.
    Why { text: &'a str },
    /// `++ GIVEN`: how the call is made.
    Given { text: &'a str },
    /// `?? ASK`: what else is wanted of the call.
    Ask { text: &'a str },
    /// `== NAME`: a file begins.
    File { name: &'a str },
    /// `<< NAME`: the text of a file of data/.
    Insert { name: &'a str },
    /// `@@ COUNT WHAT`: the same again and again.
    Repeat { text: &'a str },
    /// `!! END`: the case is wrong on purpose, and what is told of it ends so.
    Told { end: &'a str },
    /// `## NOTE`: behind a case, and for readers alone.
    Note,
    /// A line of a text.
    Text { line: &'a str },
    /// A mark without what belongs to it.
    Wrong,
}

const MARKS: [&str; 9] = ["=>", "--", "++", "??", "==", "<<", "@@", "!!", "##"];

/// What a line is. A mark stands at its beginning, with one space behind it; `=>` alone is a call without words.
pub fn row_of(line: &str) -> Row<'_> {
    if line == "=>" {
        return Row::Call { words: "" };
    }
    let (mark, text) = line.split_once(' ').unwrap_or((line, ""));
    if text.is_empty() {
        return text_row(line);
    }
    match mark {
        "=>" => Row::Call { words: text },
        "--" => Row::Why { text },
        "++" => Row::Given { text },
        "??" => Row::Ask { text },
        "==" => Row::File { name: text },
        "<<" => Row::Insert { name: text },
        "@@" => Row::Repeat { text },
        "!!" => Row::Told { end: text },
        "##" => Row::Note,
        _ => text_row(line),
    }
}

// A line of a text, which begins with no mark.
fn text_row(line: &str) -> Row<'_> {
    for mark in MARKS {
        if line.starts_with(mark) {
            return Row::Wrong;
        }
    }
    Row::Text { line }
}
