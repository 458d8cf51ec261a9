//! The texts of files, line by line.

use orca_base::NoMemory;
use orca_front::SourceFile;
use std::alloc::Global;
use std::str;

/// A file's text, cut at its lines.
#[derive(Drop)]
pub struct Sheet<'a> {
    name: &'a str,
    lines: Vec<&'a str>,
}

// The lines of a file's text. A text that isn't UTF-8 has none.
fn sheet_of<'a>(alloc: Global, file: &'a SourceFile<'a>) -> Result<Sheet<'a>, NoMemory> {
    let mut lines = Vec::new(alloc);
    if let Ok(text) = str::from_utf8(&file.text) {
        for line in text.lines() {
            lines.push(line)?;
        }
    }
    Ok(Sheet {
        name: file.name,
        lines,
    })
}

/// Those of files.
pub fn sheets<'a>(alloc: Global, files: &'a [SourceFile<'a>]) -> Result<Vec<Sheet<'a>>, NoMemory> {
    let mut all = Vec::new(alloc);
    for file in files {
        all.push(sheet_of(alloc, file)?)?;
    }
    Ok(all)
}

/// The line of this number, from 1, of the file with this name, where it has one.
pub fn line_of<'a>(sheets: &[Sheet<'a>], file: &str, line: u32) -> Option<&'a str> {
    let sheet = sheets.iter().find(|sheet| sheet.name == file)?;
    let place = line.checked_sub(1)?;
    sheet.lines.get(place as usize).copied()
}
