//! Makes scripts, with some of their bytes changed.

use crate::forms::{FORMS, KIND_WORDS, Sort};
use row_files::{Draws, Strings};
use std::alloc::{AllocError, Global};

/// A script of up to four lines, with up to two changes.
pub fn script(draws: &mut Draws, alloc: Global) -> Result<Vec<u8>, AllocError> {
    for _ in 0..draws.below(5) {
        put_line(draws)?;
    }
    draws.changed(alloc, Strings::Numbers)
}

fn put_line(draws: &mut Draws) -> Result<(), AllocError> {
    match draws.below(16) {
        0 => draws.put_text("# nothing\n"),
        1 => draws.put_text("\n"),
        _ => {
            put_form(draws)?;
            draws.put_text("\n")
        }
    }
}

// A line of any form. Seldom a word is left out, or one follows.
fn put_form(draws: &mut Draws) -> Result<(), AllocError> {
    let form = draws.below(8);
    let Some((first, sorts)) = FORMS.get(usize::from(form)) else {
        return Ok(());
    };
    draws.put_text(first)?;
    for sort in *sorts {
        if draws.below(32) > 0 {
            put_spaces(draws)?;
            put_word(draws, *sort)?;
        }
    }
    if draws.below(16) == 0 {
        draws.put_text(" 1")?;
    }
    Ok(())
}

// A space, now and then two.
fn put_spaces(draws: &mut Draws) -> Result<(), AllocError> {
    if draws.below(8) == 0 {
        draws.put_text("  ")
    } else {
        draws.put_text(" ")
    }
}

fn put_word(draws: &mut Draws, sort: Sort) -> Result<(), AllocError> {
    let choice = draws.below(14);
    match sort {
        Sort::Kinds => match KIND_WORDS.get(usize::from(choice)) {
            Some(kind) => draws.put(kind.as_bytes()),
            None => Ok(()),
        },
        Sort::Which if choice < 4 => draws.put_text("all"),
        _ => put_number(draws),
    }
}

// A digit above 0, or a number at the end of some range.
fn put_number(draws: &mut Draws) -> Result<(), AllocError> {
    match draws.below(24) {
        0 => draws.put_text("0"),
        1 => draws.put_text("15"),
        2 => draws.put_text("16"),
        3 => draws.put_text("100"),
        4 => draws.put_text("101"),
        5 => draws.put_text("4294967295"),
        6 => draws.put_text("4294967296"),
        7 => draws.put_text("9223372036854775807"),
        8 => draws.put_text("9223372036854775808"),
        9 => draws.put_text("9999999999999999999"),
        10 => draws.put_text("00000000000000000001"),
        _ => {
            let digit = draws.below(9).saturating_add(b'1');
            draws.put(&[digit])
        }
    }
}
