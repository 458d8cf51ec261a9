//! The machine performs its program's operations.

use crate::machine::CodeMachine;
use access_analysis::class_of;
use code_numbers::numbers_law;
use code_rules::code_law;
use code_runs::{make_object, try_operation};
use orca_base::{KindNo, NoMemory, OpNo};
use std::alloc::Global;
use value_core::{Class, Making, ObjectState, Parts, Performer, Tried};

impl Performer for CodeMachine<'_> {
    ghost use Rattle.std.specs.Prelude.{refl};
    ghost use Rattle.meaning_rules.specs.Fitting.{FitsArgs, FitsReply, FitsState, FitsText};
    ghost use Rattle.meaning_rules.specs.Meanings.{performs_of};
    ghost use Rattle.meaning_rules.proofs.StaysFit.{args_more, state_more, text_more};
    ghost use Rattle.program_bodies.specs.Codes.{sources};
    ghost use Rattle.machine_laws.specs.MachineLaws.{preserved, sound};
    ghost use Rattle.machine_laws.specs.ReadsKept.{read_keeps};

    ghost performs = { λ m. performs_of (sources m.tables.checked) };

    ghost fits_state = { λ m. FitsState (sources m.tables.checked) };

    ghost fits_args = { λ m. FitsArgs (sources m.tables.checked) };

    ghost fits_text = { λ m. FitsText (sources m.tables.checked) };

    ghost fits_reply = { λ m. FitsReply (sources m.tables.checked) };

    ghost output_fits = { λ m kinds. refl };

    ghost made_fits = { λ m. (preserved m.laws m.tables.checked m.within).makings };

    ghost keeps_fit = { λ m. (preserved m.laws m.tables.checked m.within).states };

    ghost replies_fit = { λ m. (preserved m.laws m.tables.checked m.within).replies };

    ghost reads_keep = { λ m kinds kind op state args reads fits given.
        read_keeps (sources m.tables.checked) kinds kind op state args reads fits given };

    ghost state_stays_fit = { λ m kinds more kind state extends fits.
        state_more (sources m.tables.checked) kinds more extends kind state fits };

    ghost args_stay_fit = { λ m kinds more kind op args extends fits.
        args_more (sources m.tables.checked) kinds more extends kind op args fits };

    ghost text_stays_fit = { λ m kinds more text args extends fits.
        text_more (sources m.tables.checked) kinds more extends text args fits };

    ghost state_sound = { λ m. (sound m.laws m.tables.checked m.within).states };

    ghost args_sound = { λ m. (sound m.laws m.tables.checked m.within).arguments };

    ghost text_sound = { λ m. (sound m.laws m.tables.checked m.within).texts };

    ghost reply_sound = { λ m. (sound m.laws m.tables.checked m.within).replies };

    fn class(&self, kind: KindNo, op: OpNo) -> Class {
        class_of(self.tables.checked(), kind, op)
    }

    fn make(&self, alloc: Global, kind: KindNo) -> Result<Making, NoMemory> {
        code_law();
        numbers_law();
        make_object(alloc, &self.code, kind)
    }

    fn try_op(
        &self,
        alloc: Global,
        kind: KindNo,
        op: OpNo,
        state: &ObjectState,
        args: &Parts,
    ) -> Result<Tried, NoMemory> {
        code_law();
        numbers_law();
        try_operation(alloc, &self.code, kind, op, state, args)
    }
}
