//! A kept file.

ghost use Rattle.std.specs.Prelude.{◌≤◌, length};
ghost use Rattle.orca_base.specs.declared.limits.TheConstants.{SOURCE_BYTES};

/// A file that was read, with its text, which is no longer than one of a program may be.
#[derive(Drop)]
pub struct KeptFile {
    pub name: String,
    pub text: Vec<u8>,
    pub ghost short: { length text.items ≤ SOURCE_BYTES },
}
