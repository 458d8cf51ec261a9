//! Sources.

ghost use Rattle.std.specs.Prelude.{◌≤◌, length};
ghost use Rattle.orca_base.specs.declared.limits.TheConstants.{SOURCE_BYTES};

/// A file with its text, which is no longer than a text may be.
#[derive(Drop)]
pub struct SourceFile<'a> {
    pub name: &'a str,
    pub text: Vec<u8>,
    pub ghost short: { length text.items ≤ SOURCE_BYTES },
}
