//! The loops that are open.

ghost use Rattle.std.specs.Prelude.{◌≡◌, bytes_eq};
ghost use Rattle.std.specs.List.{list_any};
ghost use Rattle.access_analysis.specs.Loops.{variables_of};

/// The variables of the loops that are open where a phrase stands, the innermost first.
#[derive(Clone, Copy)]
pub enum Loops<'a> {
    /// No loop is open.
    Outside,
    /// In a loop with this variable, which stands in these.
    Inside {
        variable: &'a str,
        outer: &'a Loops<'a>,
    },
}

/// Whether a name is the variable of a loop that is open.
pub fn counts(loops: &Loops<'_>, name: &str) -> bool
    ensures { result ≡ list_any (λ n. bytes_eq n name.now) (variables_of loops.now) }
{
    match loops {
        Loops::Outside => false,
        Loops::Inside { variable, outer } => *variable == name || counts(outer, name),
    }
}
