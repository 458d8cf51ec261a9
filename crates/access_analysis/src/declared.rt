//! Names that are declared.

ghost use Rattle.std.specs.Prelude.{◌≡◌, bytes_eq, map};
ghost use Rattle.std.specs.List.{list_any};
ghost use Rattle.orca_syntax.specs.Shown.{typed_name, variables};
ghost use Rattle.access_analysis.specs.Sites.{are_given, declare};

use orca_tree::{Name, TypedName, Variables};

// Whether a text is one of these names.
fn is_among(names: &[Name], text: &str) -> bool
    ensures { result ≡ list_any (λ n. bytes_eq n.text text.now) names.now }
{
    'names: for name in names {
        if name.text.as_str() == text {
            return true;
        }
    }
    false
}

/// Whether variables or fields have a name.
pub fn declares(groups: &[Variables], text: &str) -> bool
    ensures { result ≡ declare (map variables groups.now) text.now }
{
    'groups: for group in groups {
        if is_among(&group.names, text) {
            return true;
        }
    }
    false
}

/// Whether the parameters of an operation have a name.
pub fn takes(values: &[TypedName], text: &str) -> bool
    ensures { result ≡ are_given (map typed_name values.now) text.now }
{
    'values: for value in values {
        if value.name.text.as_str() == text {
            return true;
        }
    }
    false
}
