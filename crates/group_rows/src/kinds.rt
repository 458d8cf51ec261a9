//! Which kind a packet of the rules travels as.

ghost use Rattle.group_rows.specs.Kinds.{IncarnationsLaw, KindsLaw};

/// What a packet that travels shows, for messages and replies of any types.
///
/// - `kinds`: the kind that it was sent with, for each of the rules' eleven kinds, so that none travels as Ask or Answer.
/// - `incarnations`: the incarnation that it was sent with.
pub fn kinds_law<M, R>()
    ensures kinds { KindsLaw M R }
    ensures incarnations { IncarnationsLaw M R }
{}
