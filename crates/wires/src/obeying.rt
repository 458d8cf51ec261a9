//! That wires answered by their rules.

ghost use Rattle.std.specs.List.{All};
ghost use Rattle.wires.specs.Wired.{HasObeyed};

use crate::wire::Wire;

/// What each of these wires was asked since its script was loaded, it answered by its rule. It does nothing.
pub fn have_obeyed<W: Wire>(wires: &[W])
    ensures { All (λ w. HasObeyed (W.rule w) (W.loaded w) (W.told w)) wires.now }
{
    'wires: for wire in wires {
        wire.has_obeyed();
    }
}
