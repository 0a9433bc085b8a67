//! A refusal from below, as the layer above tells it.
ghost use Rattle.std.specs.Prelude.{◌≡◌};
ghost use Rattle.layers.specs.Depth.{up};

use charset::SetRefusal;

/// The refusal one layer up: of the same cause, its depth one more, but at most 255.
pub fn from_below(refusal: SetRefusal) -> SetRefusal
    ensures { result ≡ up refusal }
{
    SetRefusal {
        depth: refusal.depth.saturating_add(1),
        ..refusal
    }
}
