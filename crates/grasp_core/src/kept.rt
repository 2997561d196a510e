//! How many bytes a node keeps of what came on its streams.

ghost use Rattle.std.specs.Prelude.{◌≡◌, ◌-◌, ◌^◌, min};
ghost use Rattle.std.specs.List.{sum_by};
ghost use Rattle.grasp_core.specs.Kept.{kept_on};

use crate::streams::Stream;

/// How many bytes are kept of these streams, or `u64::MAX` where it is more.
pub(crate) fn kept_in(streams: &[Stream]) -> u64
    ensures { result ≡ min (sum_by kept_on streams.now) (2 ^ 64 - 1) }
{
    let mut total: u64 = 0;
    for stream in streams {
        total = total.saturating_add(kept_on(stream));
    }
    total
}

/// How many bytes are kept of this stream: those behind its last message, and none once it is closing.
fn kept_on(stream: &Stream) -> u64
    ensures { result ≡ kept_on stream.now }
{
    match &stream.cutter {
        Some(cutter) => cutter.waiting(),
        None => 0,
    }
}
