//! What streams mean under a limit: laws as contracts of functions that do nothing.
ghost use Rattle.std.specs.Prelude.{◌≡◌, ℕ};
ghost use Rattle.fx_value.specs.Ends.{IsLimited};
ghost use Rattle.fx_meaning.specs.Meaning.{Tests};
ghost use Rattle.fx_meaning.specs.Value.{Stream};
ghost use Rattle.fx_plan.specs.Plans.{arranged};
ghost use Rattle.fx_plan.specs.Sources.{Stored};
ghost use Rattle.fx_plan.specs.Streams.{stream_meaning, yield_meaning};

/// The law of the limit: a stream and its yield end within their limit or are More, and an end
/// stays the same under each greater limit. So there is one end at most.
pub fn streams_are_limited()
    ensures tables { (test : Tests) (stored : Stored) (call : Stream) → IsLimited (stream_meaning test stored call) }
    ensures shown { (test : Tests) (stored : Stored) (call : Stream) → IsLimited (yield_meaning test stored call) }
{}

/// The law of order: a stream with the functions of rows of each call behind its other arguments
/// has the same tables, faults and ticks.
pub fn arranged_streams_mean_the_same()
    ensures { (test : Tests) (stored : Stored) (call : Stream) (limit : ℕ) → stream_meaning test stored (arranged call) limit ≡ stream_meaning test stored call limit }
{}
