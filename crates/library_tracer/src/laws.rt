//! What a mask tells. The function does nothing: its contract is a theorem.

ghost use Rattle.library_tracer.specs.ClearBits.{ClearBitsKeepNumbers, ClearBitsKeepTheMask, ClearBitsOnlyTick};

/// A clear bit of a mask: emissions of its event change the clock alone. As long as only such emissions are done after the commands that the mask is of,
/// by name or by values, of any of the events and by any thread, nothing but the clock changes (`ticks`), the mask stays the same, but for its number of
/// commands (`mask`), and an event keeps its number (`numbers`). Any other command may make an event wanted.
pub fn clear_bits_only_tick()
    ensures ticks { ClearBitsOnlyTick }
    ensures mask { ClearBitsKeepTheMask }
    ensures numbers { ClearBitsKeepNumbers }
{}
