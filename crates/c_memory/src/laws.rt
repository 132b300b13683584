//! Laws of the evaluator. The functions hold no code: their contracts are the laws, over the definitions of `specs/Laws`.
ghost use Rattle.c_memory.specs.Laws.{FrameAndMemoryDecide};

/// A law: what an expression gives is decided by the blocks of the variables and by the memory, whatever else a state
/// has.
pub fn frame_and_memory_decide()
    ensures { FrameAndMemoryDecide }
{}
