//! Laws of the meaning. The functions hold no code: their contracts are the laws, over the definitions of `specs/Laws`.
ghost use Rattle.c_meaning.specs.Laws.{MeaningIsSteps, EndsStay, TracesGrow, BlocksHaveOrigins};

/// A law: with each number of acts, the meaning of a program on an input is the one answer to which its small steps come.
pub fn meaning_is_steps()
    ensures { MeaningIsSteps }
{}

/// A law: an end, and an undefined act, are the same with each greater number of acts.
pub fn ends_stay()
    ensures { EndsStay }
{}

/// A law: the events and the output with fewer acts are the front of those with more.
pub fn traces_grow()
    ensures { TracesGrow }
{}

/// A law: wherever a run stands, each block of its memory has what made it, a variable or a call of malloc.
pub fn blocks_have_origins()
    ensures { BlocksHaveOrigins }
{}
