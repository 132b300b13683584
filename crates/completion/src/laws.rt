//! A law of completions. The function is a law, and holds no code: its contract is the law.
ghost use Rattle.completion.specs.Laws as law;

/// A law, for programs of every form: in the shaped graph of a program, the completion of what reaches a criterion's vertices can be
/// projected. It is closed, and has the formal-in of each argument whose actual-in it has.
pub fn completions_are_projectable()
    ensures { law.CompletionsAreProjectable }
{}
