//! Laws over flow by rows. Each function is a law, and holds no code: its contract is the law.
ghost use Rattle.reaching_defs.specs.Laws.{RowFlowIsFlow};

/// A law: where a skeleton is that of a program, the pairs are those of a function's order, and each
/// location that flows is listed, flow by rows is flow of the function.
pub fn row_flow_is_flow()
    ensures { RowFlowIsFlow }
{}
