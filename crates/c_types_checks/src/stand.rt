//! The places where a declaration may stand, since some rules depend on them.
/// Where a declaration stands that is no parameter.
#[derive(Clone, Copy, Debug)]
pub enum Stand {
    /// At file scope, as static or not.
    InFile { is_static: bool },
    /// In a block, outside of switch arms.
    InBlock,
    /// Directly in an arm of a switch.
    InArm,
    /// As the first part of a for.
    InFor,
}
