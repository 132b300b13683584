//! Letting values go.

/// Lets a value go, of whatever type. Where a reader stops with a tree in hand, it lets the tree go by this call: what
/// that does is proved here once for all types, and not at each such exit anew, variant by variant.
pub(crate) fn let_go<T: Drop>(_value: T) {}
