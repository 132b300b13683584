//! The model of dependence: locations, the vertices and edges of the system dependence graph
//! (Horwitz, Reps and Binkley 1990), and what is reached in it.
#![tactic(auto)]

mod edge;
mod facts;
mod graph;
mod graph_fault;
mod groups;
mod laws;
mod location;
mod locations;
mod pair_order;
mod points_to;
mod skeleton;
mod stretch;
mod switch_arms;
mod vertex;

pub use c_tree::{LimitName, Text};
pub use edge::{Edge, Label};
pub use facts::{Facts, WordList};
pub use graph::{EdgeList, FunctionGraph, Graph, OutRow, OutRowList};
pub use graph_fault::GraphFault;
pub use groups::{Group, StatementVertices, numbers_of};
pub use laws::{locations_are_listed_once, programs_have_one_analysis};
pub use location::{Location, LocationId, LocationPath, Part, Root};
pub use locations::Locations;
pub use pair_order::ascend;
pub use points_to::{Effects, PointsTo};
pub use rule_closure::{Closure, Rule, VertexSet};
pub use skeleton::{FlowGraph, Pair, PairList, Skeleton, VertexList};
pub use stretch::{Stretch, stretch_of};
pub use switch_arms::taken_arms;
pub use vertex::{Slot, Vertex, VertexId, VertexKind};
