//! What an act makes, before anything is changed.
ghost use Rattle.std.specs.Prelude.{◌≡◌, ◌∷◌, [], false, None, IfOk};
ghost use Rattle.c_acts.specs.declared.makings.Stores.TheVariants as Stores;
ghost use Rattle.c_meaning.specs.Values as spec;

use c_language::ExprType;
use c_meaning::{Place, Shown, ShownList, Value};
use c_tree::Items;
use std::alloc::{AllocError, Global};

/// The block that malloc begins: so many objects of a type.
#[derive(Debug, Drop)]
pub struct Request {
    /// The type of one object.
    pub shape: ExprType,
    /// How many they are.
    pub count: u32,
}

/// What an act stores.
#[derive(Debug, Drop)]
pub enum Stores {
    /// Nothing.
    None,
    /// A value in an object.
    One(Place, Value),
    /// In an array that is a whole block, of this length and with elements of this type, values from its first element
    /// on, and behind them 0 or null pointers.
    List(u64, u64, ExprType, Vec<Value>),
}

/// What an act changes.
#[derive(Debug, Drop)]
pub struct Change {
    /// What it stores.
    pub stores: Stores,
    /// Whether it takes a byte from the input.
    pub takes: bool,
    /// The block that it begins.
    pub begun: Option<Request>,
    /// The block that it frees.
    pub freed: Option<u64>,
    /// What the function returns.
    pub returned: Option<Value>,
}

/// What an act makes: what its event shows, what it puts out, and what it changes.
#[derive(Debug, Drop)]
pub struct Made {
    /// The values that its event shows.
    pub values: ShownList,
    /// The bytes that it writes.
    pub output: Vec<u8>,
    /// What it changes.
    pub change: Change,
}

impl Change {
    /// No change.
    pub(crate) fn none() -> Change
        ensures { result ≡ record { stores = Stores.None; takes = false; begun = None; freed = None; returned = None } }
    {
        Change {
            stores: Stores::None,
            takes: false,
            begun: None,
            freed: None,
            returned: None,
        }
    }

    /// A store in one object.
    pub(crate) fn store(place: Place, value: Value) -> Change
        ensures { result ≡ record { stores = Stores.One place value; takes = false; begun = None; freed = None; returned = None } }
    {
        Change {
            stores: Stores::One(place, value),
            takes: false,
            begun: None,
            freed: None,
            returned: None,
        }
    }
}

/// A value as an event shows it.
pub(crate) fn shown_of(value: &Value) -> Shown
    ensures { result ≡ spec.shown_of value.now }
{
    match value {
        Value::Number(number) => Shown::Number(*number),
        Value::Null => Shown::Null,
        Value::To(at) => Shown::Index(at.index),
    }
}

/// An act that shows one value and changes this.
pub(crate) fn showing(alloc: Global, value: Shown, change: Change) -> Result<Made, AllocError>
    ensures values { IfOk result (λ m. m.values ≡ value ∷ []) }
    ensures output { IfOk result (λ m. m.output.items ≡ []) }
    ensures change { IfOk result (λ m. m.change ≡ change) }
{
    let values = Items::from_slice(alloc, &[value])?;
    Ok(Made {
        values,
        output: Vec::new(alloc),
        change,
    })
}
