//! Trees of types that carry how deep their declarators nest, and the base types that they are built on.
ghost use Rattle.std.specs.Prelude.{◌≡◌, ◌+◌, ◌<◌, ◌^◌, IfOk, max};
ghost use Rattle.c_language.specs.Nesting.{nesting, type_nesting};

use crate::nested::Nested;
use c_tree::{Boxed, IntType, RawLength, RawType, Text};
use std::alloc::{AllocError, Global};
use std::marker::Model;

/// What a type is that stands before declarators.
#[derive(Drop)]
pub enum BaseForm {
    /// An integer type.
    Integer(IntType),
    /// A struct type by its tag.
    Struct(Text),
}

/// The type that stands before declarators.
#[derive(Drop)]
pub struct Base {
    form: BaseForm,
}

impl Model for Base {
    ghost use Rattle.c_tree.specs.declared.raw.expr.RawType.{RawType};
    ghost use Rattle.c_parse_expr.specs.TypeReading.{base_type};

    ghost Value = { RawType };

    ghost use Rattle.c_tree.specs.contracts.raw.expr.RawType as stored;
    ghost use Rattle.std.specs.Coded.{codes};

    ghost coded = { Prim.hlevel (codes, stored.the_row.coded) };

    ghost view = { λ b. base_type b.form };
}

/// A type with the nesting of its declarator.
#[derive(Drop)]
pub struct Shape {
    shape: RawType,
    height: usize,
}

impl Model for Shape {
    ghost use Rattle.std.specs.Prelude.{◌≡◌};
    ghost use Rattle.c_tree.specs.declared.raw.expr.RawType.{RawType};
    ghost use Rattle.c_language.specs.Nesting.{type_nesting};

    ghost Value = { RawType };

    ghost use Rattle.c_tree.specs.contracts.raw.expr.RawType as stored;
    ghost use Rattle.std.specs.Coded.{codes};

    ghost coded = { Prim.hlevel (codes, stored.the_row.coded) };

    ghost view = { λ s. s.shape };

    ghost invariant = { λ s. s.height ≡ type_nesting s.shape };
}

impl Base {
    /// An integer type.
    pub fn integer(to: IntType) -> Base
        ensures { result ≡ RawType.Integer to }
    {
        Base {
            form: BaseForm::Integer(to),
        }
    }

    /// The struct type with this tag.
    pub fn structure(tag: Text) -> Base
        ensures { result ≡ RawType.Struct tag }
    {
        Base {
            form: BaseForm::Struct(tag),
        }
    }

    /// Its tree, taken out.
    pub fn into_type(self) -> RawType
        ensures { result ≡ self }
    {
        match self.form {
            BaseForm::Integer(to) => RawType::Integer(to),
            BaseForm::Struct(tag) => RawType::Struct(tag),
        }
    }

    /// The type by itself, for one more declarator.
    pub fn shape(&self, alloc: Global) -> Result<Shape, AllocError>
        ensures same { IfOk result (λ s. s ≡ self.now) }
        ensures flat { IfOk result (λ s. type_nesting s ≡ 0) }
    {
        let shape = match &self.form {
            BaseForm::Integer(to) => RawType::Integer(*to),
            BaseForm::Struct(tag) => RawType::Struct(tag.copy(alloc)?),
        };
        Ok(Shape { shape, height: 0 })
    }
}

impl Shape {
    /// How deep its declarator nests.
    pub fn height(&self) -> usize
        ensures { result ≡ type_nesting self.now }
    {
        self.height
    }

    /// Its tree, taken out.
    pub fn into_type(self) -> RawType
        ensures { result ≡ self }
    {
        self.shape
    }

    /// A pointer to it; fails where memory runs out, as do the arrays.
    pub fn pointer(self, alloc: Global) -> Result<Shape, AllocError>
        requires { type_nesting self + 1 < 2 ^ 64 }
        ensures { IfOk result (λ s. s ≡ RawType.PointerTo self) }
    {
        let height = self.height + 1;
        Ok(Shape {
            shape: RawType::PointerTo(Boxed::new(alloc, self.shape)?),
            height,
        })
    }

    /// An array of it with this length.
    pub fn array(self, alloc: Global, length: Nested) -> Result<Shape, AllocError>
        requires { max (nesting length) (type_nesting self) + 1 < 2 ^ 64 }
        ensures { IfOk result (λ s. s ≡ RawType.Array self (RawLength.Written length)) }
    {
        let height = (length.height() as usize).max(self.height) + 1;
        let element = Boxed::new(alloc, self.shape)?;
        Ok(Shape {
            shape: RawType::Array(element, RawLength::Written(length.into_expr())),
            height,
        })
    }

    /// An array whose length a list gives.
    pub fn listed(self, alloc: Global) -> Result<Shape, AllocError>
        requires { type_nesting self + 1 < 2 ^ 64 }
        ensures { IfOk result (λ s. s ≡ RawType.Array self RawLength.Listed) }
    {
        let height = self.height + 1;
        Ok(Shape {
            shape: RawType::Array(Boxed::new(alloc, self.shape)?, RawLength::Listed),
            height,
        })
    }
}
