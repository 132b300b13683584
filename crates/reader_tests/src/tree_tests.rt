//! Tests that statements are found by their numbers, and that a copy prints as what it is a copy of.
use c_tree::numbered::{Start, own_start, statement};
use c_tree::{
    Amount, Arm, Boxed, CType, Expr, Function, Init, IntType, Item, Items, Label, Member, Program,
    Size, Statement, StructDef, Target, Text, Var,
};
use std::alloc::{AllocError, Global};
use std::fmt::Debug;

fn seven(alloc: Global) -> Result<Expr, AllocError> {
    let spelling = Text::from_slice(alloc, b"07u")?;
    Ok(Expr::Constant(spelling, IntType::UInt, 7))
}

fn one<T: Drop>(alloc: Global, item: T) -> Result<Items<T>, AllocError> {
    let mut items = Items::new(alloc);
    items.push(item)?;
    Ok(items)
}

fn two<T: Drop>(alloc: Global, first: T, second: T) -> Result<Items<T>, AllocError> {
    let mut items = one(alloc, first)?;
    items.push(second)?;
    Ok(items)
}

fn returns(id: u32, line: u32) -> Statement {
    Statement::Return {
        id,
        line,
        value: None,
    }
}

fn counter(id: u32, line: u32) -> Statement {
    Statement::Bump {
        id,
        line,
        left: Expr::Variable(0),
        up: true,
        before: false,
    }
}

fn bare() -> Statement {
    Statement::Declare {
        id: None,
        line: 1,
        var: 0,
        init: Init::None,
    }
}

fn case(alloc: Global) -> Result<Arm, AllocError> {
    let value = seven(alloc)?;
    let labels = one(alloc, Label::Case(value, 7))?;
    let body = one(alloc, counter(8, 8))?;
    Ok(Arm { labels, body })
}

fn default(alloc: Global) -> Result<Arm, AllocError> {
    let labels = one(alloc, Label::Default)?;
    let body = one(alloc, returns(9, 9))?;
    Ok(Arm { labels, body })
}

/// `switch` on line 7 with two arms, each of one statement.
fn switch(alloc: Global) -> Result<Statement, AllocError> {
    let first = case(alloc)?;
    let last = default(alloc)?;
    let arms = two(alloc, first, last)?;
    Ok(Statement::Switch {
        id: 7,
        line: 7,
        test: Expr::Variable(0),
        arms,
    })
}

/// The declaration that begins the loop on line 6.
fn beginning(alloc: Global) -> Result<Boxed<Statement>, AllocError> {
    let value = seven(alloc)?;
    let declared = Statement::Declare {
        id: Some(5),
        line: 6,
        var: 1,
        init: Init::One(value),
    };
    Boxed::new(alloc, declared)
}

/// A loop on line 6 with its first part, its step and a body.
fn counting(alloc: Global) -> Result<Statement, AllocError> {
    let repeated = switch(alloc)?;
    let body = one(alloc, repeated)?;
    let first = beginning(alloc)?;
    let step = Boxed::new(alloc, counter(6, 6))?;
    Ok(Statement::For {
        id: 4,
        line: 6,
        init: Some(first),
        test: Expr::Variable(1),
        step: Some(step),
        body,
    })
}

/// `while` on line 3.
fn repeating(alloc: Global) -> Result<Items<Statement>, AllocError> {
    let body = one(alloc, counter(3, 4))?;
    let repeated = Statement::While {
        id: 2,
        line: 3,
        test: Expr::Variable(0),
        body,
    };
    one(alloc, repeated)
}

/// `if` on line 3, with a loop in each branch.
fn choice(alloc: Global) -> Result<Statement, AllocError> {
    let repeated = counting(alloc)?;
    let other = one(alloc, repeated)?;
    let then = repeating(alloc)?;
    Ok(Statement::If {
        id: 1,
        line: 3,
        test: Expr::Variable(0),
        then,
        other,
    })
}

/// A declaration without initialiser, and the statements 0 to 9 in a bare block.
fn first_body(alloc: Global) -> Result<Items<Statement>, AllocError> {
    let last = choice(alloc)?;
    let body = two(alloc, counter(0, 2), last)?;
    two(alloc, bare(), Statement::Block { line: 2, body })
}

fn function(alloc: Global, body: Items<Statement>) -> Function {
    Function {
        name: Text::new(alloc),
        result: None,
        params: Items::new(alloc),
        body,
        is_static: true,
        line: 1,
    }
}

/// Two functions, the second of one statement.
fn nested(alloc: Global) -> Result<Program, AllocError> {
    let first = first_body(alloc)?;
    let last = one(alloc, returns(10, 13))?;
    let functions = two(alloc, function(alloc, first), function(alloc, last))?;
    Ok(Program {
        items: Items::new(alloc),
        vars: Items::new(alloc),
        structs: Items::new(alloc),
        functions,
        statements: 11,
    })
}

#[test]
fn finds_statements(rt: HostRuntime) -> Result<(), AllocError> {
    let program = nested(rt.alloc())?;
    let lines = [2, 3, 3, 4, 6, 6, 6, 7, 8, 9, 13];
    for (id, line) in lines.iter().enumerate() {
        let id = id as u32;
        match statement(&program, id) {
            Some(found) => assert_eq!(rt; own_start(found), Some(Start { id, line: *line })),
            None => assert!(rt; false, "no statement {id}"),
        }
    }
    assert!(rt; statement(&program, 11).is_none());
    Ok(())
}

#[test]
fn starts_none(rt: HostRuntime) {
    assert_eq!(rt; own_start(&bare()), None);
    let block = Statement::Block {
        line: 2,
        body: Items::new(rt.alloc()),
    };
    assert_eq!(rt; own_start(&block), None);
}

/// `(*v3)[v0]`
fn element(alloc: Global) -> Result<Expr, AllocError> {
    let pointer = Boxed::new(alloc, Expr::Variable(3))?;
    let pointed = Boxed::new(alloc, Expr::Deref(pointer))?;
    let array = Boxed::new(alloc, Expr::Paren(pointed))?;
    let at = Boxed::new(alloc, Expr::Variable(0))?;
    Ok(Expr::Index(array, at))
}

/// `int *[2]`, with the length as it is spelled.
fn pointers(alloc: Global) -> Result<CType, AllocError> {
    let target = Boxed::new(alloc, CType::Integer(IntType::Int))?;
    let pointer = Boxed::new(alloc, CType::PointerTo(target))?;
    let words = Text::from_slice(alloc, b"1 + 1")?;
    Ok(CType::Array(pointer, 2, words))
}

fn target(alloc: Global) -> Result<Target, AllocError> {
    let place = element(alloc)?;
    Ok(Target::Place(place))
}

fn init(alloc: Global) -> Result<Init, AllocError> {
    let value = seven(alloc)?;
    let values = two(alloc, Expr::Null, value)?;
    Ok(Init::Items(values))
}

fn amount(alloc: Global) -> Result<Amount, AllocError> {
    let shape = pointers(alloc)?;
    Ok(Amount::CountSize(Expr::Variable(2), Size::Type(shape)))
}

fn label(alloc: Global) -> Result<Label, AllocError> {
    let value = seven(alloc)?;
    Ok(Label::Case(value, 7))
}

fn var(alloc: Global) -> Result<Var, AllocError> {
    let shape = pointers(alloc)?;
    Ok(Var {
        name: Text::new(alloc),
        shape,
        line: 3,
        is_static: true,
        owner: Some(1),
        is_parameter: false,
    })
}

fn node(alloc: Global) -> Result<StructDef, AllocError> {
    let target = Boxed::new(alloc, CType::Struct(0))?;
    let next = Member {
        name: Text::new(alloc),
        shape: CType::PointerTo(target),
    };
    let members = one(alloc, next)?;
    Ok(StructDef {
        name: Text::new(alloc),
        members,
    })
}

fn prototype(alloc: Global) -> Result<Item, AllocError> {
    let name = Text::from_slice(alloc, b"n")?;
    let names = two(alloc, Some(name), None)?;
    Ok(Item::Prototype {
        function: 1,
        names,
        is_static: false,
    })
}

/// What can be copied.
trait Copies: Drop {
    fn duplicate(&self, alloc: Global) -> Result<Self, AllocError>;
}

impl Copies for Expr {
    fn duplicate(&self, alloc: Global) -> Result<Expr, AllocError> {
        self.copy(alloc)
    }
}

impl Copies for Init {
    fn duplicate(&self, alloc: Global) -> Result<Init, AllocError> {
        self.copy(alloc)
    }
}

impl Copies for Target {
    fn duplicate(&self, alloc: Global) -> Result<Target, AllocError> {
        self.copy(alloc)
    }
}

impl Copies for Amount {
    fn duplicate(&self, alloc: Global) -> Result<Amount, AllocError> {
        self.copy(alloc)
    }
}

impl Copies for Label {
    fn duplicate(&self, alloc: Global) -> Result<Label, AllocError> {
        self.copy(alloc)
    }
}

impl Copies for Var {
    fn duplicate(&self, alloc: Global) -> Result<Var, AllocError> {
        self.copy(alloc)
    }
}

impl Copies for StructDef {
    fn duplicate(&self, alloc: Global) -> Result<StructDef, AllocError> {
        self.copy(alloc)
    }
}

impl Copies for Item {
    fn duplicate(&self, alloc: Global) -> Result<Item, AllocError> {
        self.copy(alloc)
    }
}

/// Whether a value and its copy print the same text.
fn is_alike<T: Copies + Debug>(alloc: Global, value: T) -> Result<bool, AllocError> {
    let copy = value.duplicate(alloc)?;
    let printed = format!(in alloc; "{copy:?}")?;
    let wanted = format!(in alloc; "{value:?}")?;
    Ok(printed == wanted)
}

#[test]
fn copies_alike(rt: HostRuntime) -> Result<(), AllocError> {
    assert!(rt; is_alike(rt.alloc(), element(rt.alloc())?)?);
    assert!(rt; is_alike(rt.alloc(), init(rt.alloc())?)?);
    assert!(rt; is_alike(rt.alloc(), target(rt.alloc())?)?);
    assert!(rt; is_alike(rt.alloc(), amount(rt.alloc())?)?);
    assert!(rt; is_alike(rt.alloc(), label(rt.alloc())?)?);
    Ok(())
}

#[test]
fn declarations_alike(rt: HostRuntime) -> Result<(), AllocError> {
    assert!(rt; is_alike(rt.alloc(), var(rt.alloc())?)?);
    assert!(rt; is_alike(rt.alloc(), node(rt.alloc())?)?);
    assert!(rt; is_alike(rt.alloc(), prototype(rt.alloc())?)?);
    Ok(())
}

#[test]
fn copies_parts(rt: HostRuntime) -> Result<(), AllocError> {
    let copy = seven(rt.alloc())?.copy(rt.alloc())?;
    match &copy {
        Expr::Constant(text, IntType::UInt, 7) => assert_eq!(rt; text.bytes(), b"07u".as_slice()),
        _ => assert!(rt; false, "another expression"),
    }
    Ok(())
}

#[test]
fn copies_types(rt: HostRuntime) -> Result<(), AllocError> {
    let copy = pointers(rt.alloc())?.copy(rt.alloc())?;
    match &copy {
        CType::Array(_, 2, words) => assert_eq!(rt; words.bytes(), b"1 + 1".as_slice()),
        _ => assert!(rt; false, "another type"),
    }
    Ok(())
}
