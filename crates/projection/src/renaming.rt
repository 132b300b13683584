//! Copies of what statements are made of, with the new numbers of their variables.
ghost use Rattle.std.specs.Prelude.{◌≡◌, IfOk, map, option_map};
ghost use Rattle.bit_rows.specs.Sets.{has};
ghost use Rattle.kept_numbers.specs.Ranks.{rank};
ghost use Rattle.projection.specs.Renumbering as spec;

use c_tree::{Amount, Boxed, Expr, Init, Items, Label, Size, Target};
use kept_numbers::Renumbering;
use std::alloc::{AllocError, Global};

/// An expression with the new numbers of its variables. Err: no memory was left.
#[cycle(renaming)]
pub(crate) fn renamed(
    alloc: Global,
    e: &Expr,
    variables: &Renumbering<'_>,
) -> Result<Expr, AllocError>
    ensures { IfOk result (λ r. r ≡ spec.renamed (rank (has variables.now)) e.now) }
{
    match e {
        Expr::Constant(text, t, value) => Ok(Expr::Constant(text.copy(alloc)?, *t, *value)),
        Expr::Null => Ok(Expr::Null),
        Expr::Eof => Ok(Expr::Eof),
        Expr::Variable(x) => Ok(Expr::Variable(variables.rank(*x))),
        Expr::Unary(op, a) => Ok(Expr::Unary(*op, part(alloc, a, variables)?)),
        Expr::Deref(a) => Ok(Expr::Deref(part(alloc, a, variables)?)),
        Expr::AddressOf(a) => Ok(Expr::AddressOf(part(alloc, a, variables)?)),
        Expr::Binary(op, a, b) => Ok(Expr::Binary(
            *op,
            part(alloc, a, variables)?,
            part(alloc, b, variables)?,
        )),
        Expr::AndAlso(a, b) => Ok(Expr::AndAlso(
            part(alloc, a, variables)?,
            part(alloc, b, variables)?,
        )),
        Expr::OrElse(a, b) => Ok(Expr::OrElse(
            part(alloc, a, variables)?,
            part(alloc, b, variables)?,
        )),
        Expr::Choose(c, a, b) => Ok(Expr::Choose(
            part(alloc, c, variables)?,
            part(alloc, a, variables)?,
            part(alloc, b, variables)?,
        )),
        Expr::Cast(t, a) => Ok(Expr::Cast(*t, part(alloc, a, variables)?)),
        Expr::Index(a, i) => Ok(Expr::Index(
            part(alloc, a, variables)?,
            part(alloc, i, variables)?,
        )),
        Expr::Member(a, m) => Ok(Expr::Member(part(alloc, a, variables)?, *m)),
        Expr::Arrow(a, m) => Ok(Expr::Arrow(part(alloc, a, variables)?, *m)),
        Expr::Paren(a) => Ok(Expr::Paren(part(alloc, a, variables)?)),
    }
}

// An operand with the new numbers of its variables.
#[cycle(renaming)]
fn part(
    alloc: Global,
    e: &Boxed<Expr>,
    variables: &Renumbering<'_>,
) -> Result<Boxed<Expr>, AllocError>
    ensures { IfOk result (λ r. r ≡ spec.renamed (rank (has variables.now)) e.now) }
{
    Boxed::new(alloc, renamed(alloc, e.get(), variables)?)
}

/// The expressions with the new numbers of their variables. Err: no memory was left.
pub(crate) fn all_renamed(
    alloc: Global,
    list: &[Expr],
    variables: &Renumbering<'_>,
) -> Result<Items<Expr>, AllocError>
    ensures { IfOk result (λ all. all ≡ map (spec.renamed (rank (has variables.now))) list.now) }
{
    let mut all = Items::new(alloc);
    for e in list {
        all.push(renamed(alloc, e, variables)?)?;
    }
    Ok(all)
}

/// What a declared object begins with. Err: no memory was left.
pub(crate) fn renamed_init(
    alloc: Global,
    init: &Init,
    variables: &Renumbering<'_>,
) -> Result<Init, AllocError>
    ensures { IfOk result (λ r. r ≡ spec.renamed_init (rank (has variables.now)) init.now) }
{
    match init {
        Init::None => Ok(Init::None),
        Init::One(value) => Ok(Init::One(renamed(alloc, value, variables)?)),
        Init::Items(values) => Ok(Init::Items(all_renamed(alloc, values.as_slice(), variables)?)),
    }
}

/// Where a value is stored. Err: no memory was left.
pub(crate) fn renamed_target(
    alloc: Global,
    to: &Target,
    variables: &Renumbering<'_>,
) -> Result<Target, AllocError>
    ensures { IfOk result (λ r. r ≡ spec.renamed_target (rank (has variables.now)) to.now) }
{
    match to {
        Target::None => Ok(Target::None),
        Target::Place(place) => Ok(Target::Place(renamed(alloc, place, variables)?)),
        Target::Declared(var) => Ok(Target::Declared(variables.rank(*var))),
    }
}

// The words of a size.
fn renamed_size(alloc: Global, size: &Size, variables: &Renumbering<'_>) -> Result<Size, AllocError>
    ensures { IfOk result (λ r. r ≡ spec.renamed_size (rank (has variables.now)) size.now) }
{
    match size {
        Size::Type(shape) => Ok(Size::Type(shape.copy(alloc)?)),
        Size::Pointee(var, in_parentheses) => {
            Ok(Size::Pointee(variables.rank(*var), *in_parentheses))
        }
    }
}

/// How much memory an allocation asks for. Err: no memory was left.
pub(crate) fn renamed_amount(
    alloc: Global,
    amount: &Amount,
    variables: &Renumbering<'_>,
) -> Result<Amount, AllocError>
    ensures { IfOk result (λ r. r ≡ spec.renamed_amount (rank (has variables.now)) amount.now) }
{
    match amount {
        Amount::Size(size) => Ok(Amount::Size(renamed_size(alloc, size, variables)?)),
        Amount::CountSize(count, size) => Ok(Amount::CountSize(
            renamed(alloc, count, variables)?,
            renamed_size(alloc, size, variables)?,
        )),
        Amount::SizeCount(size, count) => Ok(Amount::SizeCount(
            renamed_size(alloc, size, variables)?,
            renamed(alloc, count, variables)?,
        )),
        Amount::Count(count) => Ok(Amount::Count(renamed(alloc, count, variables)?)),
    }
}

// A label of a switch.
fn renamed_label(
    alloc: Global,
    label: &Label,
    variables: &Renumbering<'_>,
) -> Result<Label, AllocError>
    ensures { IfOk result (λ r. r ≡ spec.renamed_label (rank (has variables.now)) label.now) }
{
    match label {
        Label::Case(value, number) => Ok(Label::Case(renamed(alloc, value, variables)?, *number)),
        Label::Default => Ok(Label::Default),
    }
}

/// The labels of an arm. Err: no memory was left.
pub(crate) fn labels_renamed(
    alloc: Global,
    labels: &[Label],
    variables: &Renumbering<'_>,
) -> Result<Items<Label>, AllocError>
    ensures { IfOk result (λ all. all ≡ map (spec.renamed_label (rank (has variables.now))) labels.now) }
{
    let mut all = Items::new(alloc);
    for label in labels {
        all.push(renamed_label(alloc, label, variables)?)?;
    }
    Ok(all)
}

/// The value of a return, where it has one. Err: no memory was left.
pub(crate) fn renamed_value(
    alloc: Global,
    value: &Option<Expr>,
    variables: &Renumbering<'_>,
) -> Result<Option<Expr>, AllocError>
    ensures { IfOk result (λ r. r ≡ option_map (spec.renamed (rank (has variables.now))) value.now) }
{
    match value {
        None => Ok(None),
        Some(e) => Ok(Some(renamed(alloc, e, variables)?)),
    }
}
