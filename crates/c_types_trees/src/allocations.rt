//! Allocations in the tree (ISO C99 7.20.3.3), where they break no rule.
ghost use Rattle.std.specs.Prelude.{◌≡◌, Some, IfOk, option_map};
ghost use Rattle.c_language.specs.Options.{IsThere};
ghost use Rattle.c_language.specs.ProgramOf as trees;
ghost use Rattle.c_language.specs.TypeGrammar.{named_type};
ghost use Rattle.c_language.specs.Uses.{counts};
ghost use Rattle.c_types_base.specs.Tables.{scope_of, AreRight};
ghost use Rattle.c_types_trees.specs.KeptPhrases.{AreOperands, AreMeasured, IsPlainName, IsPlainSize, IsPlainAmount, IsKeptAllocation};

use crate::expressions::{tree_of, variable_number};
use crate::shapes::named_shape;
use c_tree::{
    Amount, CType, RawAmount, RawSize, RawTypeName, Size, Statement, StatementId, Target,
};
use c_types_base::tables::Tables;
use std::alloc::{AllocError, Global};

/// The words of a size in the tree (6.5.3.4). Err: no memory was left.
fn size_tree(alloc: Global, tables: &Tables<'_>, size: &RawSize) -> Result<Size, AllocError>
    requires right { AreRight tables.now }
    requires plain { IsPlainSize size.now }
    requires there { IsThere (trees.size_tree tables.now.raw.now (scope_of tables.now) size.now) }
    ensures { IfOk result (λ z. trees.size_tree tables.now.raw.now (scope_of tables.now) size.now ≡ Some z) }
{
    match size {
        RawSize::Type(name) => Ok(Size::Type(named_shape(alloc, tables, name)?)),
        RawSize::Pointee(name, in_parentheses) => match variable_number(tables, name.bytes()) {
            Some(id) => Ok(Size::Pointee(id, *in_parentheses)),
            None => unreachable!(),
        },
    }
}

/// How much memory is asked for, in the tree. Err: no memory was left.
fn amount_tree(alloc: Global, tables: &Tables<'_>, amount: &RawAmount) -> Result<Amount, AllocError>
    requires right { AreRight tables.now }
    requires plain { IsPlainAmount amount.now }
    requires there { AreMeasured tables.now.raw.now (scope_of tables.now) amount.now }
    requires operands { AreOperands tables.now.raw.now (scope_of tables.now) (counts amount.now) }
    ensures { IfOk result (λ n. trees.amount_tree tables.now.raw.now (scope_of tables.now) amount.now ≡ Some n) }
{
    match amount {
        RawAmount::Size(size) => Ok(Amount::Size(size_tree(alloc, tables, size)?)),
        RawAmount::CountSize(count, size) => {
            let count = tree_of(alloc, tables, count)?;
            Ok(Amount::CountSize(count, size_tree(alloc, tables, size)?))
        }
        RawAmount::SizeCount(size, count) => {
            let size = size_tree(alloc, tables, size)?;
            Ok(Amount::SizeCount(size, tree_of(alloc, tables, count)?))
        }
        RawAmount::Count(count) => Ok(Amount::Count(tree_of(alloc, tables, count)?)),
    }
}

/// The type that an allocation is cast to, where it is. Err: no memory was left.
fn cast_shape(
    alloc: Global,
    tables: &Tables<'_>,
    cast: &Option<RawTypeName>,
) -> Result<Option<CType>, AllocError>
    requires right { AreRight tables.now }
    requires plain { IsPlainName cast.now }
    requires there { IsThere (trees.ctype_if tables.now.raw.now (option_map named_type cast.now)) }
    ensures { IfOk result (λ t. trees.ctype_if tables.now.raw.now (option_map named_type cast.now) ≡ Some t) }
{
    match cast {
        None => Ok(None),
        Some(name) => Ok(Some(named_shape(alloc, tables, name)?)),
    }
}

/// An allocation in the tree, at the scope of its amount. Err: no memory was left.
pub fn heap_tree(
    alloc: Global,
    tables: &Tables<'_>,
    id: StatementId,
    line: u32,
    target: Target,
    cast: &Option<RawTypeName>,
    amount: &RawAmount,
) -> Result<Statement, AllocError>
    requires right { AreRight tables.now }
    requires kept { IsKeptAllocation tables.now.raw.now (scope_of tables.now) cast.now amount.now }
    ensures { IfOk result (λ s. trees.heap_tree tables.now.raw.now (scope_of tables.now) id line (Some target) cast.now amount.now ≡ Some s) }
{
    let cast = cast_shape(alloc, tables, cast)?;
    let amount = amount_tree(alloc, tables, amount)?;
    Ok(Statement::Heap {
        id,
        line,
        target,
        cast,
        amount,
    })
}
