//! The table of all operations.

ghost use Rattle.std.specs.Prelude.{◌≡◌, ◌≢◌, ◌↔◌, ℕ, List, ◌∷◌, ◌++◌, [], map, Some, None, IsTrue, IfOk, OnOk};
ghost use Rattle.std.specs.List.{Contains};
ghost use Rattle.hs_ops.specs.declared.operation.Operation.{Operation};
ghost use Rattle.hs_ops.specs.Known.{is_known};
ghost use Rattle.hs_ops.specs.Names.{name_of};
ghost use Rattle.hs_ops.specs.Table.{operation_named};
ghost use Rattle.hs_ops.specs.Standard.{entry_for, standard_operations, standard_table, rows_of, for_kind, for_kinds, for_tuple, for_tuples};

use crate::known::is_known;
use crate::name::name_of;
use crate::operation::{NumberOp, Operation, SingleOp};
use crate::row::row_of;
use crate::table::{Entry, OpTable};
use hs_base::memory::NoMemory;
use hs_base::name::Name;
use hs_words::IntTy;
use sqlite_items::Items;
use std::alloc::Global;

/// How many operations there are.
pub const OPS: usize = 639;

/// The operations that there are once, in the order of their names: those before the signed kinds.
const FIRST_SINGLES: [Operation; 3] = [
    Operation::Single(SingleOp::BoolNot),
    Operation::Single(SingleOp::Clone),
    Operation::Single(SingleOp::Differ),
];

/// Those before the secret kinds.
const MIDDLE_SINGLES: [Operation; 20] = [
    Operation::Single(SingleOp::OptIsNone),
    Operation::Single(SingleOp::OptIsSome),
    Operation::Single(SingleOp::OptUnwrap),
    Operation::Single(SingleOp::Concat),
    Operation::Single(SingleOp::GetChunk),
    Operation::Single(SingleOp::Item),
    Operation::Single(SingleOp::Len),
    Operation::Single(SingleOp::ListOf),
    Operation::Single(SingleOp::Make),
    Operation::Single(SingleOp::NumChunks),
    Operation::Single(SingleOp::Push),
    Operation::Single(SingleOp::Put),
    Operation::Single(SingleOp::Set),
    Operation::Single(SingleOp::SetChunk),
    Operation::Single(SingleOp::Slice),
    Operation::Single(SingleOp::ToArray),
    Operation::Single(SingleOp::ToSeq),
    Operation::Single(SingleOp::ResIsErr),
    Operation::Single(SingleOp::ResIsOk),
    Operation::Single(SingleOp::ResUnwrap),
];

/// Those before the tuples.
const LAST_SINGLES: [Operation; 1] = [Operation::Single(SingleOp::Same)];

/// The signed kinds, in the order of their names.
const SIGNED_KINDS: [IntTy; 5] = [
    IntTy::PI128,
    IntTy::PI16,
    IntTy::PI32,
    IntTy::PI64,
    IntTy::PI8,
];

/// The secret kinds, in the order of their names.
const SECRET_KINDS: [IntTy; 5] = [
    IntTy::SU128,
    IntTy::SU16,
    IntTy::SU32,
    IntTy::SU64,
    IntTy::SU8,
];

/// The public unsigned kinds, in the order of their names.
const UNSIGNED_KINDS: [IntTy; 6] = [
    IntTy::PU128,
    IntTy::PU16,
    IntTy::PU32,
    IntTy::PU64,
    IntTy::PU8,
    IntTy::PUsize,
];

/// How many parts tuples have, in the order of their names.
const COUNTS: [u32; 11] = [10, 11, 12, 2, 3, 4, 5, 6, 7, 8, 9];

/// What there may be with results of a kind, or for a kind, in the order of names.
fn for_kind(kind: IntTy) -> [Operation; 43]
    ensures { result ≡ for_kind kind }
{
    [
        Operation::Number(NumberOp::Add, kind),
        Operation::Number(NumberOp::And, kind),
        Operation::Number(NumberOp::Classify, kind),
        Operation::Number(NumberOp::Declassify, kind),
        Operation::Number(NumberOp::Div, kind),
        Operation::Number(NumberOp::FromBe, kind),
        Operation::Number(NumberOp::FromLe, kind),
        Operation::Number(NumberOp::Ge, kind),
        Operation::Number(NumberOp::Gt, kind),
        Operation::Number(NumberOp::Le, kind),
        Operation::Number(NumberOp::Lt, kind),
        Operation::Number(NumberOp::Mul, kind),
        Operation::Number(NumberOp::Neg, kind),
        Operation::Number(NumberOp::Not, kind),
        Operation::Cast(IntTy::PI128, kind),
        Operation::Cast(IntTy::PI16, kind),
        Operation::Cast(IntTy::PI32, kind),
        Operation::Cast(IntTy::PI64, kind),
        Operation::Cast(IntTy::PI8, kind),
        Operation::Cast(IntTy::SU128, kind),
        Operation::Cast(IntTy::SU16, kind),
        Operation::Cast(IntTy::SU32, kind),
        Operation::Cast(IntTy::SU64, kind),
        Operation::Cast(IntTy::SU8, kind),
        Operation::Cast(IntTy::PU128, kind),
        Operation::Cast(IntTy::PU16, kind),
        Operation::Cast(IntTy::PU32, kind),
        Operation::Cast(IntTy::PU64, kind),
        Operation::Cast(IntTy::PU8, kind),
        Operation::Cast(IntTy::PUsize, kind),
        Operation::Number(NumberOp::Or, kind),
        Operation::Number(NumberOp::Rem, kind),
        Operation::Number(NumberOp::Rotl, kind),
        Operation::Number(NumberOp::Rotr, kind),
        Operation::Number(NumberOp::Shl, kind),
        Operation::Number(NumberOp::Shr, kind),
        Operation::Number(NumberOp::Sub, kind),
        Operation::Number(NumberOp::ToBe, kind),
        Operation::Number(NumberOp::ToLe, kind),
        Operation::Number(NumberOp::Wadd, kind),
        Operation::Number(NumberOp::Wmul, kind),
        Operation::Number(NumberOp::Wsub, kind),
        Operation::Number(NumberOp::Xor, kind),
    ]
}

/// What there may be for a tuple of so many parts, in the order of names.
fn for_tuple(count: u32) -> [Operation; 24]
    ensures { result ≡ for_tuple count }
{
    [
        Operation::Part(count, 0),
        Operation::Part(count, 1),
        Operation::Part(count, 10),
        Operation::Part(count, 11),
        Operation::Part(count, 2),
        Operation::Part(count, 3),
        Operation::Part(count, 4),
        Operation::Part(count, 5),
        Operation::Part(count, 6),
        Operation::Part(count, 7),
        Operation::Part(count, 8),
        Operation::Part(count, 9),
        Operation::SetPart(count, 0),
        Operation::SetPart(count, 1),
        Operation::SetPart(count, 10),
        Operation::SetPart(count, 11),
        Operation::SetPart(count, 2),
        Operation::SetPart(count, 3),
        Operation::SetPart(count, 4),
        Operation::SetPart(count, 5),
        Operation::SetPart(count, 6),
        Operation::SetPart(count, 7),
        Operation::SetPart(count, 8),
        Operation::SetPart(count, 9),
    ]
}

/// Puts the entry of an operation at the end, where there is the operation.
fn push_known(
    alloc: Global,
    entries: &mut Items<Entry>,
    operation: Operation,
) -> Result<(), NoMemory>
    ensures { OnOk result (entries.new ≡ entries.old ++ rows_of (operation ∷ [])) }
{
    if is_known(operation) {
        let row = row_of(alloc, name_of(alloc, operation)?, operation)?;
        entries.push(Entry { row, operation })?;
    }
    Ok(())
}

/// Puts the entries of those of the operations at the end that there are.
fn push_all(
    alloc: Global,
    entries: &mut Items<Entry>,
    operations: &[Operation],
) -> Result<(), NoMemory>
    ensures { OnOk result (entries.new ≡ entries.old ++ rows_of operations.now) }
{
    for operation in operations {
        push_known(alloc, entries, *operation)?;
    }
    Ok(())
}

/// Puts the entries for kinds at the end.
fn push_kinds(alloc: Global, entries: &mut Items<Entry>, kinds: &[IntTy]) -> Result<(), NoMemory>
    ensures { OnOk result (entries.new ≡ entries.old ++ rows_of (for_kinds kinds.now)) }
{
    for kind in kinds {
        push_all(alloc, entries, &for_kind(*kind))?;
    }
    Ok(())
}

/// Puts the entries for tuples at the end.
fn push_tuples(alloc: Global, entries: &mut Items<Entry>, counts: &[u32]) -> Result<(), NoMemory>
    ensures { OnOk result (entries.new ≡ entries.old ++ rows_of (for_tuples counts.now)) }
{
    for count in counts {
        push_all(alloc, entries, &for_tuple(*count))?;
    }
    Ok(())
}

/// The entries of all operations.
fn all_entries(alloc: Global) -> Result<Items<Entry>, NoMemory>
    ensures { IfOk result (λ entries. entries ≡ map entry_for standard_operations) }
{
    let mut entries = Items::new(alloc);
    push_all(alloc, &mut entries, &FIRST_SINGLES)?;
    push_kinds(alloc, &mut entries, &SIGNED_KINDS)?;
    push_all(alloc, &mut entries, &MIDDLE_SINGLES)?;
    push_kinds(alloc, &mut entries, &SECRET_KINDS)?;
    push_all(alloc, &mut entries, &LAST_SINGLES)?;
    push_tuples(alloc, &mut entries, &COUNTS)?;
    push_kinds(alloc, &mut entries, &UNSIGNED_KINDS)?;
    Ok(entries)
}

/// The table of all operations: each once, in the order of their names.
///
/// # Errors
///
/// `NoMemory` only for want of memory.
pub fn standard(alloc: Global) -> Result<OpTable<OPS>, NoMemory>
    ensures table { IfOk result (λ table. table ≡ standard_table) }
    ensures prefix { IfOk result (λ table. table.prefix ≡ []) }
    ensures complete { IfOk result (λ table. (o : Operation) → IsTrue (is_known o) ↔ Contains table.operations o) }
    ensures named { IfOk result (λ table. (o : Operation) → IsTrue (is_known o) → operation_named table (name_of o) ≡ Some o) }
    ensures foreign { IfOk result (λ table. (name : List ℕ) → ((o : Operation) → IsTrue (is_known o) → name_of o ≢ name) → operation_named table name ≡ None) }
{
    let prefix = Name::of(alloc, "")?;
    Ok(OpTable::from_entries(prefix, all_entries(alloc)?))
}
