//! Rows of a table of operations.

ghost use Rattle.std.specs.Prelude.{◌≡◌, IfOk};
ghost use Rattle.hs_ops.specs.Row.{number_args, number_result, number_panics, single_args, single_result, single_panics, args_of, result_of, panics_of, row_of};

use crate::known::{byte_kind, public_of};
use crate::operation::{NumberOp, Operation, SingleOp};
use hs_base::memory::NoMemory;
use hs_base::name::Name;
use hs_words::{IntTy, Panic};
use sqlite_items::Items;
use std::alloc::Global;

/// What a value has to be to stand as an argument, or is known to be as a result.
#[derive(Clone, Copy, Debug, PartialEq, Eq)]
pub enum Kind {
    /// Every value.
    Any,
    /// The value of the unit type.
    Unit,
    /// A truth value.
    Bool,
    /// A number of the kind.
    Int(IntTy),
    /// A sequence or an array of any items.
    Row,
    /// A sequence or an array of numbers of the kind.
    Bytes(IntTy),
    /// A tuple of so many parts.
    Tuple(u32),
    /// An option.
    Option,
    /// A result.
    Result,
    /// Any count of values; it stands alone as the arguments of an operation.
    Each,
}

/// Kinds in order.
pub type Kinds = Items<Kind>;

/// Panics in the order in which their conditions are tried.
pub type PanicSet = Items<Panic>;

/// A row of a table: how an operation is called, what it takes, and what it gives.
#[derive(Drop)]
pub struct OpRow {
    /// The name.
    pub name: Name,
    /// The kinds of its arguments.
    pub args: Kinds,
    /// The kind of the value that it gives.
    pub result: Kind,
    /// The panics that it can give in place of a value.
    pub panics: PanicSet,
}

/// Why an operation gives no value.
#[derive(Clone, Copy, Debug, PartialEq, Eq)]
pub enum OpStop {
    /// It panics.
    Panic(Panic),
    /// The arguments are not as many as the row's kinds, or one is not of its kind.
    Kind,
    /// There was no memory.
    NoMemory,
}

impl From<NoMemory> for OpStop {
    ghost use Rattle.hs_ops.specs.declared.row.OpStop.TheVariants as stop;

    ghost from_gives = { λ _ s. s ≡ stop.NoMemory };

    fn from(_error: NoMemory) -> OpStop {
        OpStop::NoMemory
    }
}

impl From<Panic> for OpStop {
    ghost use Rattle.hs_ops.specs.declared.row.OpStop.TheVariants as stop;

    ghost from_gives = { λ panic s. s ≡ stop.Panic panic };

    fn from(panic: Panic) -> OpStop {
        OpStop::Panic(panic)
    }
}

/// The kind of lengths, places and amounts.
const SIZE: Kind = Kind::Int(IntTy::PUsize);

/// The kinds of the arguments of an operation on numbers of a kind.
fn number_args(alloc: Global, op: NumberOp, kind: IntTy) -> Result<Kinds, NoMemory>
    ensures { IfOk result (λ kinds. kinds ≡ number_args op kind) }
{
    let own = Kind::Int(kind);
    match op {
        NumberOp::Neg | NumberOp::Not | NumberOp::Declassify | NumberOp::ToLe | NumberOp::ToBe => {
            Items::from_slice(alloc, &[own])
        }
        NumberOp::Classify => Items::from_slice(alloc, &[Kind::Int(public_of(kind))]),
        NumberOp::FromLe | NumberOp::FromBe => {
            Items::from_slice(alloc, &[Kind::Bytes(byte_kind(kind))])
        }
        NumberOp::Shl | NumberOp::Shr | NumberOp::Rotl | NumberOp::Rotr => {
            Items::from_slice(alloc, &[own, SIZE])
        }
        _ => Items::from_slice(alloc, &[own, own]),
    }
}

/// The kind of its value.
fn number_result(op: NumberOp, kind: IntTy) -> Kind
    ensures { result ≡ number_result op kind }
{
    match op {
        NumberOp::Lt | NumberOp::Le | NumberOp::Gt | NumberOp::Ge => Kind::Bool,
        NumberOp::Declassify => Kind::Int(public_of(kind)),
        NumberOp::ToLe | NumberOp::ToBe => Kind::Bytes(byte_kind(kind)),
        _ => Kind::Int(kind),
    }
}

/// Its panics.
fn number_panics(alloc: Global, op: NumberOp, kind: IntTy) -> Result<PanicSet, NoMemory>
    ensures { IfOk result (λ panics. panics ≡ number_panics op kind) }
{
    match op {
        NumberOp::Add | NumberOp::Sub | NumberOp::Mul => {
            if kind.secret() {
                Ok(Items::new(alloc))
            } else {
                Items::from_slice(alloc, &[Panic::Overflow])
            }
        }
        NumberOp::Div | NumberOp::Rem => {
            if kind.signed() {
                Items::from_slice(alloc, &[Panic::Division, Panic::Overflow])
            } else {
                Items::from_slice(alloc, &[Panic::Division])
            }
        }
        NumberOp::Neg => Items::from_slice(alloc, &[Panic::Overflow]),
        NumberOp::Shl | NumberOp::Shr => Items::from_slice(alloc, &[Panic::Shift]),
        NumberOp::FromLe | NumberOp::FromBe => Items::from_slice(alloc, &[Panic::Length]),
        _ => Ok(Items::new(alloc)),
    }
}

/// The kinds of the arguments of an operation that there is once.
fn single_args(alloc: Global, op: SingleOp) -> Result<Kinds, NoMemory>
    ensures { IfOk result (λ kinds. kinds ≡ single_args op) }
{
    match op {
        SingleOp::BoolNot => Items::from_slice(alloc, &[Kind::Bool]),
        SingleOp::Same | SingleOp::Differ => Items::from_slice(alloc, &[Kind::Any, Kind::Any]),
        SingleOp::Item | SingleOp::NumChunks => Items::from_slice(alloc, &[Kind::Row, SIZE]),
        SingleOp::Set => Items::from_slice(alloc, &[Kind::Row, SIZE, Kind::Any]),
        SingleOp::Len | SingleOp::ToSeq => Items::from_slice(alloc, &[Kind::Row]),
        SingleOp::Make => Items::from_slice(alloc, &[Kind::Any, SIZE]),
        SingleOp::ListOf => Items::from_slice(alloc, &[Kind::Each]),
        SingleOp::Concat => Items::from_slice(alloc, &[Kind::Row, Kind::Row]),
        SingleOp::Push => Items::from_slice(alloc, &[Kind::Row, Kind::Any]),
        SingleOp::Slice | SingleOp::GetChunk => Items::from_slice(alloc, &[Kind::Row, SIZE, SIZE]),
        SingleOp::Put => Items::from_slice(alloc, &[Kind::Row, SIZE, Kind::Row]),
        SingleOp::SetChunk => Items::from_slice(alloc, &[Kind::Row, SIZE, SIZE, Kind::Row]),
        SingleOp::ToArray => Items::from_slice(alloc, &[SIZE, Kind::Row]),
        SingleOp::OptUnwrap | SingleOp::OptIsSome | SingleOp::OptIsNone => {
            Items::from_slice(alloc, &[Kind::Option])
        }
        SingleOp::ResUnwrap | SingleOp::ResIsOk | SingleOp::ResIsErr => {
            Items::from_slice(alloc, &[Kind::Result])
        }
        SingleOp::Clone => Items::from_slice(alloc, &[Kind::Any]),
    }
}

/// The kind of its value.
fn single_result(op: SingleOp) -> Kind
    ensures { result ≡ single_result op }
{
    match op {
        SingleOp::BoolNot
        | SingleOp::Same
        | SingleOp::Differ
        | SingleOp::OptIsSome
        | SingleOp::OptIsNone
        | SingleOp::ResIsOk
        | SingleOp::ResIsErr => Kind::Bool,
        SingleOp::Item | SingleOp::OptUnwrap | SingleOp::ResUnwrap | SingleOp::Clone => Kind::Any,
        SingleOp::Len | SingleOp::NumChunks => SIZE,
        SingleOp::GetChunk => Kind::Tuple(2),
        _ => Kind::Row,
    }
}

/// Its panics.
fn single_panics(alloc: Global, op: SingleOp) -> Result<PanicSet, NoMemory>
    ensures { IfOk result (λ panics. panics ≡ single_panics op) }
{
    match op {
        SingleOp::Item | SingleOp::Set | SingleOp::Slice | SingleOp::Put => {
            Items::from_slice(alloc, &[Panic::Index])
        }
        SingleOp::Make | SingleOp::Concat | SingleOp::Push | SingleOp::ToArray => {
            Items::from_slice(alloc, &[Panic::Length])
        }
        SingleOp::NumChunks => Items::from_slice(alloc, &[Panic::Division]),
        SingleOp::GetChunk => Items::from_slice(alloc, &[Panic::Division, Panic::Index]),
        SingleOp::SetChunk => {
            Items::from_slice(alloc, &[Panic::Division, Panic::Index, Panic::Length])
        }
        SingleOp::OptUnwrap | SingleOp::ResUnwrap => Items::from_slice(alloc, &[Panic::Unwrap]),
        _ => Ok(Items::new(alloc)),
    }
}

/// The kinds of the arguments of an operation.
fn args_of(alloc: Global, operation: Operation) -> Result<Kinds, NoMemory>
    ensures { IfOk result (λ kinds. kinds ≡ args_of operation) }
{
    match operation {
        Operation::Number(op, kind) => number_args(alloc, op, kind),
        Operation::Cast(from, _) => Items::from_slice(alloc, &[Kind::Int(from)]),
        Operation::Part(count, _) => Items::from_slice(alloc, &[Kind::Tuple(count)]),
        Operation::SetPart(count, _) => {
            Items::from_slice(alloc, &[Kind::Tuple(count), Kind::Any])
        }
        Operation::Single(op) => single_args(alloc, op),
    }
}

/// The kind of its value.
fn result_of(operation: Operation) -> Kind
    ensures { result ≡ result_of operation }
{
    match operation {
        Operation::Number(op, kind) => number_result(op, kind),
        Operation::Cast(_, to) => Kind::Int(to),
        Operation::Part(_, _) => Kind::Any,
        Operation::SetPart(count, _) => Kind::Tuple(count),
        Operation::Single(op) => single_result(op),
    }
}

/// Its panics.
fn panics_of(alloc: Global, operation: Operation) -> Result<PanicSet, NoMemory>
    ensures { IfOk result (λ panics. panics ≡ panics_of operation) }
{
    match operation {
        Operation::Number(op, kind) => number_panics(alloc, op, kind),
        Operation::Single(op) => single_panics(alloc, op),
        _ => Ok(Items::new(alloc)),
    }
}

/// The row of an operation that is called so.
pub fn row_of(alloc: Global, name: Name, operation: Operation) -> Result<OpRow, NoMemory>
    ensures { IfOk result (λ row. row ≡ row_of name operation) }
{
    let args = args_of(alloc, operation)?;
    let panics = panics_of(alloc, operation)?;
    Ok(OpRow {
        name,
        args,
        result: result_of(operation),
        panics,
    })
}
