//! Tables of operations.

ghost use Rattle.std.specs.Prelude.{◌≡◌, ◌<◌, ◌≤◌, ◌∷◌, [], ℕ, ◌≢◌, Some, None, IfOk, IfSome, IfNone, IsTrue, List, length, map, option_map, slice_get};
ghost use Rattle.std.specs.Cmp.Lexicographic.{slice_cmp};
ghost use Rattle.std.specs.Ordering.{nat_cmp};
ghost use Rattle.hs_values.specs.declared.value.Value.{Value};
ghost use Rattle.hs_ops.specs.Answer.{Tells, TellsWhether};
ghost use Rattle.hs_ops.specs.Op.{answer};
ghost use Rattle.hs_ops.specs.Known.{is_known};
ghost use Rattle.hs_ops.specs.declared.operation.Operation.{Operation};
ghost use Rattle.hs_ops.specs.declared.operation.Operation.TheVariants.{Single};
ghost use Rattle.hs_ops.specs.declared.operation.SingleOp.TheVariants.{Same, Differ};
ghost use Rattle.hs_ops.specs.declared.row.OpRow.{OpRow};
ghost use Rattle.hs_ops.specs.declared.table.Entry.{Entry};
ghost use Rattle.hs_ops.specs.Row.{ForKinds, Promised, have_kinds};
ghost use Rattle.hs_ops.specs.Table.{called, names, rising, Distinct, IsTable, StandsFor, table_of, operation_named, operation_at, row_at, answer_at};

use crate::apply::apply;
use crate::operation::Operation;
use crate::row::{OpRow, OpStop};
use hs_base::name::Name;
use hs_values::{OpId, Value, Values};
use sqlite_items::Items;
use std::alloc::Global;
use std::cmp::Ordering;
use std::marker::Model;

/// A row with the operation that it stands for.
#[derive(Drop)]
pub struct Entry {
    /// The row.
    pub row: OpRow,
    /// The operation.
    pub operation: Operation,
}

/// A table of `N` operations, at most 65,536, in the order of their names, which are distinct. Each name is that of the operation
/// behind the table's prefix. Contracts see the table as its prefix and its operations.
#[derive(Drop)]
pub struct OpTable<const N: usize> {
    prefix: Name,
    entries: Items<Entry>,
}

impl<const N: usize> Model for OpTable<N> {
    ghost use Rattle.hs_ops.specs.Table.{Table, IsTable, table_of};

    ghost Value = { Table };

    ghost view = { λ t. table_of t.prefix t.entries };

    ghost invariant = { λ t. IsTable N (table_of t.prefix t.entries) t.entries };
}

/// How the entry's name stands to a name, byte by byte.
fn compared(entry: &Entry, name: &[u8]) -> Ordering
    ensures { result ≡ slice_cmp nat_cmp entry.now.row.name name.now }
{
    entry.row.name.bytes().cmp(name)
}

/// Where the entry with this name is among entries in the order of their names, by halves.
fn search(entries: &[Entry], name: &[u8]) -> Option<usize>
    requires { IsTrue (rising (map (λ (e : Entry). e.row.name) entries.now)) }
    ensures within { IfSome result (λ place. place < length entries.now) }
    ensures found { IfSome result (λ place. slice_get (map (λ (e : Entry). e.row.name) entries.now) place ≡ Some name.now) }
    ensures absent { IfNone result ((i : ℕ) → slice_get (map (λ (e : Entry). e.row.name) entries.now) i ≢ Some name.now) }
{
    let mut low = 0;
    let mut high = entries.len();
    while low < high {
        let middle = low + (high - low) / 2;
        match compared(&entries[middle], name) {
            Ordering::Less => low = middle + 1,
            Ordering::Equal => return Some(middle),
            Ordering::Greater => high = middle,
        }
    }
    None
}

impl<const N: usize> OpTable<N> {
    /// The table with these entries, whose names begin with the prefix.
    pub(crate) fn from_entries(prefix: Name, entries: Items<Entry>) -> OpTable<N>
        requires { IsTable N (table_of prefix entries) entries }
        ensures { result ≡ table_of prefix entries }
    {
        OpTable { prefix, entries }
    }

    /// The bytes with which each name of the table begins; what follows is the name of the operation.
    pub fn prefix(&self) -> &[u8]
        ensures { result.now ≡ self.now.prefix }
    {
        self.prefix.bytes()
    }

    /// The number of the row with this name; `None` exactly where no row has it.
    pub fn find(&self, name: &[u8]) -> Option<OpId>
        ensures within { IfSome result (λ op. op.0 < N) }
        ensures found { IfSome result (λ op. slice_get (names self.now) op.0 ≡ Some name.now) }
        ensures absent { IfNone result ((i : ℕ) → slice_get (names self.now) i ≢ Some name.now) }
        ensures named { operation_named self.now name.now ≡ operation_at self.now (option_map (λ op. op.0) result) }
        ensures foreign { ((o : Operation) → IsTrue (is_known o) → called self.now o ≢ name.now) → result ≡ None }
        ensures distinct { Distinct (names self.now) }
        ensures rows { length self.now.operations ≡ N }
        ensures bounded { N ≤ 65536 }
    {
        match search(self.entries.as_slice(), name) {
            Some(place) => Some(OpId(place as u16)),
            None => None,
        }
    }

    /// The row of this number.
    pub fn row(&self, op: OpId) -> &OpRow
        requires { op.0 < N }
        ensures { row_at self.now op.0 ≡ Some result.now }
    {
        &self.entries.as_slice()[op.0 as usize].row
    }

    /// The operation of the row of this number.
    fn operation(&self, op: OpId) -> Operation
        requires { op.0 < N }
        ensures known { IsTrue (is_known result) }
        ensures value { StandsFor self.now op.0 result }
    {
        self.entries.as_slice()[op.0 as usize].operation
    }

    /// What the operation of the row of this number gives for the arguments, which are gone then. A value is of the row's kind, and a
    /// panic is one of the row's.
    ///
    /// # Errors
    ///
    /// `Kind` exactly where the arguments do not have the kinds of the row; else `Panic` exactly where the operation panics, with
    /// the first of its panics whose condition holds. `NoMemory` only for want of memory.
    pub fn apply(&self, alloc: Global, op: OpId, args: Values) -> Result<Value, OpStop>
        requires { op.0 < N }
        ensures value { Tells result (answer_at self.now op.0 args) }
        ensures named { (o : Operation) → IsTrue (is_known o) → slice_get (names self.now) op.0 ≡ Some (called self.now o) → Tells result (answer o args) }
        ensures kinds { (row : OpRow) → row_at self.now op.0 ≡ Some row → ForKinds result (have_kinds row.args args) }
        ensures promise { (row : OpRow) → row_at self.now op.0 ≡ Some row → Promised result row }
        ensures same { (a b : Value) → StandsFor self.now op.0 (Single Same) → args ≡ a ∷ b ∷ [] → TellsWhether result (a ≡ b) }
        ensures differ { (a b : Value) → StandsFor self.now op.0 (Single Differ) → args ≡ a ∷ b ∷ [] → TellsWhether result (a ≢ b) }
    {
        apply(alloc, self.operation(op), args)
    }
}
