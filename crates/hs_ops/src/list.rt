//! Operations on sequences and arrays.

ghost use Rattle.std.specs.Prelude.{◌≡◌, ◌+◌, ◌*◌, ◌<◌, ◌≤◌, length, replicate, IfOk, OnOk};
ghost use Rattle.hs_words.specs.declared.kinds.Panic.{Panic};
ghost use Rattle.hs_ops.specs.Answer.{Tells};
ghost use Rattle.hs_ops.specs.Rows as rows;

use crate::row::OpStop;
use crate::view::{as_row, as_size, four, one, size_value, three, two};
use hs_base::memory::NoMemory;
use hs_values::{MAX_LENGTH, Value, Values};
use hs_words::Panic;
use sqlite_items::Items;
use std::alloc::Global;

/// Copies of the items, in order.
fn copies(alloc: Global, items: &[Value]) -> Result<Values, NoMemory>
    ensures { IfOk result (λ copies. copies ≡ items.now) }
{
    let mut copies: Values = Items::new(alloc);
    for item in items {
        copies.push(item.copy(alloc)?)?;
    }
    Ok(copies)
}

/// So many copies of a value.
fn repeated(alloc: Global, value: &Value, count: usize) -> Result<Values, NoMemory>
    ensures { IfOk result (λ values. values ≡ replicate count value.now) }
{
    let mut values: Values = Items::new(alloc);
    for _made in 0..count {
        values.push(value.copy(alloc)?)?;
    }
    Ok(values)
}

/// The item at a place.
pub fn item(args: Values) -> Result<Value, OpStop>
    ensures { Tells result (rows.item args) }
{
    let (row, place) = two(args)?;
    let mut row = as_row(row)?;
    let place = as_size(place)?;
    if place < row.len() {
        Ok(row.remove(place))
    } else {
        Err(OpStop::Panic(Panic::Index))
    }
}

/// The items with the one at a place replaced.
pub fn set(args: Values) -> Result<Value, OpStop>
    ensures { Tells result (rows.set args) }
{
    let (row, place, item) = three(args)?;
    let mut row = as_row(row)?;
    let place = as_size(place)?;
    if place < row.len() {
        row.set(place, item);
        Ok(Value::Seq(row))
    } else {
        Err(OpStop::Panic(Panic::Index))
    }
}

/// The number of items.
pub fn len(args: Values) -> Result<Value, OpStop>
    ensures { Tells result (rows.len args) }
{
    let row = as_row(one(args)?)?;
    Ok(size_value(row.len()))
}

/// So many times a value.
pub fn make(alloc: Global, args: Values) -> Result<Value, OpStop>
    ensures { Tells result (rows.make args) }
{
    let (item, count) = two(args)?;
    let count = as_size(count)?;
    if count <= MAX_LENGTH {
        Ok(Value::Seq(repeated(alloc, &item, count)?))
    } else {
        Err(OpStop::Panic(Panic::Length))
    }
}

/// All arguments as items.
pub fn list(args: Values) -> Result<Value, OpStop>
    ensures { Tells result (rows.list args) }
{
    Ok(Value::Seq(args))
}

/// The items of both.
pub fn concat(args: Values) -> Result<Value, OpStop>
    ensures { Tells result (rows.concat args) }
{
    let (front, back) = two(args)?;
    let mut front = as_row(front)?;
    let back = as_row(back)?;
    if front.len() <= MAX_LENGTH && back.len() <= MAX_LENGTH - front.len() {
        front.append(back)?;
        Ok(Value::Seq(front))
    } else {
        Err(OpStop::Panic(Panic::Length))
    }
}

/// The items and one more.
pub fn push(args: Values) -> Result<Value, OpStop>
    ensures { Tells result (rows.push args) }
{
    let (row, item) = two(args)?;
    let mut row = as_row(row)?;
    if row.len() < MAX_LENGTH {
        row.push(item)?;
        Ok(Value::Seq(row))
    } else {
        Err(OpStop::Panic(Panic::Length))
    }
}

/// So many items from a place on.
pub fn slice(alloc: Global, args: Values) -> Result<Value, OpStop>
    ensures { Tells result (rows.slice args) }
{
    let (row, start, count) = three(args)?;
    let row = as_row(row)?;
    let start = as_size(start)?;
    let count = as_size(count)?;
    let items = row.as_slice();
    if start <= items.len() && count <= items.len() - start {
        Ok(Value::Seq(copies(alloc, &items[start..start + count])?))
    } else {
        Err(OpStop::Panic(Panic::Index))
    }
}

/// The items of `row` with those of `items` in the place of its own from `start` on.
fn written(mut row: Values, start: usize, mut items: Values) -> Values
    requires { start + length items ≤ length row }
    ensures { result ≡ rows.written row start items }
{
    while let Some(last) = items.pop() {
        row.set(start + items.len(), last);
    }
    row
}

/// The row with others in the place of its items from `start` on.
fn put_at(row: Values, start: usize, items: Values) -> Result<Value, OpStop>
    ensures { Tells result (rows.put_at row start items) }
{
    if start <= row.len() && items.len() <= row.len() - start {
        Ok(Value::Seq(written(row, start, items)))
    } else {
        Err(OpStop::Panic(Panic::Index))
    }
}

/// The items with others in the place of those from a place on.
pub fn put(args: Values) -> Result<Value, OpStop>
    ensures { Tells result (rows.put args) }
{
    let (row, start, items) = three(args)?;
    let row = as_row(row)?;
    let start = as_size(start)?;
    let items = as_row(items)?;
    put_at(row, start, items)
}

/// How many chunks of so many items there are.
pub fn num_chunks(args: Values) -> Result<Value, OpStop>
    ensures { Tells result (rows.num_chunks args) }
{
    let (row, size) = two(args)?;
    let row = as_row(row)?;
    let size = as_size(size)?;
    if size == 0 {
        Err(OpStop::Panic(Panic::Division))
    } else {
        Ok(size_value(row.len().div_ceil(size)))
    }
}

/// How many items a chunk of a row of `all` items has.
///
/// # Errors
///
/// `Division` exactly where the chunks have no item, else `Index` exactly where there is no such chunk.
fn chunk_length(all: usize, size: usize, number: usize) -> Result<usize, Panic>
    ensures value { result ≡ rows.chunk_length all size number }
    ensures within { IfOk result (λ count. number * size + count ≤ all) }
{
    if size == 0 {
        return Err(Panic::Division);
    }
    match number.checked_mul(size) {
        Some(start) if start < all => Ok(size.min(all - start)),
        _ => Err(Panic::Index),
    }
}

/// The length of a chunk, and its items.
pub fn get_chunk(alloc: Global, args: Values) -> Result<Value, OpStop>
    ensures { Tells result (rows.get_chunk args) }
{
    let (row, size, number) = three(args)?;
    let row = as_row(row)?;
    let size = as_size(size)?;
    let number = as_size(number)?;
    let items = row.as_slice();
    let count = chunk_length(items.len(), size, number)?;
    let start = number * size;
    let mut parts: Values = Items::new(alloc);
    parts.push(size_value(count))?;
    parts.push(Value::Seq(copies(alloc, &items[start..start + count])?))?;
    Ok(Value::Tuple(parts))
}

/// The items with a chunk replaced.
pub fn set_chunk(args: Values) -> Result<Value, OpStop>
    ensures { Tells result (rows.set_chunk args) }
{
    let (row, size, number, items) = four(args)?;
    let row = as_row(row)?;
    let size = as_size(size)?;
    let number = as_size(number)?;
    let items = as_row(items)?;
    let count = chunk_length(row.len(), size, number)?;
    if items.len() == count {
        put_at(row, number * size, items)
    } else {
        Err(OpStop::Panic(Panic::Length))
    }
}

/// The items as an array of so many.
pub fn to_array(args: Values) -> Result<Value, OpStop>
    ensures { Tells result (rows.to_array args) }
{
    let (count, row) = two(args)?;
    let count = as_size(count)?;
    let row = as_row(row)?;
    if row.len() == count {
        Ok(Value::Seq(row))
    } else {
        Err(OpStop::Panic(Panic::Length))
    }
}

/// The items as a sequence.
pub fn to_seq(args: Values) -> Result<Value, OpStop>
    ensures { Tells result (rows.to_seq args) }
{
    Ok(Value::Seq(as_row(one(args)?)?))
}
