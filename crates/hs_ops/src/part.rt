//! Operations on tuples, options and results, and those on any value.

ghost use Rattle.std.specs.Prelude.{◌≡◌, ◌<◌};
ghost use Rattle.hs_ops.specs.Answer.{Tells};
ghost use Rattle.hs_ops.specs.Parts as parts;

use crate::pack::truth;
use crate::row::OpStop;
use crate::view::{as_option, as_result, as_tuple, one, two};
use hs_values::{Value, Values};
use hs_words::Panic;

/// A part of a tuple of so many parts.
pub fn part(count: u32, at: u32, args: Values) -> Result<Value, OpStop>
    ensures { Tells result (parts.part count at args) }
{
    let mut parts = as_tuple(one(args)?, count)?;
    if (at as usize) < parts.len() {
        Ok(parts.remove(at as usize))
    } else {
        Err(OpStop::Kind)
    }
}

/// A tuple of so many parts with one of them replaced.
pub fn set_part(count: u32, at: u32, args: Values) -> Result<Value, OpStop>
    requires { at < count }
    ensures { Tells result (parts.set_part count at args) }
{
    let (tuple, part) = two(args)?;
    let mut parts = as_tuple(tuple, count)?;
    parts.set(at as usize, part);
    Ok(Value::Tuple(parts))
}

/// The part of an option, or `Unwrap` where it has none.
pub fn opt_unwrap(args: Values) -> Result<Value, OpStop>
    ensures { Tells result (parts.opt_unwrap args) }
{
    match as_option(one(args)?)? {
        Some(part) => Ok(part),
        None => Err(OpStop::Panic(Panic::Unwrap)),
    }
}

/// The part of a good result, or `Unwrap`.
pub fn res_unwrap(args: Values) -> Result<Value, OpStop>
    ensures { Tells result (parts.res_unwrap args) }
{
    let (good, part) = as_result(one(args)?)?;
    if good {
        Ok(part)
    } else {
        Err(OpStop::Panic(Panic::Unwrap))
    }
}

/// Whether an option has a part.
pub fn opt_is_some(args: Values) -> Result<Value, OpStop>
    ensures { Tells result (parts.opt_is_some args) }
{
    truth(as_option(one(args)?)?.is_some())
}

/// Whether an option has no part.
pub fn opt_is_none(args: Values) -> Result<Value, OpStop>
    ensures { Tells result (parts.opt_is_none args) }
{
    truth(as_option(one(args)?)?.is_none())
}

/// Whether a result is good.
pub fn res_is_ok(args: Values) -> Result<Value, OpStop>
    ensures { Tells result (parts.res_is_ok args) }
{
    let (good, _part) = as_result(one(args)?)?;
    truth(good)
}

/// Whether a result is bad.
pub fn res_is_err(args: Values) -> Result<Value, OpStop>
    ensures { Tells result (parts.res_is_err args) }
{
    let (good, _part) = as_result(one(args)?)?;
    truth(!good)
}

/// The test of sameness, on two values.
fn is_same(first: &Value, second: &Value) -> bool
    ensures { result ≡ parts.is_same first.now second.now }
{
    first.same(second)
}

/// Whether two values are one value.
pub fn same(args: Values) -> Result<Value, OpStop>
    ensures { Tells result (parts.same args) }
{
    let (first, second) = two(args)?;
    truth(is_same(&first, &second))
}

/// Whether two values are not one value.
pub fn differ(args: Values) -> Result<Value, OpStop>
    ensures { Tells result (parts.differ args) }
{
    let (first, second) = two(args)?;
    truth(!is_same(&first, &second))
}

/// The value itself.
pub fn clone(args: Values) -> Result<Value, OpStop>
    ensures { Tells result (parts.clone args) }
{
    one(args)
}
