//! Arguments taken apart, and seen as what operations take.

ghost use Rattle.std.specs.Prelude.{◌≡◌, IfOk};
ghost use Rattle.hs_words.specs.declared.kinds.IntTy.{IntTy};
ghost use Rattle.hs_ops.specs.Answer.{Views, one_of, two_of, three_of, four_of, size_value};
ghost use Rattle.hs_ops.specs.Views.{as_bool, as_int, as_size, as_row, as_tuple, as_option, as_result};

use crate::known::same_kind;
use crate::row::OpStop;
use hs_values::{Sort, Value, Values};
use hs_words::{IntTy, Word};

/// The one argument.
///
/// # Errors
///
/// `Kind` exactly where there is not just one.
pub fn one(mut args: Values) -> Result<Value, OpStop>
    ensures { Views result (one_of args) }
{
    if args.len() != 1 {
        return Err(OpStop::Kind);
    }
    match args.pop() {
        Some(first) => Ok(first),
        None => Err(OpStop::Kind),
    }
}

/// The two arguments.
///
/// # Errors
///
/// `Kind` exactly where there are not just two.
pub fn two(mut args: Values) -> Result<(Value, Value), OpStop>
    ensures { Views result (two_of args) }
{
    if args.len() != 2 {
        return Err(OpStop::Kind);
    }
    let Some(second) = args.pop() else {
        return Err(OpStop::Kind);
    };
    match args.pop() {
        Some(first) => Ok((first, second)),
        None => Err(OpStop::Kind),
    }
}

/// The three arguments.
///
/// # Errors
///
/// `Kind` exactly where there are not just three.
pub fn three(mut args: Values) -> Result<(Value, Value, Value), OpStop>
    ensures { Views result (three_of args) }
{
    if args.len() != 3 {
        return Err(OpStop::Kind);
    }
    let Some(third) = args.pop() else {
        return Err(OpStop::Kind);
    };
    let (first, second) = two(args)?;
    Ok((first, second, third))
}

/// The four arguments.
///
/// # Errors
///
/// `Kind` exactly where there are not just four.
pub fn four(mut args: Values) -> Result<(Value, Value, Value, Value), OpStop>
    ensures { Views result (four_of args) }
{
    if args.len() != 4 {
        return Err(OpStop::Kind);
    }
    let Some(fourth) = args.pop() else {
        return Err(OpStop::Kind);
    };
    let (first, second, third) = three(args)?;
    Ok((first, second, third, fourth))
}

/// The truth value.
///
/// # Errors
///
/// `Kind` exactly where the value is none.
pub fn bool_of(value: Value) -> Result<bool, OpStop>
    ensures { Views result (as_bool value) }
{
    match value {
        Value::Bool(truth) => Ok(truth),
        _ => Err(OpStop::Kind),
    }
}

/// The number of the kind.
///
/// # Errors
///
/// `Kind` exactly where the value is none.
pub fn word_of(value: Value, kind: IntTy) -> Result<Word, OpStop>
    ensures view { Views result (as_int kind value) }
    ensures kind { IfOk result (λ word. word.kind ≡ kind) }
{
    match value {
        Value::Int(word) => {
            if same_kind(word.ty(), kind) {
                Ok(word)
            } else {
                Err(OpStop::Kind)
            }
        }
        _ => Err(OpStop::Kind),
    }
}

/// The number of `usize`.
///
/// # Errors
///
/// `Kind` exactly where the value is none.
pub fn as_size(value: Value) -> Result<usize, OpStop>
    ensures { Views result (as_size value) }
{
    Ok(word_of(value, IntTy::PUsize)?.bits() as usize)
}

/// The items of a sequence or an array.
///
/// # Errors
///
/// `Kind` exactly where the value is neither.
pub fn as_row(value: Value) -> Result<Values, OpStop>
    ensures { Views result (as_row value) }
{
    match value {
        Value::Seq(items) => Ok(items),
        _ => Err(OpStop::Kind),
    }
}

/// The parts of a tuple of so many.
///
/// # Errors
///
/// `Kind` exactly where the value is none.
pub fn as_tuple(value: Value, count: u32) -> Result<Values, OpStop>
    ensures { Views result (as_tuple count value) }
{
    match value {
        Value::Tuple(parts) => {
            if parts.len() == count as usize {
                Ok(parts)
            } else {
                Err(OpStop::Kind)
            }
        }
        _ => Err(OpStop::Kind),
    }
}

/// The part of an option, if it has one.
///
/// # Errors
///
/// `Kind` exactly where the value is no option.
pub fn as_option(value: Value) -> Result<Option<Value>, OpStop>
    ensures { Views result (as_option value) }
{
    match value {
        Value::Ctor(Sort::Option, 0, parts) => {
            if parts.is_empty() {
                Ok(None)
            } else {
                Err(OpStop::Kind)
            }
        }
        Value::Ctor(Sort::Option, 1, parts) => Ok(Some(one(parts)?)),
        _ => Err(OpStop::Kind),
    }
}

/// Whether a result is good, and its part.
///
/// # Errors
///
/// `Kind` exactly where the value is no result.
pub fn as_result(value: Value) -> Result<(bool, Value), OpStop>
    ensures { Views result (as_result value) }
{
    match value {
        Value::Ctor(Sort::Result, 0, parts) => Ok((true, one(parts)?)),
        Value::Ctor(Sort::Result, 1, parts) => Ok((false, one(parts)?)),
        _ => Err(OpStop::Kind),
    }
}

/// A length or a count as a value.
pub fn size_value(number: usize) -> Value
    ensures { result ≡ size_value number }
{
    match Word::new(IntTy::PUsize, number as u128) {
        Some(word) => Value::Int(word),
        None => unreachable!(),
    }
}
