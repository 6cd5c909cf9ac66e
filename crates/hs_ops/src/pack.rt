//! What operations give, as their callers see it.

ghost use Rattle.hs_ops.specs.Answer.{Tells, settle, truth, number};

use crate::row::OpStop;
use hs_values::Value;
use hs_words::{Panic, Word};

/// A number.
pub fn number(word: Word) -> Result<Value, OpStop>
    ensures { Tells result (number word) }
{
    Ok(Value::Int(word))
}

/// A truth value.
pub fn truth(holds: bool) -> Result<Value, OpStop>
    ensures { Tells result (truth holds) }
{
    Ok(Value::Bool(holds))
}

/// The number of an exact operation, or its panic.
pub fn settle(given: Result<Word, Panic>) -> Result<Value, OpStop>
    ensures { Tells result (settle given) }
{
    match given {
        Ok(word) => Ok(Value::Int(word)),
        Err(panic) => Err(OpStop::Panic(panic)),
    }
}
