//! Operations on numbers and truth values.

ghost use Rattle.std.specs.Prelude.{◌≡◌, IsTrue};
ghost use Rattle.hs_words.specs.declared.kinds.IntTy.{IntTy};
ghost use Rattle.hs_ops.specs.declared.operation.NumberOp.{NumberOp};
ghost use Rattle.hs_ops.specs.Answer.{Tells};
ghost use Rattle.hs_ops.specs.Known.{is_for};
ghost use Rattle.hs_ops.specs.Op.{number_answer};
ghost use Rattle.hs_ops.specs.Numbers as numbers;

use crate::operation::NumberOp;
use crate::pack::{number, settle, truth};
use crate::row::OpStop;
use crate::view::{bool_of, one, two, word_of};
use hs_values::{Value, Values};
use hs_words::IntTy;

/// What follows for one number of the kind.
macro_rules! on_one {
    ($args:ident, $kind:ident, $a:ident, $gives:expr) => {{
        let $a = word_of(one($args)?, $kind)?;
        $gives
    }};
}

/// What follows for two numbers of the kind.
macro_rules! on_two {
    ($args:ident, $kind:ident, $a:ident, $b:ident, $gives:expr) => {{
        let (first, second) = two($args)?;
        let $a = word_of(first, $kind)?;
        let $b = word_of(second, $kind)?;
        $gives
    }};
}

/// What follows for a number of the kind and an amount.
macro_rules! by_places {
    ($args:ident, $kind:ident, $a:ident, $places:ident, $gives:expr) => {{
        let (first, second) = two($args)?;
        let $a = word_of(first, $kind)?;
        let $places = word_of(second, IntTy::PUsize)?;
        $gives
    }};
}

/// Sum: exact at a public kind, modulo 2^width at a secret one.
pub fn add(kind: IntTy, args: Values) -> Result<Value, OpStop>
    ensures { Tells result (numbers.add kind args) }
{
    on_two!(args, kind, a, b, settle(a.add(&b)))
}

/// Difference: exact at a public kind, modulo 2^width at a secret one.
pub fn sub(kind: IntTy, args: Values) -> Result<Value, OpStop>
    ensures { Tells result (numbers.sub kind args) }
{
    on_two!(args, kind, a, b, settle(a.sub(&b)))
}

/// Product: exact at a public kind, modulo 2^width at a secret one.
pub fn mul(kind: IntTy, args: Values) -> Result<Value, OpStop>
    ensures { Tells result (numbers.mul kind args) }
{
    on_two!(args, kind, a, b, settle(a.mul(&b)))
}

/// Quotient, rounded toward zero.
pub fn div(kind: IntTy, args: Values) -> Result<Value, OpStop>
    requires { IsTrue (is_for NumberOp.Div kind) }
    ensures { Tells result (numbers.div kind args) }
{
    on_two!(args, kind, a, b, settle(a.div(&b)))
}

/// Remainder of the quotient.
pub fn rem(kind: IntTy, args: Values) -> Result<Value, OpStop>
    requires { IsTrue (is_for NumberOp.Rem kind) }
    ensures { Tells result (numbers.rem kind args) }
{
    on_two!(args, kind, a, b, settle(a.rem(&b)))
}

/// The bits that both have.
pub fn and(kind: IntTy, args: Values) -> Result<Value, OpStop>
    ensures { Tells result (numbers.and kind args) }
{
    on_two!(args, kind, a, b, number(a.and(&b)))
}

/// The bits that one of them or both have.
pub fn or(kind: IntTy, args: Values) -> Result<Value, OpStop>
    ensures { Tells result (numbers.or kind args) }
{
    on_two!(args, kind, a, b, number(a.or(&b)))
}

/// The bits that just one of them has.
pub fn xor(kind: IntTy, args: Values) -> Result<Value, OpStop>
    ensures { Tells result (numbers.xor kind args) }
{
    on_two!(args, kind, a, b, number(a.xor(&b)))
}

/// Sum modulo 2^width.
pub fn wadd(kind: IntTy, args: Values) -> Result<Value, OpStop>
    ensures { Tells result (numbers.wadd kind args) }
{
    on_two!(args, kind, a, b, number(a.wadd(&b)))
}

/// Difference modulo 2^width.
pub fn wsub(kind: IntTy, args: Values) -> Result<Value, OpStop>
    ensures { Tells result (numbers.wsub kind args) }
{
    on_two!(args, kind, a, b, number(a.wsub(&b)))
}

/// Product modulo 2^width.
pub fn wmul(kind: IntTy, args: Values) -> Result<Value, OpStop>
    ensures { Tells result (numbers.wmul kind args) }
{
    on_two!(args, kind, a, b, number(a.wmul(&b)))
}

/// Whether the first is less than the second.
pub fn lt(kind: IntTy, args: Values) -> Result<Value, OpStop>
    requires { IsTrue (is_for NumberOp.Lt kind) }
    ensures { Tells result (numbers.lt kind args) }
{
    on_two!(args, kind, a, b, truth(a.lt(&b)))
}

/// Whether the first is at most the second.
pub fn le(kind: IntTy, args: Values) -> Result<Value, OpStop>
    requires { IsTrue (is_for NumberOp.Le kind) }
    ensures { Tells result (numbers.le kind args) }
{
    on_two!(args, kind, a, b, truth(!b.lt(&a)))
}

/// Whether the first is greater than the second.
pub fn gt(kind: IntTy, args: Values) -> Result<Value, OpStop>
    requires { IsTrue (is_for NumberOp.Gt kind) }
    ensures { Tells result (numbers.gt kind args) }
{
    on_two!(args, kind, a, b, truth(b.lt(&a)))
}

/// Whether the first is at least the second.
pub fn ge(kind: IntTy, args: Values) -> Result<Value, OpStop>
    requires { IsTrue (is_for NumberOp.Ge kind) }
    ensures { Tells result (numbers.ge kind args) }
{
    on_two!(args, kind, a, b, truth(!a.lt(&b)))
}

/// The number with the other sign.
pub fn neg(kind: IntTy, args: Values) -> Result<Value, OpStop>
    requires { IsTrue (is_for NumberOp.Neg kind) }
    ensures { Tells result (numbers.neg kind args) }
{
    on_one!(args, kind, a, settle(a.neg()))
}

/// The bits that the number does not have.
pub fn complement(kind: IntTy, args: Values) -> Result<Value, OpStop>
    ensures { Tells result (numbers.complement kind args) }
{
    on_one!(args, kind, a, number(a.not()))
}

/// The bits shifted toward the high end.
pub fn shl(kind: IntTy, args: Values) -> Result<Value, OpStop>
    ensures { Tells result (numbers.shl kind args) }
{
    by_places!(args, kind, a, places, settle(a.shl(&places)))
}

/// The bits shifted toward the low end, with the sign before them.
pub fn shr(kind: IntTy, args: Values) -> Result<Value, OpStop>
    ensures { Tells result (numbers.shr kind args) }
{
    by_places!(args, kind, a, places, settle(a.shr(&places)))
}

/// The bits turned toward the high end.
pub fn rotl(kind: IntTy, args: Values) -> Result<Value, OpStop>
    requires { IsTrue (is_for NumberOp.Rotl kind) }
    ensures { Tells result (numbers.rotl kind args) }
{
    by_places!(args, kind, a, places, number(a.rotl(&places)))
}

/// The bits turned toward the low end.
pub fn rotr(kind: IntTy, args: Values) -> Result<Value, OpStop>
    requires { IsTrue (is_for NumberOp.Rotr kind) }
    ensures { Tells result (numbers.rotr kind args) }
{
    by_places!(args, kind, a, places, number(a.rotr(&places)))
}

/// The number modulo 2^width of the kind `to`: low bits, with the sign of the source before them.
pub fn cast(from: IntTy, to: IntTy, args: Values) -> Result<Value, OpStop>
    ensures { Tells result (numbers.cast from to args) }
{
    on_one!(args, from, a, number(a.cast(to)))
}

/// The other truth value.
pub fn bool_not(args: Values) -> Result<Value, OpStop>
    ensures { Tells result (numbers.bool_not args) }
{
    truth(!bool_of(one(args)?)?)
}
