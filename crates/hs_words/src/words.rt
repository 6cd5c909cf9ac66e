ghost use Rattle.std.specs.Prelude.{◌≡◌, ◌<◌, ◌≤◌, ◌^◌, ◌-◌, ◌%◌, ◌+ℤ◌, ◌-ℤ◌, ◌*ℤ◌, ◌<ℤ◌, neg_ℤ, ◌↔◌, pos, unsigned_abs, bit_and, bit_or, bit_xor, IsTrue, IsFalse, IfOk, SomeIff, MatchOption};
ghost use Rattle.hs_words.specs.Kind.{width_of, is_signed, is_secret};
ghost use Rattle.hs_words.specs.Word.{bits_of, from_bits, wrapped, meaning};
ghost use Rattle.hs_words.specs.Arithmetic.{is_in_range, exact, settled, quotient, remainder, left_shift, right_shift, left_turn, right_turn, turned, least_of};

use crate::kinds::{IntTy, Panic};
use std::marker::Model;

/// A machine integer: a kind, and a number in its range.
#[derive(Clone, Copy, Debug)]
pub struct Word {
    ty: IntTy,
    bits: u128,
}

impl Model for Word {
    ghost use Rattle.std.specs.Prelude.{◌<◌, ◌^◌};
    ghost use Rattle.hs_words.specs.Kind.{width_of};
    ghost use Rattle.hs_words.specs.Word.{Integer, bits_of, from_bits};
    ghost use Rattle.hs_words.specs.Residues.{bits_of-from_bits};

    ghost Value = { Integer };

    ghost view = { λ w. from_bits w.ty w.bits };

    ghost invariant = { λ w. w.bits < 2 ^ width_of w.ty };

    ghost inverse = { λ n. record { ty = n.kind; bits = bits_of n.kind n.number } };

    ghost inverse_ok = { λ w h i. record { ty = w.ty; bits = bits_of-from_bits w.ty w.bits h i } };
}

/// The greatest bits of a kind: 2^width - 1.
fn mask(ty: IntTy) -> u128
    ensures { result ≡ 2 ^ width_of ty - 1 }
{
    u128::MAX >> (128 - ty.width())
}

/// The word of the low bits of `number`.
fn low_bits(ty: IntTy, number: u128) -> Word
    ensures { result ≡ wrapped ty (pos number) }
{
    Word {
        ty,
        bits: number & mask(ty),
    }
}

/// The word of the low bits of `number` in two's complement.
fn low_bits_of_signed(ty: IntTy, number: i128) -> Word
    ensures { result ≡ wrapped ty number }
{
    low_bits(ty, number.cast_unsigned())
}

/// The greatest number of a signed kind.
fn greatest(ty: IntTy) -> i128
    requires { IsTrue (is_signed ty) }
    ensures { result ≡ pos (2 ^ (width_of ty - 1) - 1) }
{
    (mask(ty) >> 1) as i128
}

/// The least number of a signed kind.
fn least(ty: IntTy) -> i128
    requires { IsTrue (is_signed ty) }
    ensures { result ≡ least_of ty }
{
    -greatest(ty) - 1
}

/// Whether a signed kind has the number.
fn is_signed_number(ty: IntTy, number: i128) -> bool
    requires { IsTrue (is_signed ty) }
    ensures { result ≡ is_in_range ty number }
{
    least(ty) <= number && number <= greatest(ty)
}

/// What an exact operation at an unsigned kind gives; `number` is `None` where the result has no place in 128 bits.
fn exact_unsigned(ty: IntTy, number: Option<u128>) -> Result<Word, Panic>
    requires { IsFalse (is_signed ty) }
    ensures value { MatchOption number (result ≡ Err Panic.Overflow) (λ n. result ≡ exact ty (pos n)) }
    ensures kind { IfOk result (λ w. w.kind ≡ ty) }
{
    match number {
        Some(number) if number <= mask(ty) => Ok(low_bits(ty, number)),
        _ => Err(Panic::Overflow),
    }
}

/// What an exact operation at a signed kind gives.
fn exact_signed(ty: IntTy, number: Option<i128>) -> Result<Word, Panic>
    requires { IsTrue (is_signed ty) }
    ensures value { MatchOption number (result ≡ Err Panic.Overflow) (λ n. result ≡ exact ty n) }
    ensures kind { IfOk result (λ w. w.kind ≡ ty) }
{
    match number {
        Some(number) if is_signed_number(ty, number) => Ok(low_bits_of_signed(ty, number)),
        _ => Err(Panic::Overflow),
    }
}

/// The sum, difference or product of two words of one kind.
macro_rules! exact {
    ($a:ident, $b:ident, $checked:ident, $wrapping:ident) => {
        if $a.ty.secret() {
            Ok($a.$wrapping($b))
        } else if $a.ty.signed() {
            exact_signed($a.ty, $a.number().$checked($b.number()))
        } else {
            exact_unsigned($a.ty, $a.bits.$checked($b.bits))
        }
    };
}

/// The quotient or the remainder of two words of one public kind.
macro_rules! divide {
    ($a:ident, $b:ident, $op:tt) => {
        if $b.bits == 0 {
            Err(Panic::Division)
        } else if $a.ty.signed() {
            let dividend = $a.number();
            let divisor = $b.number();
            if divisor == -1 && dividend == least($a.ty) {
                Err(Panic::Overflow)
            } else {
                Ok(low_bits_of_signed($a.ty, dividend $op divisor))
            }
        } else {
            Ok(low_bits($a.ty, $a.bits $op $b.bits))
        }
    };
}

impl Word {
    /// The word of a kind with these bits; `None` exactly where they are not below 2^width.
    pub fn new(ty: IntTy, bits: u128) -> Option<Word>
        ensures { SomeIff result (bits < 2 ^ width_of ty) (from_bits ty bits) }
    {
        if bits <= mask(ty) {
            Some(Word { ty, bits })
        } else {
            None
        }
    }

    /// The kind.
    pub fn ty(&self) -> IntTy
        ensures value { result ≡ self.now.kind }
        ensures in_range { IsTrue (is_in_range self.now.kind self.now.number) }
    {
        self.ty
    }

    /// The number modulo 2^width: the low bits of its two's complement.
    pub fn bits(&self) -> u128
        ensures value { result ≡ bits_of self.now.kind self.now.number }
        ensures range { result < 2 ^ width_of self.now.kind }
        ensures meaning { self.now ≡ from_bits self.now.kind result }
    {
        self.bits
    }

    /// The number of a signed word.
    fn number(&self) -> i128
        requires { IsTrue (is_signed self.now.kind) }
        ensures { result ≡ self.now.number }
    {
        let mask = mask(self.ty);
        if self.bits <= mask >> 1 {
            self.bits as i128
        } else {
            -((mask - self.bits) as i128) - 1
        }
    }

    /// The sum. At a secret kind it is modulo 2^width.
    ///
    /// # Errors
    ///
    /// `Overflow` exactly where the kind is public and does not have the sum.
    pub fn add(&self, b: &Word) -> Result<Word, Panic>
        requires { b.now.kind ≡ self.now.kind }
        ensures value { result ≡ settled self.now.kind (self.now.number +ℤ b.now.number) }
        ensures kind { IfOk result (λ w. w.kind ≡ self.now.kind) }
    {
        exact!(self, b, checked_add, wadd)
    }

    /// The difference. At a secret kind it is modulo 2^width.
    ///
    /// # Errors
    ///
    /// `Overflow` exactly where the kind is public and does not have the difference.
    pub fn sub(&self, b: &Word) -> Result<Word, Panic>
        requires { b.now.kind ≡ self.now.kind }
        ensures value { result ≡ settled self.now.kind (self.now.number -ℤ b.now.number) }
        ensures kind { IfOk result (λ w. w.kind ≡ self.now.kind) }
    {
        exact!(self, b, checked_sub, wsub)
    }

    /// The product. At a secret kind it is modulo 2^width.
    ///
    /// # Errors
    ///
    /// `Overflow` exactly where the kind is public and does not have the product.
    pub fn mul(&self, b: &Word) -> Result<Word, Panic>
        requires { b.now.kind ≡ self.now.kind }
        ensures value { result ≡ settled self.now.kind (self.now.number *ℤ b.now.number) }
        ensures kind { IfOk result (λ w. w.kind ≡ self.now.kind) }
    {
        exact!(self, b, checked_mul, wmul)
    }

    /// The quotient, rounded toward zero.
    ///
    /// # Errors
    ///
    /// `Division` exactly where `b` is 0; `Overflow` exactly where `self` is the least signed number and `b` is -1.
    pub fn div(&self, b: &Word) -> Result<Word, Panic>
        requires same_kind { b.now.kind ≡ self.now.kind }
        requires public { IsFalse (is_secret self.now.kind) }
        ensures value { result ≡ quotient self.now b.now }
        ensures kind { IfOk result (λ w. w.kind ≡ self.now.kind) }
    {
        divide!(self, b, /)
    }

    /// The remainder of the quotient that is rounded toward zero; it has the sign of `self`.
    ///
    /// # Errors
    ///
    /// `Division` exactly where `b` is 0; `Overflow` exactly where `self` is the least signed number and `b` is -1.
    pub fn rem(&self, b: &Word) -> Result<Word, Panic>
        requires same_kind { b.now.kind ≡ self.now.kind }
        requires public { IsFalse (is_secret self.now.kind) }
        ensures value { result ≡ remainder self.now b.now }
        ensures kind { IfOk result (λ w. w.kind ≡ self.now.kind) }
    {
        divide!(self, b, %)
    }

    /// The number with the other sign.
    ///
    /// # Errors
    ///
    /// `Overflow` exactly where `self` is the least number of its kind.
    pub fn neg(&self) -> Result<Word, Panic>
        requires { IsTrue (is_signed self.now.kind) }
        ensures value { result ≡ exact self.now.kind (neg_ℤ self.now.number) }
        ensures kind { IfOk result (λ w. w.kind ≡ self.now.kind) }
        ensures overflow { (result ≡ Err Panic.Overflow) ↔ (self.now.number ≡ least_of self.now.kind) }
    {
        exact_signed(self.ty, self.number().checked_neg())
    }

    /// The bits that both words have.
    pub fn and(&self, b: &Word) -> Word
        requires { b.now.kind ≡ self.now.kind }
        ensures { result ≡ from_bits self.now.kind (bit_and (bits_of self.now.kind self.now.number) (bits_of b.now.kind b.now.number)) }
    {
        Word {
            ty: self.ty,
            bits: self.bits & b.bits,
        }
    }

    /// The bits that one of the words or both have.
    pub fn or(&self, b: &Word) -> Word
        requires { b.now.kind ≡ self.now.kind }
        ensures { result ≡ from_bits self.now.kind (bit_or (bits_of self.now.kind self.now.number) (bits_of b.now.kind b.now.number)) }
    {
        Word {
            ty: self.ty,
            bits: self.bits | b.bits,
        }
    }

    /// The bits that just one of the words has.
    pub fn xor(&self, b: &Word) -> Word
        requires { b.now.kind ≡ self.now.kind }
        ensures { result ≡ from_bits self.now.kind (bit_xor (bits_of self.now.kind self.now.number) (bits_of b.now.kind b.now.number)) }
    {
        Word {
            ty: self.ty,
            bits: self.bits ^ b.bits,
        }
    }

    /// The bits that the word does not have.
    pub fn not(&self) -> Word
        ensures { result ≡ from_bits self.now.kind (2 ^ width_of self.now.kind - 1 - bits_of self.now.kind self.now.number) }
    {
        Word {
            ty: self.ty,
            bits: mask(self.ty) - self.bits,
        }
    }

    /// The low bits of the number times 2^n.
    ///
    /// # Errors
    ///
    /// `Shift` exactly where `n` is at least the width.
    pub fn shl(&self, n: &Word) -> Result<Word, Panic>
        requires { n.now.kind ≡ IntTy.PUsize }
        ensures value { result ≡ left_shift self.now (unsigned_abs n.now.number) }
        ensures kind { IfOk result (λ w. w.kind ≡ self.now.kind) }
    {
        if n.bits < self.ty.width() as u128 {
            Ok(low_bits(self.ty, self.bits << n.bits as u32))
        } else {
            Err(Panic::Shift)
        }
    }

    /// The number divided by 2^n and rounded down, so that the sign is extended.
    ///
    /// # Errors
    ///
    /// `Shift` exactly where `n` is at least the width.
    pub fn shr(&self, n: &Word) -> Result<Word, Panic>
        requires { n.now.kind ≡ IntTy.PUsize }
        ensures value { result ≡ right_shift self.now (unsigned_abs n.now.number) }
        ensures kind { IfOk result (λ w. w.kind ≡ self.now.kind) }
    {
        if n.bits >= self.ty.width() as u128 {
            Err(Panic::Shift)
        } else if self.ty.signed() {
            Ok(low_bits_of_signed(self.ty, self.number() >> n.bits as u32))
        } else {
            Ok(low_bits(self.ty, self.bits >> n.bits as u32))
        }
    }

    /// The bits turned by `places`, which is neither 0 nor a whole turn.
    fn turn(&self, places: u32) -> Word
        requires some { 0 < places }
        requires in_width { places < width_of self.now.kind }
        ensures { result ≡ from_bits self.now.kind (turned (width_of self.now.kind) (bits_of self.now.kind self.now.number) places) }
    {
        Word {
            ty: self.ty,
            bits: (self.bits << places & mask(self.ty)) | self.bits >> (self.ty.width() - places),
        }
    }

    /// The bits turned toward the high end by `n` modulo the width; what leaves there comes in at the low end.
    pub fn rotl(&self, n: &Word) -> Word
        requires unsigned { IsFalse (is_signed self.now.kind) }
        requires places { n.now.kind ≡ IntTy.PUsize }
        ensures { result ≡ left_turn self.now (unsigned_abs n.now.number) }
    {
        let places = (n.bits % self.ty.width() as u128) as u32;
        if places == 0 {
            *self
        } else {
            self.turn(places)
        }
    }

    /// The bits turned toward the low end by `n` modulo the width; what leaves there comes in at the high end.
    pub fn rotr(&self, n: &Word) -> Word
        requires unsigned { IsFalse (is_signed self.now.kind) }
        requires places { n.now.kind ≡ IntTy.PUsize }
        ensures { result ≡ right_turn self.now (unsigned_abs n.now.number) }
    {
        let places = (n.bits % self.ty.width() as u128) as u32;
        if places == 0 {
            *self
        } else {
            self.turn(self.ty.width() - places)
        }
    }

    /// The sum modulo 2^width.
    pub fn wadd(&self, b: &Word) -> Word
        requires { b.now.kind ≡ self.now.kind }
        ensures { result ≡ wrapped self.now.kind (self.now.number +ℤ b.now.number) }
    {
        low_bits(self.ty, self.bits.wrapping_add(b.bits))
    }

    /// The difference modulo 2^width.
    pub fn wsub(&self, b: &Word) -> Word
        requires { b.now.kind ≡ self.now.kind }
        ensures { result ≡ wrapped self.now.kind (self.now.number -ℤ b.now.number) }
    {
        low_bits(self.ty, self.bits.wrapping_sub(b.bits))
    }

    /// The product modulo 2^width.
    pub fn wmul(&self, b: &Word) -> Word
        requires { b.now.kind ≡ self.now.kind }
        ensures { result ≡ wrapped self.now.kind (self.now.number *ℤ b.now.number) }
    {
        low_bits(self.ty, self.bits.wrapping_mul(b.bits))
    }

    /// The number modulo 2^width of the kind `to`: the low bits, with the sign extended where `self` is signed.
    pub fn cast(&self, to: IntTy) -> Word
        ensures { result ≡ wrapped to self.now.number }
    {
        if self.ty.signed() {
            low_bits_of_signed(to, self.number())
        } else {
            low_bits(to, self.bits)
        }
    }

    /// Whether the kinds and the numbers are equal.
    pub fn eq(&self, b: &Word) -> bool
        ensures { IsTrue result ↔ (self.now ≡ b.now) }
    {
        self.ty == b.ty && self.bits == b.bits
    }

    /// Whether the number is less than that of `b`.
    pub fn lt(&self, b: &Word) -> bool
        requires same_kind { b.now.kind ≡ self.now.kind }
        requires public { IsFalse (is_secret self.now.kind) }
        ensures { IsTrue result ↔ (self.now.number <ℤ b.now.number) }
    {
        if self.ty.signed() {
            self.number() < b.number()
        } else {
            self.bits < b.bits
        }
    }
}
