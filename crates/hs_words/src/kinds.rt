ghost use Rattle.std.specs.Prelude.{◌≡◌, ◌≤◌};
ghost use Rattle.hs_words.specs.Kind.{width_of, is_signed, is_secret};

/// Why an operation has no value.
#[derive(Clone, Copy, Debug, PartialEq, Eq)]
pub enum Panic {
    /// The result does not lie in the range of its kind.
    Overflow,
    /// A divisor, or a length that divides, is 0.
    Division,
    /// A shift by at least the width.
    Shift,
    /// A place that a sequence or an array does not have.
    Index,
    /// A length that an operation does not take.
    Length,
    /// An `unwrap` of a value that is not there.
    Unwrap,
}

/// A kind of machine integers: public (`P`) or secret (`S`), unsigned (`U`) or signed (`I`), and its width in bits.
#[derive(Clone, Copy, Debug, PartialEq, Eq)]
pub enum IntTy {
    /// Public, unsigned, 8 bits.
    PU8,
    /// Public, unsigned, 16 bits.
    PU16,
    /// Public, unsigned, 32 bits.
    PU32,
    /// Public, unsigned, 64 bits.
    PU64,
    /// Public, unsigned, 128 bits.
    PU128,
    /// Public, unsigned, 64 bits: an index, an amount or a length.
    PUsize,
    /// Public, signed, 8 bits.
    PI8,
    /// Public, signed, 16 bits.
    PI16,
    /// Public, signed, 32 bits.
    PI32,
    /// Public, signed, 64 bits.
    PI64,
    /// Public, signed, 128 bits.
    PI128,
    /// Secret, unsigned, 8 bits.
    SU8,
    /// Secret, unsigned, 16 bits.
    SU16,
    /// Secret, unsigned, 32 bits.
    SU32,
    /// Secret, unsigned, 64 bits.
    SU64,
    /// Secret, unsigned, 128 bits.
    SU128,
}

impl IntTy {
    /// How many bits a number of this kind has: 8, 16, 32, 64 or 128. `PUsize` has 64.
    pub fn width(&self) -> u32
        ensures value { result ≡ width_of self.now }
        ensures least { 8 ≤ result }
        ensures greatest { result ≤ 128 }
    {
        match self {
            IntTy::PU8 | IntTy::PI8 | IntTy::SU8 => 8,
            IntTy::PU16 | IntTy::PI16 | IntTy::SU16 => 16,
            IntTy::PU32 | IntTy::PI32 | IntTy::SU32 => 32,
            IntTy::PU64 | IntTy::PUsize | IntTy::PI64 | IntTy::SU64 => 64,
            IntTy::PU128 | IntTy::PI128 | IntTy::SU128 => 128,
        }
    }

    /// Whether this kind has negative numbers, in two's complement.
    pub fn signed(&self) -> bool
        ensures { result ≡ is_signed self.now }
    {
        match self {
            IntTy::PI8 | IntTy::PI16 | IntTy::PI32 | IntTy::PI64 | IntTy::PI128 => true,
            _ => false,
        }
    }

    /// Whether numbers of this kind are secret.
    pub fn secret(&self) -> bool
        ensures { result ≡ is_secret self.now }
    {
        match self {
            IntTy::SU8 | IntTy::SU16 | IntTy::SU32 | IntTy::SU64 | IntTy::SU128 => true,
            _ => false,
        }
    }
}
