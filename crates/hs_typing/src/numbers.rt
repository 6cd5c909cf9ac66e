//! Integers as they are written.

ghost use Rattle.std.specs.Prelude.{◌≡◌, ◌+◌, ◌-◌, ◌^◌, ◌<◌, pos, neg_ℤ, SomeIff, IsTrue};
ghost use Rattle.hs_words.specs.Arithmetic.{is_in_range};
ghost use Rattle.hs_words.specs.Kind.{width_of};
ghost use Rattle.hs_typing.specs.Views as v;

use hs_words::{IntTy, Word};

/// Half of how many numbers a kind has.
fn half_of(kind: IntTy) -> u128
    ensures twice { result + result ≡ 2 ^ width_of kind }
    ensures power { result ≡ 2 ^ (width_of kind - 1) }
{
    match kind {
        IntTy::PU8 | IntTy::PI8 | IntTy::SU8 => 128,
        IntTy::PU16 | IntTy::PI16 | IntTy::SU16 => 32_768,
        IntTy::PU32 | IntTy::PI32 | IntTy::SU32 => 2_147_483_648,
        IntTy::PU64 | IntTy::PI64 | IntTy::SU64 | IntTy::PUsize => 9_223_372_036_854_775_808,
        IntTy::PU128 | IntTy::PI128 | IntTy::SU128 => {
            170_141_183_460_469_231_731_687_303_715_884_105_728
        }
    }
}

/// The number of a kind with this value; `None` exactly where the kind does not have it.
fn not_negative(kind: IntTy, value: u128) -> Option<Word>
    ensures { SomeIff result (IsTrue (is_in_range kind (pos value))) (record { kind = kind; number = pos value }) }
{
    if !kind.signed() {
        return Word::new(kind, value);
    }
    if value >= half_of(kind) {
        return None;
    }
    Word::new(kind, value)
}

/// The number of a kind with this value below 0; `None` exactly where the kind does not have it.
fn negative(kind: IntTy, value: u128) -> Option<Word>
    requires below { 0 < value }
    ensures { SomeIff result (IsTrue (is_in_range kind (neg_ℤ (pos value)))) (record { kind = kind; number = neg_ℤ (pos value) }) }
{
    if !kind.signed() {
        return None;
    }
    let half = half_of(kind);
    if value > half {
        return None;
    }
    // The bits of -n are as many as there are numbers, less n.
    Word::new(kind, (half - value) + half)
}

/// The number of a kind with this value and this sign; `None` exactly where the kind does not have it.
pub fn literal(kind: IntTy, is_negative: bool, value: u128) -> Option<Word>
    ensures { SomeIff result (IsTrue (is_in_range kind (v.written is_negative value))) (record { kind = kind; number = v.written is_negative value }) }
{
    if !is_negative {
        return not_negative(kind, value);
    }
    if value == 0 {
        return not_negative(kind, 0);
    }
    negative(kind, value)
}
