//! The types that are named again and again.

ghost use Rattle.std.specs.Prelude.{◌≡◌, map, IfOk};
ghost use Rattle.hs_values.specs.Kinds as k;
ghost use Rattle.hs_typing.specs.Types as t;

use hs_base::memory::NoMemory;
use hs_values::ValType;
use hs_words::IntTy;
use sqlite_items::Items;
use std::alloc::Global;

/// All kinds, in their order.
const KINDS: [IntTy; 16] = [
    IntTy::PU8,
    IntTy::PU16,
    IntTy::PU32,
    IntTy::PU64,
    IntTy::PU128,
    IntTy::PUsize,
    IntTy::PI8,
    IntTy::PI16,
    IntTy::PI32,
    IntTy::PI64,
    IntTy::PI128,
    IntTy::SU8,
    IntTy::SU16,
    IntTy::SU32,
    IntTy::SU64,
    IntTy::SU128,
];

/// The place of a kind among all.
fn place_of(kind: IntTy) -> usize
    ensures { result ≡ k.place_of kind }
{
    match kind {
        IntTy::PU8 => 0,
        IntTy::PU16 => 1,
        IntTy::PU32 => 2,
        IntTy::PU64 => 3,
        IntTy::PU128 => 4,
        IntTy::PUsize => 5,
        IntTy::PI8 => 6,
        IntTy::PI16 => 7,
        IntTy::PI32 => 8,
        IntTy::PI64 => 9,
        IntTy::PI128 => 10,
        IntTy::SU8 => 11,
        IntTy::SU16 => 12,
        IntTy::SU32 => 13,
        IntTy::SU64 => 14,
        IntTy::SU128 => 15,
    }
}

/// The types of integers of all kinds, in their order.
fn all_kinds(alloc: Global) -> Result<Items<ValType>, NoMemory>
    ensures { IfOk result (λ all. all ≡ map t.int k.kinds) }
{
    let mut types = Items::new(alloc);
    for kind in &KINDS {
        types.push(ValType::Int(*kind))?;
    }
    Ok(types)
}

/// The types of integers of all kinds, that of truth values, and the one with one value.
#[derive(Drop)]
pub struct Kinds {
    types: Items<ValType>,
    truth: ValType,
    unit: ValType,
    ghost in_order: { types ≡ map t.int k.kinds },
    ghost is_truth: { truth ≡ t.bool },
    ghost is_unit: { unit ≡ t.unit },
}

impl Kinds {
    /// All of them.
    ///
    /// # Errors
    ///
    /// `NoMemory` only for want of memory.
    pub fn new(alloc: Global) -> Result<Kinds, NoMemory> {
        Ok(Kinds {
            types: all_kinds(alloc)?,
            truth: ValType::Bool,
            unit: ValType::Unit,
        })
    }

    /// The type of integers of a kind.
    #[tactic(auto, using(crate::proofs::AllKinds::kind_there))]
    pub fn int(&self, kind: IntTy) -> &ValType
        ensures { result.now ≡ t.int kind }
    {
        match self.types.get(place_of(kind)) {
            Some(ty) => ty,
            None => &self.unit,
        }
    }

    /// The type of lengths, places and amounts.
    pub fn size(&self) -> &ValType
        ensures { result.now ≡ t.size }
    {
        self.int(IntTy::PUsize)
    }

    /// The type of truth values.
    pub fn truth(&self) -> &ValType
        ensures { result.now ≡ t.bool }
    {
        &self.truth
    }

    /// The type with one value.
    pub fn unit(&self) -> &ValType
        ensures { result.now ≡ t.unit }
    {
        &self.unit
    }
}
