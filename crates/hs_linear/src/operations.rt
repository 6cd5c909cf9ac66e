//! Which operands an operation takes by value, and which operations take out a part.

ghost use Rattle.std.specs.Prelude.{◌≡◌, ℕ};
ghost use Rattle.hs_ops.specs.Standard.{standard_table};
ghost use Rattle.hs_tree.specs.World.{operand_lent};
ghost use Rattle.hs_tree.specs.Source.{takes_part};
ghost use Rattle.hs_linear.specs.Uses.{lends, is_part, use_of};

use hs_ops::{Kind, OPS, OpRow, OpTable};

/// What an operation does with its operands.
#[derive(Clone, Copy, Debug, PartialEq, Eq)]
pub enum Use {
    /// It reads them.
    Reads,
    /// It reads a row or a tuple, and gives an item or a part of it.
    Parts,
    /// It takes each by value.
    TakesAll,
    /// It takes the one at this place by value, and reads the others.
    Takes(usize),
}

impl Use {
    /// Whether the operand at a place is lent.
    pub fn lends(self, place: usize) -> bool
        ensures { result ≡ lends self place }
    {
        match self {
            Use::Reads | Use::Parts => true,
            Use::TakesAll => false,
            Use::Takes(taken) => place != taken,
        }
    }

    /// Whether an item or a part is taken out.
    pub fn is_part(self) -> bool
        ensures { result ≡ is_part self }
    {
        self == Use::Parts
    }
}

/// What the operation of a row does with its operands. The kinds of what it takes and gives tell it: what becomes the result, an item
/// or a part of it is taken, and all else is read.
fn use_of(row: &OpRow) -> Use
    ensures { result ≡ use_of row.now.args row.now.result }
{
    let gives_any = row.result == Kind::Any;
    match row.args.as_slice() {
        [Kind::Each] => Use::TakesAll,
        [Kind::Option] | [Kind::Result] if gives_any => Use::TakesAll,
        [Kind::Any, Kind::Int(_)] => Use::Takes(0),
        [Kind::Tuple(_), Kind::Any] => Use::Takes(1),
        [Kind::Row, Kind::Int(_), Kind::Any] => Use::Takes(2),
        [Kind::Tuple(_)] => Use::Parts,
        [Kind::Row, Kind::Int(_)] if gives_any => Use::Parts,
        _ => Use::Reads,
    }
}

/// What the operation of a name does with its operands.
pub fn use_named(operations: &OpTable<OPS>, name: &[u8]) -> Use
    requires { operations.now ≡ standard_table }
    ensures lends { (place : ℕ) → lends result place ≡ operand_lent name.now place }
    ensures part { is_part result ≡ takes_part name.now }
{
    match operations.find(name) {
        Some(op) => use_of(operations.row(op)),
        None => Use::Reads,
    }
}
