//! Which operation a method stands for: for which types it is there, what it takes, and what it gives.

ghost use Rattle.std.specs.Prelude.{◌≡◌, [], ◌∷◌, ◌++◌, Some, option_map, IfOk, if◌then◌else◌};
ghost use Rattle.hs_ops.specs.Op as known;
ghost use Rattle.hs_ops.specs.declared.operation.NumberOp.TheVariants as numeric;
ghost use Rattle.hs_typing.specs.Called as c;
ghost use Rattle.hs_typing.specs.Operations as o;
ghost use Rattle.hs_typing.specs.Spelled as s;
ghost use Rattle.hs_typing.specs.Types as t;
ghost use Rattle.hs_typing.specs.Views as v;

use crate::ground::Ground;
use crate::operations::{Ask, Asks, Called, byte_of, plain, public_of, reads_row, takes, when_for};
use crate::shared::SharedType;
use crate::wishes::Wish;
use crate::words::{NumberWord, RowWord, is, number_word, row_word};
use hs_base::memory::NoMemory;
use hs_ops::{NumberOp, Operation, SingleOp};
use hs_values::ValType;
use hs_words::IntTy;

impl<'a> Ground<'a> {
    /// An operation on a number of a kind, which gives one of the kind, and on another that this asks.
    fn beside<'w>(
        &'w self,
        operation: NumberOp,
        kind: IntTy,
        other: &'w ValType,
    ) -> Result<Option<Called<'w>>, NoMemory>
        ensures { IfOk result (λ called. option_map c.called_of called ≡ o.when_for operation kind (o.takes other.now ∷ []) (t.int kind)) }
    {
        let gives = self.int(kind)?;
        Ok(when_for(operation, kind, Asks::One(takes(other)), gives))
    }

    /// An operation that gives the bytes of a number of a kind.
    fn to_bytes<'w>(&self, operation: NumberOp, kind: IntTy) -> Result<Option<Called<'w>>, NoMemory>
        ensures { IfOk result (λ called. option_map c.called_of called ≡ o.when_for operation kind [] (t.seq (o.byte_type kind))) }
    {
        let gives = self.seq_of(ValType::Int(byte_of(kind)))?;
        Ok(when_for(operation, kind, Asks::Nothing, gives))
    }

    /// The operation that opens a secret number of a kind.
    fn declassify<'w>(&self, kind: IntTy) -> Result<Option<Called<'w>>, NoMemory>
        ensures { IfOk result (λ called. option_map c.called_of called ≡ o.when_for numeric.Declassify kind [] (t.int (known.public_of kind))) }
    {
        let gives = self.int(public_of(kind))?;
        Ok(when_for(NumberOp::Declassify, kind, Asks::Nothing, gives))
    }

    /// A method of numbers of a kind.
    #[tactic(auto, unfolding(crate::specs::Operations::row_named))]
    fn number_called<'w>(
        &'w self,
        kind: IntTy,
        word: NumberWord,
    ) -> Result<Option<Called<'w>>, NoMemory>
        ensures { IfOk result (λ called. option_map c.called_of called ≡ o.row_named (o.number_methods (Some kind)) (s.number_text word)) }
    {
        match word {
            NumberWord::RotateLeft => self.beside(NumberOp::Rotl, kind, self.kinds.size()),
            NumberWord::RotateRight => self.beside(NumberOp::Rotr, kind, self.kinds.size()),
            NumberWord::WrappingAdd => self.beside(NumberOp::Wadd, kind, self.kinds.int(kind)),
            NumberWord::WrappingSub => self.beside(NumberOp::Wsub, kind, self.kinds.int(kind)),
            NumberWord::WrappingMul => self.beside(NumberOp::Wmul, kind, self.kinds.int(kind)),
            NumberWord::Declassify => self.declassify(kind),
            NumberWord::ToLe => self.to_bytes(NumberOp::ToLe, kind),
            NumberWord::ToBe => self.to_bytes(NumberOp::ToBe, kind),
        }
    }

    /// The method of numbers of a kind that has this name.
    fn number_method<'w>(&'w self, kind: IntTy, name: &[u8]) -> Result<Option<Called<'w>>, NoMemory>
        ensures { IfOk result (λ called. option_map c.called_of called ≡ o.row_named (o.number_methods (Some kind)) name.now) }
    {
        match number_word(name) {
            Some(word) => self.number_called(kind, word),
            None => Ok(None),
        }
    }

    /// A method of a sequence or an array with items of this type, whose type is the first, and which has `push` or not.
    #[tactic(auto, unfolding(crate::specs::Operations::row_named))]
    fn row_called<'w>(
        &'w self,
        own: &SharedType,
        item: &'w ValType,
        pushes: bool,
        word: RowWord,
    ) -> Result<Option<Called<'w>>, NoMemory>
        ensures { IfOk result (λ called. option_map c.called_of called ≡ o.row_named (o.row_methods (v.type_of own.now) (Some item.now) ++ (if pushes then o.seq_methods (v.type_of own.now) (Some item.now) else [])) (s.row_text word)) }
    {
        let size = takes(self.kinds.size());
        let row = reads_row(item);
        match word {
            RowWord::Len => {
                let gives = self.int(IntTy::PUsize)?;
                Ok(Some(plain(Operation::Single(SingleOp::Len), Asks::Nothing, gives)))
            }
            RowWord::Concat => {
                let gives = self.seq_of(item.copy(self.alloc)?)?;
                Ok(Some(plain(Operation::Single(SingleOp::Concat), Asks::One(row), gives)))
            }
            RowWord::Slice => {
                let gives = self.seq_of(item.copy(self.alloc)?)?;
                Ok(Some(plain(
                    Operation::Single(SingleOp::Slice),
                    Asks::Two(size, size),
                    gives,
                )))
            }
            RowWord::Update => {
                let gives = own.share()?;
                Ok(Some(plain(
                    Operation::Single(SingleOp::Put),
                    Asks::Two(size, row),
                    gives,
                )))
            }
            RowWord::NumChunks => {
                let gives = self.int(IntTy::PUsize)?;
                Ok(Some(plain(
                    Operation::Single(SingleOp::NumChunks),
                    Asks::One(size),
                    gives,
                )))
            }
            RowWord::GetChunk => {
                let gives = self.chunk_of(item)?;
                Ok(Some(plain(
                    Operation::Single(SingleOp::GetChunk),
                    Asks::Two(size, size),
                    gives,
                )))
            }
            RowWord::SetChunk => {
                let gives = own.share()?;
                let asks = Asks::Three(size, size, row);
                Ok(Some(plain(Operation::Single(SingleOp::SetChunk), asks, gives)))
            }
            RowWord::Push => {
                if pushes {
                    let gives = own.share()?;
                    let asks = Asks::One(Ask::Reads(Wish::Wants(item)));
                    Ok(Some(plain(Operation::Single(SingleOp::Push), asks, gives)))
                } else {
                    Ok(None)
                }
            }
        }
    }

    /// The method of a sequence or an array that has this name.
    fn row_method<'w>(
        &'w self,
        own: &SharedType,
        item: &'w ValType,
        pushes: bool,
        name: &[u8],
    ) -> Result<Option<Called<'w>>, NoMemory>
        ensures { IfOk result (λ called. option_map c.called_of called ≡ o.row_named (o.row_methods (v.type_of own.now) (Some item.now) ++ (if pushes then o.seq_methods (v.type_of own.now) (Some item.now) else [])) name.now) }
    {
        match row_word(name) {
            Some(word) => self.row_called(own, item, pushes, word),
            None => Ok(None),
        }
    }

    /// A method of an option with a part of this type.
    #[tactic(auto, unfolding(crate::specs::Operations::row_named))]
    fn option_method<'w>(&self, part: &ValType, name: &[u8]) -> Result<Option<Called<'w>>, NoMemory>
        ensures { IfOk result (λ called. option_map c.called_of called ≡ o.row_named (o.option_methods (Some part.now)) name.now) }
    {
        if is(name, "unwrap") {
            let gives = self.copied(part)?;
            Ok(Some(plain(Operation::Single(SingleOp::OptUnwrap), Asks::Nothing, gives)))
        } else if is(name, "is_some") {
            let gives = self.truth()?;
            Ok(Some(plain(Operation::Single(SingleOp::OptIsSome), Asks::Nothing, gives)))
        } else if is(name, "is_none") {
            let gives = self.truth()?;
            Ok(Some(plain(Operation::Single(SingleOp::OptIsNone), Asks::Nothing, gives)))
        } else {
            Ok(None)
        }
    }

    /// A method of a result with this good type.
    #[tactic(auto, unfolding(crate::specs::Operations::row_named))]
    fn result_method<'w>(&self, good: &ValType, name: &[u8]) -> Result<Option<Called<'w>>, NoMemory>
        ensures { IfOk result (λ called. option_map c.called_of called ≡ o.row_named (o.result_methods (Some good.now)) name.now) }
    {
        if is(name, "unwrap") {
            let gives = self.copied(good)?;
            Ok(Some(plain(Operation::Single(SingleOp::ResUnwrap), Asks::Nothing, gives)))
        } else if is(name, "is_ok") {
            let gives = self.truth()?;
            Ok(Some(plain(Operation::Single(SingleOp::ResIsOk), Asks::Nothing, gives)))
        } else if is(name, "is_err") {
            let gives = self.truth()?;
            Ok(Some(plain(Operation::Single(SingleOp::ResIsErr), Asks::Nothing, gives)))
        } else {
            Ok(None)
        }
    }

    /// A method that only some types have.
    #[tactic(auto, unfolding(crate::specs::Operations::row_named))]
    fn own_method<'w>(
        &'w self,
        own: &'w SharedType,
        name: &[u8],
    ) -> Result<Option<Called<'w>>, NoMemory>
        ensures { IfOk result (λ called. option_map c.called_of called ≡ o.row_named (o.own_methods self.now.table.types.now (v.type_of own.now)) name.now) }
    {
        match own.get() {
            ValType::Unit | ValType::Bool | ValType::Tuple(_) => Ok(None),
            ValType::Int(kind) => self.number_method(*kind, name),
            ValType::Option(part) => self.option_method(part.get(), name),
            ValType::Result(good, _) => self.result_method(good.get(), name),
            ValType::Seq(item) => self.row_method(own, item.get(), true, name),
            ValType::Named(_) => match self.table.item_of(own.get()) {
                Some(item) => self.row_method(own, item, false, name),
                None => Ok(None),
            },
        }
    }

    /// The operation that a method of values of a type is.
    ///
    /// # Errors
    ///
    /// `NoMemory` only for want of memory.
    #[tactic(auto, unfolding(crate::specs::Operations::row_named))]
    pub fn method<'w>(
        &'w self,
        own: &'w SharedType,
        name: &[u8],
    ) -> Result<Option<Called<'w>>, NoMemory>
        ensures { IfOk result (λ called. option_map c.called_of called ≡ o.method self.now.table.types.now (v.type_of own.now) name.now) }
    {
        if is(name, "clone") {
            let operation = Operation::Single(SingleOp::Clone);
            return Ok(Some(plain(operation, Asks::Nothing, own.share()?)));
        }
        self.own_method(own, name)
    }
}
