//! Programs: types, constants and functions, each in the order of items.

ghost use Rattle.std.specs.Prelude.{◌≡◌, IfOk};

use crate::features::Features;
use crate::node::{Block, Exp};
use crate::shared::Shared;
use hs_base::memory::NoMemory;
use hs_base::name::Name;
use hs_values::{TypeTable, ValType};
use sqlite_items::Items;

/// How a parameter is taken.
#[derive(Drop)]
pub enum Mode<F: Features> {
    /// By its value.
    Val,
    /// Lent.
    Ref,
    /// Lent to be changed.
    Mut(F::MutArg),
}

/// A parameter: its mode, the number of its local, and its type.
#[derive(Drop)]
pub struct Param<F: Features> {
    pub mode: Mode<F>,
    pub local: usize,
    pub ty: Shared<ValType>,
}

/// The names of a function's locals by their numbers, of a source also their types, and the function's block.
#[derive(Drop)]
pub struct Body<F: Features> {
    pub locals: Items<Name>,
    pub types: Items<Shared<ValType>>,
    pub block: Block<F>,
}

/// A function, which gives a value of the type.
#[derive(Drop)]
pub struct Function<F: Features> {
    pub name: Name,
    pub params: Items<Param<F>>,
    pub ty: Shared<ValType>,
    pub body: Body<F>,
}

/// A constant.
#[derive(Drop)]
pub struct Constant<F: Features> {
    pub name: Name,
    pub ty: Shared<ValType>,
    pub value: Exp<F>,
}

/// A program: its types, constants and functions, each in the order of items, and the text of which it is the source, in whose
/// bytes its nodes' places count; what a phase makes may have another one. Nothing in a program changes, so copies share all.
#[derive(Drop)]
pub struct Program<F: Features> {
    pub text: Shared<Vec<u8>>,
    pub types: Shared<TypeTable>,
    pub constants: Shared<Items<Constant<F>>>,
    pub functions: Shared<Items<Function<F>>>,
}

impl<F: Features> Program<F> {
    /// An equal program. It takes as long for a large one as for a small one.
    ///
    /// # Errors
    ///
    /// `NoMemory` only for want of memory.
    pub fn copy(&self) -> Result<Program<F>, NoMemory>
        ensures { IfOk result (λ copy. copy ≡ self.now) }
    {
        Ok(Program {
            text: self.text.share()?,
            types: self.types.share()?,
            constants: self.constants.share()?,
            functions: self.functions.share()?,
        })
    }
}
