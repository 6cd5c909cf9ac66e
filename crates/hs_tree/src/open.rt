//! Writes the head of a form, and puts its parts on a stack of what is still to be written. So no call nests in another as nodes do.

ghost use Rattle.std.specs.Prelude.{◌≡◌, ℕ, List, [], ◌∷◌, ◌++◌, map, drop, codes, OnOk, MatchOption};
ghost use Rattle.hs_ops.specs.Names.{kind_name};
ghost use Rattle.hs_tree.specs.Plain.{no_args, no_arms, here};
ghost use Rattle.hs_tree.specs.Plain as plain;
ghost use Rattle.hs_tree.specs.Text.{Form, numeral, digits, no_forms, one, two, word, form, bytes_of, formed, framed, operator, around_word, shown_local, shown_truth, shown_exp, shown_exps, shown_args, shown_rhs, shown_arms, shown_steps, shown_rest};
ghost use Rattle.hs_tree.specs.Text as shown;
ghost use Rattle.hs_tree.specs.Of.{local, exps_of, chained, pattern_of, exp_of, arg_of, rhs_of, carry_of, arm_of, step_of, stmt_of, tail_of, block_of, around_of};
ghost use Rattle.hs_tree.specs.Pending.{local_on, bytes_on, next_on, from_statement, item_on, pending};

use crate::features::Features;
use crate::item::Item;
use crate::node::{Arg, Arm, Around, Block, Carry, Exp, Pattern, Rhs, Step, Stmt, Tail};
use crate::stack::Stack;
use crate::text::{write_local, write_pattern, write_type, write_word};
use hs_base::memory::NoMemory;
use hs_base::name::Name;
use hs_values::{TypeTable, ValType};
use hs_words::Word;
use sqlite_items::Items;
use std::alloc::Global;

/// Writes the word that a form begins with, and leaves its last parts to be written.
#[tactic(auto, using(std::proofs::Common::append_assoc, crate::proofs::Pieces::on_bytes))]
fn begin<'a, F: Features>(
    word: &[u8],
    parts: Item<'a, F>,
    names: &[Name],
    table: &TypeTable,
    text: &mut Vec<u8>,
    stack: &mut Stack<Item<'a, F>>,
) -> Result<(), NoMemory>
    ensures { OnOk result (text.new.items ++ pending table.now names.now stack.new ≡ text.old.items ++ (word.now ++ item_on table.now names.now parts.entry (pending table.now names.now stack.old))) }
{
    text.extend_from_slice(word)?;
    stack.push(parts)
}

/// Writes the word of a form with one part.
#[tactic(auto, using(std::proofs::Common::append_assoc, crate::proofs::Pieces::on_bytes))]
fn begin_one<'a, F: Features>(
    word: &[u8],
    part: Item<'a, F>,
    names: &[Name],
    table: &TypeTable,
    text: &mut Vec<u8>,
    stack: &mut Stack<Item<'a, F>>,
) -> Result<(), NoMemory>
    ensures { OnOk result (text.new.items ++ pending table.now names.now stack.new ≡ text.old.items ++ (word.now ++ item_on table.now names.now part.entry (41 ∷ pending table.now names.now stack.old))) }
{
    text.extend_from_slice(word)?;
    stack.push(Item::Close)?;
    stack.push(part)
}

/// Writes the word of a form with two parts.
#[tactic(auto, using(std::proofs::Common::append_assoc, crate::proofs::Pieces::on_bytes))]
fn begin_two<'a, F: Features>(
    word: &[u8],
    first: Item<'a, F>,
    second: Item<'a, F>,
    names: &[Name],
    table: &TypeTable,
    text: &mut Vec<u8>,
    stack: &mut Stack<Item<'a, F>>,
) -> Result<(), NoMemory>
    ensures { OnOk result (text.new.items ++ pending table.now names.now stack.new ≡ text.old.items ++ (word.now ++ item_on table.now names.now first.entry (item_on table.now names.now second.entry (41 ∷ pending table.now names.now stack.old)))) }
{
    text.extend_from_slice(word)?;
    stack.push(Item::Close)?;
    stack.push(second)?;
    stack.push(first)
}

/// A form of a word and a local.
#[tactic(auto, using(std::proofs::Common::append_assoc, crate::proofs::Pieces::on_bytes))]
fn write_local_form(
    alloc: Global,
    word: &[u8],
    number: usize,
    names: &[Name],
    text: &mut Vec<u8>,
) -> Result<(), NoMemory>
    ensures { OnOk result ((more : List ℕ) → text.new.items ++ more ≡ text.old.items ++ 32 ∷ bytes_on (shown.between (form (shown.word word.now) (shown_local (local names.now number) no_forms))) more) }
{
    text.extend_from_slice(b" (")?;
    text.extend_from_slice(word)?;
    write_local(alloc, names, number, text)?;
    text.extend_from_slice(b")")
}

/// A number.
#[tactic(auto, using(std::proofs::Common::append_assoc, crate::proofs::Pieces::on_bytes))]
fn write_lit(alloc: Global, number: &Word, text: &mut Vec<u8>) -> Result<(), NoMemory>
    ensures { OnOk result ((more : List ℕ) → text.new.items ++ more ≡ text.old.items ++ 32 ∷ bytes_on (formed (codes "lit") (two (word (kind_name number.now.kind)) (word (digits number.now.number)))) more) }
{
    text.extend_from_slice(b" (lit")?;
    write_word(alloc, number, text)?;
    text.extend_from_slice(b")")
}

/// A truth value.
#[tactic(auto, using(std::proofs::Common::append_assoc, crate::proofs::Pieces::on_bytes))]
fn write_truth(truth: bool, text: &mut Vec<u8>) -> Result<(), NoMemory>
    ensures { OnOk result ((more : List ℕ) → text.new.items ++ more ≡ text.old.items ++ 32 ∷ bytes_on (shown_truth truth) more) }
{
    if truth {
        text.extend_from_slice(b" true")
    } else {
        text.extend_from_slice(b" false")
    }
}

/// A constant.
#[tactic(auto, using(std::proofs::Common::append_assoc, crate::proofs::Pieces::on_bytes))]
fn write_const(name: &Name, text: &mut Vec<u8>) -> Result<(), NoMemory>
    ensures { OnOk result ((more : List ℕ) → text.new.items ++ more ≡ text.old.items ++ 32 ∷ bytes_on (formed (codes "const") (one (word name.now))) more) }
{
    text.extend_from_slice(b" (const ")?;
    text.extend_from_slice(name.bytes())?;
    text.extend_from_slice(b")")
}

/// The digits of a number.
#[tactic(auto, using(crate::proofs::Numerals::decimal_numeral))]
fn write_digits(alloc: Global, number: usize, text: &mut Vec<u8>) -> Result<(), NoMemory>
    ensures { OnOk result (text.new.items ≡ text.old.items ++ numeral number) }
{
    let digits = format!(in alloc; "{number}")?;
    text.extend_from_slice(digits.as_bytes())
}

/// A step to a part.
#[tactic(auto, using(std::proofs::Common::append_assoc, crate::proofs::Pieces::on_bytes))]
fn write_part(alloc: Global, number: usize, text: &mut Vec<u8>) -> Result<(), NoMemory>
    ensures { OnOk result ((more : List ℕ) → text.new.items ++ more ≡ text.old.items ++ 32 ∷ bytes_on (formed (codes "part") (one (word (numeral number)))) more) }
{
    text.extend_from_slice(b" (part ")?;
    write_digits(alloc, number, text)?;
    text.extend_from_slice(b")")
}

/// The operator of an assignment.
#[tactic(auto, using(std::proofs::Common::append_assoc, crate::proofs::Pieces::on_bytes))]
fn write_operator(name: &Option<Name>, text: &mut Vec<u8>) -> Result<(), NoMemory>
    ensures { OnOk result (text.new.items ≡ text.old.items ++ bytes_of (operator name.now)) }
{
    match name {
        Some(name) => text.extend_from_slice(name.bytes()),
        None => text.extend_from_slice(b"="),
    }
}

/// Whose block a binding of a control value stands in.
fn write_around(around: Around, text: &mut Vec<u8>) -> Result<(), NoMemory>
    ensures { OnOk result (text.new.items ≡ text.old.items ++ bytes_of (around_word (around_of around))) }
{
    match around {
        Around::Top => text.extend_from_slice(b"top"),
        Around::Inside => text.extend_from_slice(b"in"),
    }
}

/// Writes a word and a name, and leaves the last parts to be written.
#[tactic(auto, using(std::proofs::Common::append_assoc, crate::proofs::Pieces::on_bytes))]
fn begin_named<'a, F: Features>(
    word: &[u8],
    name: &Name,
    parts: Item<'a, F>,
    names: &[Name],
    table: &TypeTable,
    text: &mut Vec<u8>,
    stack: &mut Stack<Item<'a, F>>,
) -> Result<(), NoMemory>
    ensures { OnOk result (text.new.items ++ pending table.now names.now stack.new ≡ text.old.items ++ (word.now ++ (name.now ++ item_on table.now names.now parts.entry (pending table.now names.now stack.old)))) }
{
    text.extend_from_slice(word)?;
    text.extend_from_slice(name.bytes())?;
    stack.push(parts)
}

/// A constructor, whose parts are left to be written.
#[tactic(auto, using(std::proofs::Common::append_assoc, crate::proofs::Pieces::on_bytes))]
fn begin_ctor<'a, F: Features>(
    ty: &ValType,
    name: &Name,
    parts: Item<'a, F>,
    names: &[Name],
    table: &TypeTable,
    text: &mut Vec<u8>,
    stack: &mut Stack<Item<'a, F>>,
) -> Result<(), NoMemory>
    ensures { OnOk result (text.new.items ++ pending table.now names.now stack.new ≡ text.old.items ++ (codes " (ctor " ++ bytes_on (shown.shown_type table.now ty.now) (32 ∷ (name.now ++ item_on table.now names.now parts.entry (pending table.now names.now stack.old))))) }
{
    text.extend_from_slice(b" (ctor ")?;
    write_type(ty, table, text)?;
    begin_named(b" ", name, parts, names, table, text, stack)
}

/// Writes the word of a form with three parts.
#[tactic(auto, using(std::proofs::Common::append_assoc, crate::proofs::Pieces::on_bytes))]
fn begin_three<'a, F: Features>(
    word: &[u8],
    first: Item<'a, F>,
    second: Item<'a, F>,
    third: Item<'a, F>,
    names: &[Name],
    table: &TypeTable,
    text: &mut Vec<u8>,
    stack: &mut Stack<Item<'a, F>>,
) -> Result<(), NoMemory>
    ensures { OnOk result (text.new.items ++ pending table.now names.now stack.new ≡ text.old.items ++ (word.now ++ item_on table.now names.now first.entry (item_on table.now names.now second.entry (item_on table.now names.now third.entry (41 ∷ pending table.now names.now stack.old))))) }
{
    text.extend_from_slice(word)?;
    stack.push(Item::Close)?;
    stack.push(third)?;
    stack.push(second)?;
    stack.push(first)
}

/// The first item and those behind it, where there are any.
pub fn split<T>(items: &[T]) -> Option<(&T, &[T])>
    ensures { MatchOption result (items.now ≡ []) (λ p. items.now ≡ p.0.now ∷ p.1.now) }
{
    items.split_first()
}

/// The item at a place, and the place behind it, where there is one.
#[tactic(auto, using(crate::proofs::Pieces::left_from, crate::proofs::Pieces::none_left))]
fn item_at<T>(items: &Items<T>, at: usize) -> Option<(&T, usize)>
    ensures { MatchOption result (drop at items.now ≡ []) (λ p. drop at items.now ≡ p.0.now ∷ drop p.1 items.now) }
{
    let items = items.as_slice();
    if at < items.len() {
        Some((&items[at], at + 1))
    } else {
        None
    }
}

/// An expression, a space before it.
#[tactic(auto, using(std::proofs::Common::append_assoc, crate::proofs::Pieces::on_bytes))]
pub fn open_exp<'a, F: Features>(
    alloc: Global,
    exp: &'a Exp<F>,
    names: &[Name],
    table: &TypeTable,
    text: &mut Vec<u8>,
    stack: &mut Stack<Item<'a, F>>,
) -> Result<(), NoMemory>
    ensures { OnOk result (text.new.items ++ pending table.now names.now stack.new ≡ text.old.items ++ (32 ∷ bytes_on (shown_exp table.now (exp_of names.now exp.now)) (pending table.now names.now stack.old))) }
{
    match exp {
        Exp::Var(local, _) => write_local_form(alloc, b"var", *local, names, text),
        Exp::Lit(number) => write_lit(alloc, number, text),
        Exp::Truth(truth) => write_truth(*truth, text),
        Exp::Unit => text.extend_from_slice(b" unit"),
        Exp::Const(name) => write_const(name, text),
        Exp::Tuple(parts) => {
            let parts = Item::Exps(parts.as_slice());
            begin(b" (tuple", parts, names, table, text, stack)
        }
        Exp::List(items) => {
            let items = Item::Exps(items.as_slice());
            begin(b" (list", items, names, table, text, stack)
        }
        Exp::Ctor(ty, name, parts) => {
            let parts = Item::Exps(parts.as_slice());
            begin_ctor(ty.get(), name, parts, names, table, text, stack)
        }
        Exp::Op(name, _, operands) => {
            let operands = Item::Exps(operands.as_slice());
            begin_named(b" (op ", name, operands, names, table, text, stack)
        }
        Exp::Call(name, arguments) => {
            let arguments = Item::Exps(arguments.as_slice());
            begin_named(b" (call ", name, arguments, names, table, text, stack)
        }
        Exp::And(first, second) => {
            let first = Item::Exp(first.get());
            let second = Item::Exp(second.get());
            begin_two(b" (and", first, second, names, table, text, stack)
        }
        Exp::Or(first, second) => {
            let first = Item::Exp(first.get());
            let second = Item::Exp(second.get());
            begin_two(b" (or", first, second, names, table, text, stack)
        }
        Exp::In(_, rhs) => begin_one(b" (in", Item::Rhs(rhs.get()), names, table, text, stack),
        Exp::Exit(_, exp) => begin_one(b" (exit", Item::Exp(exp.get()), names, table, text, stack),
        Exp::Cont(_, exp) => begin_one(b" (cont", Item::Exp(exp.get()), names, table, text, stack),
    }
}

/// A block, a space before it.
#[tactic(auto, using(std::proofs::Common::append_assoc, crate::proofs::Pieces::on_bytes))]
fn open_block<'a, F: Features>(
    block: &'a Block<F>,
    names: &[Name],
    table: &TypeTable,
    text: &mut Vec<u8>,
    stack: &mut Stack<Item<'a, F>>,
) -> Result<(), NoMemory>
    ensures { OnOk result (text.new.items ++ pending table.now names.now stack.new ≡ text.old.items ++ (32 ∷ bytes_on (framed (shown_rest table.now (block_of names.now block.now))) (pending table.now names.now stack.old))) }
{
    match block {
        Block {
            statements: _,
            tail: _,
        } => begin(
            b" (block",
            Item::Statements(block, 0),
            names,
            table,
            text,
            stack,
        ),
    }
}

/// A loop without a value that is carried along: its word, its variable, its bounds and its body.
#[tactic(auto, using(std::proofs::Common::append_assoc, crate::proofs::Pieces::on_bytes))]
fn open_loop<'a, F: Features>(
    alloc: Global,
    word: &[u8],
    variable: usize,
    low: &'a Exp<F>,
    high: &'a Exp<F>,
    body: &'a Block<F>,
    names: &[Name],
    table: &TypeTable,
    text: &mut Vec<u8>,
    stack: &mut Stack<Item<'a, F>>,
) -> Result<(), NoMemory>
    ensures { OnOk result (text.new.items ++ pending table.now names.now stack.new ≡ text.old.items ++ (word.now ++ (local_on (local names.now variable) (32 ∷ bytes_on (shown_exp table.now (exp_of names.now low.now)) (32 ∷ bytes_on (shown_exp table.now (exp_of names.now high.now)) (32 ∷ bytes_on (framed (shown_rest table.now (block_of names.now body.now))) (41 ∷ pending table.now names.now stack.old))))))) }
{
    text.extend_from_slice(word)?;
    write_local(alloc, names, variable, text)?;
    let body = Item::Block(body);
    begin_three(
        b"",
        Item::Exp(low),
        Item::Exp(high),
        body,
        names,
        table,
        text,
        stack,
    )
}

/// What a loop carries along: its first value, the pattern that takes it, and the body.
fn leave_carried<'a, F: Features>(
    first: &'a Exp<F>,
    pattern: &'a Pattern,
    body: &'a Block<F>,
    names: &[Name],
    table: &TypeTable,
    stack: &mut Stack<Item<'a, F>>,
) -> Result<(), NoMemory>
    ensures { OnOk result (pending table.now names.now stack.new ≡ 32 ∷ bytes_on (shown_exp table.now (exp_of names.now first.now)) (32 ∷ bytes_on (shown.shown_pattern table.now (pattern_of names.now pattern.now)) (32 ∷ bytes_on (framed (shown_rest table.now (block_of names.now body.now))) (41 ∷ pending table.now names.now stack.old)))) }
{
    stack.push(Item::Close)?;
    stack.push(Item::Block(body))?;
    stack.push(Item::Pattern(pattern))?;
    stack.push(Item::Exp(first))
}

/// A loop that carries a value along, or a fold: its word, its variable and its bounds, before what it carries.
#[tactic(auto, using(std::proofs::Common::append_assoc, crate::proofs::Pieces::on_bytes))]
fn open_carry<'a, F: Features>(
    alloc: Global,
    word: &[u8],
    variable: usize,
    low: &'a Exp<F>,
    high: &'a Exp<F>,
    names: &[Name],
    table: &TypeTable,
    text: &mut Vec<u8>,
    stack: &mut Stack<Item<'a, F>>,
) -> Result<(), NoMemory>
    ensures { OnOk result (text.new.items ++ pending table.now names.now stack.new ≡ text.old.items ++ (word.now ++ (local_on (local names.now variable) (32 ∷ bytes_on (shown_exp table.now (exp_of names.now low.now)) (32 ∷ bytes_on (shown_exp table.now (exp_of names.now high.now)) (pending table.now names.now stack.old)))))) }
{
    text.extend_from_slice(word)?;
    write_local(alloc, names, variable, text)?;
    stack.push(Item::Exp(high))?;
    stack.push(Item::Exp(low))
}

/// A local that is lent, a space before it.
#[tactic(auto, using(std::proofs::Common::append_assoc, crate::proofs::Pieces::on_bytes))]
fn open_lend<'a, F: Features>(
    alloc: Global,
    number: usize,
    names: &[Name],
    table: &TypeTable,
    text: &mut Vec<u8>,
    stack: &mut Stack<Item<'a, F>>,
) -> Result<(), NoMemory>
    ensures { OnOk result (text.new.items ++ pending table.now names.now stack.new ≡ text.old.items ++ (32 ∷ bytes_on (formed (codes "lend") (shown_local (local names.now number) no_forms)) (pending table.now names.now stack.old))) }
{
    write_local_form(alloc, b"lend", number, names, text)
}

/// A step to a part, a space before it.
#[tactic(auto, using(std::proofs::Common::append_assoc, crate::proofs::Pieces::on_bytes))]
fn open_part<'a, F: Features>(
    alloc: Global,
    number: usize,
    names: &[Name],
    table: &TypeTable,
    text: &mut Vec<u8>,
    stack: &mut Stack<Item<'a, F>>,
) -> Result<(), NoMemory>
    ensures { OnOk result (text.new.items ++ pending table.now names.now stack.new ≡ text.old.items ++ (32 ∷ bytes_on (formed (codes "part") (one (word (numeral number)))) (pending table.now names.now stack.old))) }
{
    write_part(alloc, number, text)
}

/// A loop that carries a value along, a space before it.
#[tactic(auto, using(std::proofs::Common::append_assoc, crate::proofs::Pieces::on_bytes))]
fn open_turns<'a, F: Features>(
    alloc: Global,
    carry: &'a Carry<F>,
    names: &[Name],
    table: &TypeTable,
    text: &mut Vec<u8>,
    stack: &mut Stack<Item<'a, F>>,
) -> Result<(), NoMemory>
    ensures { OnOk result (text.new.items ++ pending table.now names.now stack.new ≡ text.old.items ++ (32 ∷ bytes_on (shown_rhs table.now (carry_of names.now carry.now plain.turns)) (pending table.now names.now stack.old))) }
{
    match carry {
        Carry {
            variable,
            low,
            high,
            first,
            pattern,
            body,
        } => {
            leave_carried(first, pattern, body, names, table, stack)?;
            open_carry(
                alloc, b" (turns", *variable, low, high, names, table, text, stack,
            )
        }
    }
}

/// A loop that carries a value along and that a control value ends, a space before it.
#[tactic(auto, using(std::proofs::Common::append_assoc, crate::proofs::Pieces::on_bytes))]
fn open_turnscf<'a, F: Features>(
    alloc: Global,
    carry: &'a Carry<F>,
    names: &[Name],
    table: &TypeTable,
    text: &mut Vec<u8>,
    stack: &mut Stack<Item<'a, F>>,
) -> Result<(), NoMemory>
    ensures { OnOk result (text.new.items ++ pending table.now names.now stack.new ≡ text.old.items ++ (32 ∷ bytes_on (shown_rhs table.now (carry_of names.now carry.now plain.turnscf)) (pending table.now names.now stack.old))) }
{
    match carry {
        Carry {
            variable,
            low,
            high,
            first,
            pattern,
            body,
        } => {
            leave_carried(first, pattern, body, names, table, stack)?;
            open_carry(
                alloc,
                b" (turnscf",
                *variable,
                low,
                high,
                names,
                table,
                text,
                stack,
            )
        }
    }
}

/// A fold, a space before it.
#[tactic(auto, using(std::proofs::Common::append_assoc, crate::proofs::Pieces::on_bytes))]
fn open_fold<'a, F: Features>(
    alloc: Global,
    carry: &'a Carry<F>,
    names: &[Name],
    table: &TypeTable,
    text: &mut Vec<u8>,
    stack: &mut Stack<Item<'a, F>>,
) -> Result<(), NoMemory>
    ensures { OnOk result (text.new.items ++ pending table.now names.now stack.new ≡ text.old.items ++ (32 ∷ bytes_on (shown_rhs table.now (carry_of names.now carry.now plain.fold)) (pending table.now names.now stack.old))) }
{
    match carry {
        Carry {
            variable,
            low,
            high,
            first,
            pattern,
            body,
        } => {
            leave_carried(first, pattern, body, names, table, stack)?;
            open_carry(
                alloc, b" (fold", *variable, low, high, names, table, text, stack,
            )
        }
    }
}

/// A fold that a control value ends, a space before it.
#[tactic(auto, using(std::proofs::Common::append_assoc, crate::proofs::Pieces::on_bytes))]
fn open_foldcf<'a, F: Features>(
    alloc: Global,
    carry: &'a Carry<F>,
    names: &[Name],
    table: &TypeTable,
    text: &mut Vec<u8>,
    stack: &mut Stack<Item<'a, F>>,
) -> Result<(), NoMemory>
    ensures { OnOk result (text.new.items ++ pending table.now names.now stack.new ≡ text.old.items ++ (32 ∷ bytes_on (shown_rhs table.now (carry_of names.now carry.now plain.foldcf)) (pending table.now names.now stack.old))) }
{
    match carry {
        Carry {
            variable,
            low,
            high,
            first,
            pattern,
            body,
        } => {
            leave_carried(first, pattern, body, names, table, stack)?;
            open_carry(
                alloc,
                b" (foldcf",
                *variable,
                low,
                high,
                names,
                table,
                text,
                stack,
            )
        }
    }
}

/// A right side, a space before it.
#[tactic(auto, using(std::proofs::Common::append_assoc, crate::proofs::Pieces::on_bytes))]
pub fn open_rhs<'a, F: Features>(
    alloc: Global,
    rhs: &'a Rhs<F>,
    names: &[Name],
    table: &TypeTable,
    text: &mut Vec<u8>,
    stack: &mut Stack<Item<'a, F>>,
) -> Result<(), NoMemory>
    ensures { OnOk result (text.new.items ++ pending table.now names.now stack.new ≡ text.old.items ++ (32 ∷ bytes_on (shown_rhs table.now (rhs_of names.now rhs.now)) (pending table.now names.now stack.old))) }
{
    match rhs {
        Rhs::Exp(exp) => open_exp(alloc, exp, names, table, text, stack),
        Rhs::If(condition, first, second) => {
            let first = Item::Block(first.get());
            let second = Item::Block(second.get());
            begin_three(
                b" (if",
                Item::Exp(condition),
                first,
                second,
                names,
                table,
                text,
                stack,
            )
        }
        Rhs::Match(value, arms) => {
            stack.push(Item::Arms(arms, 0))?;
            begin(b" (match", Item::Exp(value), names, table, text, stack)
        }
        Rhs::Block(block) => open_block(block.get(), names, table, text, stack),
        Rhs::LendCall(_, name, arguments) => {
            begin_named(
                b" (lendcall ",
                name,
                Item::Args(arguments, 0),
                names,
                table,
                text,
                stack,
            )
        }
        Rhs::Quest(_, _, exp) => begin_one(b" (quest", Item::Exp(exp), names, table, text, stack),
        Rhs::ForCf(_, _, _, variable, low, high, body) => {
            open_loop(
                alloc,
                b" (forcf",
                *variable,
                low,
                high,
                body.get(),
                names,
                table,
                text,
                stack,
            )
        }
        Rhs::Turns(_, _, carry) => open_turns(alloc, carry.get(), names, table, text, stack),
        Rhs::TurnsCf(_, _, _, carry) => open_turnscf(alloc, carry.get(), names, table, text, stack),
        Rhs::Fold(_, carry) => open_fold(alloc, carry.get(), names, table, text, stack),
        Rhs::FoldCf(_, _, carry) => open_foldcf(alloc, carry.get(), names, table, text, stack),
    }
}

/// The last expressions of a form.
#[tactic(auto, using(std::proofs::Common::append_assoc, crate::proofs::Pieces::on_bytes))]
fn open_exps<'a, F: Features>(
    alloc: Global,
    exps: &'a [Exp<F>],
    names: &[Name],
    table: &TypeTable,
    text: &mut Vec<u8>,
    stack: &mut Stack<Item<'a, F>>,
) -> Result<(), NoMemory>
    ensures { OnOk result (text.new.items ++ pending table.now names.now stack.new ≡ text.old.items ++ (next_on (shown_exps table.now (exps_of (map (exp_of names.now) exps.now))) (pending table.now names.now stack.old))) }
{
    match split(exps) {
        None => text.extend_from_slice(b")"),
        Some((first, rest)) => {
            stack.push(Item::Exps(rest))?;
            open_exp(alloc, first, names, table, text, stack)
        }
    }
}

/// An argument of a call that lends, a space before it, before those from a place on.
#[tactic(auto, using(std::proofs::Common::append_assoc, crate::proofs::Pieces::on_bytes))]
fn open_arg<'a, F: Features>(
    alloc: Global,
    arg: &'a Arg<F>,
    args: &'a Items<Arg<F>>,
    next: usize,
    names: &[Name],
    table: &TypeTable,
    text: &mut Vec<u8>,
    stack: &mut Stack<Item<'a, F>>,
) -> Result<(), NoMemory>
    ensures { OnOk result (text.new.items ++ pending table.now names.now stack.new ≡ text.old.items ++ (next_on (shown_args table.now (arg_of names.now arg.now (chained (map (arg_of names.now) (drop next args.now)) no_args))) (pending table.now names.now stack.old))) }
{
    stack.push(Item::Args(args, next))?;
    match arg {
        Arg::Value(exp) => open_exp(alloc, exp, names, table, text, stack),
        Arg::Lend(local, _) => open_lend(alloc, *local, names, table, text, stack),
    }
}

/// The arguments of a call from this place on.
#[tactic(auto, using(std::proofs::Common::append_assoc, crate::proofs::Pieces::on_bytes))]
fn open_args<'a, F: Features>(
    alloc: Global,
    args: &'a Items<Arg<F>>,
    at: usize,
    names: &[Name],
    table: &TypeTable,
    text: &mut Vec<u8>,
    stack: &mut Stack<Item<'a, F>>,
) -> Result<(), NoMemory>
    ensures { OnOk result (text.new.items ++ pending table.now names.now stack.new ≡ text.old.items ++ (next_on (shown_args table.now (chained (map (arg_of names.now) (drop at args.now)) no_args)) (pending table.now names.now stack.old))) }
{
    match item_at(args, at) {
        None => text.extend_from_slice(b")"),
        Some((arg, next)) => open_arg(alloc, arg, args, next, names, table, text, stack),
    }
}

/// A pattern and a block behind a word.
#[tactic(auto, using(std::proofs::Common::append_assoc, crate::proofs::Pieces::on_bytes))]
fn begin_bound<'a, F: Features>(
    alloc: Global,
    word: &[u8],
    pattern: &'a Pattern,
    part: Item<'a, F>,
    names: &[Name],
    table: &TypeTable,
    text: &mut Vec<u8>,
    stack: &mut Stack<Item<'a, F>>,
) -> Result<(), NoMemory>
    ensures { OnOk result (text.new.items ++ pending table.now names.now stack.new ≡ text.old.items ++ (word.now ++ bytes_on (shown.shown_pattern table.now (pattern_of names.now pattern.now)) (item_on table.now names.now part.entry (41 ∷ pending table.now names.now stack.old)))) }
{
    text.extend_from_slice(word)?;
    write_pattern(alloc, pattern, names, table, text)?;
    begin_one(b"", part, names, table, text, stack)
}

/// An arm, a space before it, before those from a place on.
#[tactic(auto, using(std::proofs::Common::append_assoc, crate::proofs::Pieces::on_bytes))]
fn open_arm<'a, F: Features>(
    alloc: Global,
    arm: &'a Arm<F>,
    arms: &'a Items<Arm<F>>,
    next: usize,
    names: &[Name],
    table: &TypeTable,
    text: &mut Vec<u8>,
    stack: &mut Stack<Item<'a, F>>,
) -> Result<(), NoMemory>
    ensures { OnOk result (text.new.items ++ pending table.now names.now stack.new ≡ text.old.items ++ (next_on (shown_arms table.now (arm_of names.now arm.now (chained (map (arm_of names.now) (drop next arms.now)) no_arms))) (pending table.now names.now stack.old))) }
{
    stack.push(Item::Arms(arms, next))?;
    match arm {
        Arm { pattern, block } => begin_bound(
            alloc,
            b" (arm ",
            pattern,
            Item::Block(block),
            names,
            table,
            text,
            stack,
        ),
    }
}

/// The arms of a match from this place on.
#[tactic(auto, using(std::proofs::Common::append_assoc, crate::proofs::Pieces::on_bytes))]
fn open_arms<'a, F: Features>(
    alloc: Global,
    arms: &'a Items<Arm<F>>,
    at: usize,
    names: &[Name],
    table: &TypeTable,
    text: &mut Vec<u8>,
    stack: &mut Stack<Item<'a, F>>,
) -> Result<(), NoMemory>
    ensures { OnOk result (text.new.items ++ pending table.now names.now stack.new ≡ text.old.items ++ (next_on (shown_arms table.now (chained (map (arm_of names.now) (drop at arms.now)) no_arms)) (pending table.now names.now stack.old))) }
{
    match item_at(arms, at) {
        None => text.extend_from_slice(b")"),
        Some((arm, next)) => open_arm(alloc, arm, arms, next, names, table, text, stack),
    }
}

/// A step of an assignment, a space before it.
#[tactic(auto, using(std::proofs::Common::append_assoc, crate::proofs::Pieces::on_bytes))]
fn open_step<'a, F: Features>(
    alloc: Global,
    step: &'a Step<F>,
    steps: &'a [Step<F>],
    rhs: &'a Rhs<F>,
    names: &[Name],
    table: &TypeTable,
    text: &mut Vec<u8>,
    stack: &mut Stack<Item<'a, F>>,
) -> Result<(), NoMemory>
    ensures { OnOk result (text.new.items ++ pending table.now names.now stack.new ≡ text.old.items ++ (next_on (shown_steps table.now (step_of names.now step.now (chained (map (step_of names.now) steps.now) here)) (shown_rhs table.now (rhs_of names.now rhs.now))) (pending table.now names.now stack.old))) }
{
    stack.push(Item::Steps(steps, rhs))?;
    match step {
        Step::At(exp) => begin_one(b" (at", Item::Exp(exp), names, table, text, stack),
        Step::Part(number) => open_part(alloc, *number, names, table, text, stack),
    }
}

/// The last steps of an assignment, and its right side.
#[tactic(auto, using(std::proofs::Common::append_assoc, crate::proofs::Pieces::on_bytes))]
fn open_steps<'a, F: Features>(
    alloc: Global,
    steps: &'a [Step<F>],
    rhs: &'a Rhs<F>,
    names: &[Name],
    table: &TypeTable,
    text: &mut Vec<u8>,
    stack: &mut Stack<Item<'a, F>>,
) -> Result<(), NoMemory>
    ensures { OnOk result (text.new.items ++ pending table.now names.now stack.new ≡ text.old.items ++ (next_on (shown_steps table.now (chained (map (step_of names.now) steps.now) here) (shown_rhs table.now (rhs_of names.now rhs.now))) (pending table.now names.now stack.old))) }
{
    match split(steps) {
        None => {
            stack.push(Item::Close)?;
            open_rhs(alloc, rhs, names, table, text, stack)
        }
        Some((first, rest)) => open_step(alloc, first, rest, rhs, names, table, text, stack),
    }
}

/// An assignment to a part, a space before it.
#[tactic(auto, using(std::proofs::Common::append_assoc, crate::proofs::Pieces::on_bytes))]
fn begin_place<'a, F: Features>(
    alloc: Global,
    name: &Option<Name>,
    number: usize,
    steps: &'a [Step<F>],
    rhs: &'a Rhs<F>,
    names: &[Name],
    table: &TypeTable,
    text: &mut Vec<u8>,
    stack: &mut Stack<Item<'a, F>>,
) -> Result<(), NoMemory>
    ensures { OnOk result (text.new.items ++ pending table.now names.now stack.new ≡ text.old.items ++ (codes " (place " ++ bytes_on (operator name.now) (local_on (local names.now number) (next_on (shown_steps table.now (chained (map (step_of names.now) steps.now) here) (shown_rhs table.now (rhs_of names.now rhs.now))) (pending table.now names.now stack.old))))) }
{
    text.extend_from_slice(b" (place ")?;
    write_operator(name, text)?;
    write_local(alloc, names, number, text)?;
    stack.push(Item::Steps(steps, rhs))
}

/// An assignment to a local, a space before it.
#[tactic(auto, using(std::proofs::Common::append_assoc, crate::proofs::Pieces::on_bytes))]
fn begin_set<'a, F: Features>(
    alloc: Global,
    number: usize,
    rhs: &'a Rhs<F>,
    names: &[Name],
    table: &TypeTable,
    text: &mut Vec<u8>,
    stack: &mut Stack<Item<'a, F>>,
) -> Result<(), NoMemory>
    ensures { OnOk result (text.new.items ++ pending table.now names.now stack.new ≡ text.old.items ++ (codes " (set" ++ (local_on (local names.now number) (32 ∷ bytes_on (shown_rhs table.now (rhs_of names.now rhs.now)) (41 ∷ pending table.now names.now stack.old))))) }
{
    text.extend_from_slice(b" (set")?;
    write_local(alloc, names, number, text)?;
    begin_one(b"", Item::Rhs(rhs), names, table, text, stack)
}

/// A statement, a space before it, before those from a place on.
#[tactic(auto, using(std::proofs::Common::append_assoc, crate::proofs::Pieces::on_bytes))]
fn open_statement<'a, F: Features>(
    alloc: Global,
    statement: &'a Stmt<F>,
    block: &'a Block<F>,
    next: usize,
    names: &[Name],
    table: &TypeTable,
    text: &mut Vec<u8>,
    stack: &mut Stack<Item<'a, F>>,
) -> Result<(), NoMemory>
    ensures { OnOk result (text.new.items ++ pending table.now names.now stack.new ≡ text.old.items ++ (next_on (shown_rest table.now (stmt_of names.now statement.now (from_statement names.now block.now next))) (pending table.now names.now stack.old))) }
{
    stack.push(Item::Statements(block, next))?;
    match statement {
        Stmt::Let(pattern, rhs) => begin_bound(
            alloc,
            b" (let ",
            pattern,
            Item::Rhs(rhs),
            names,
            table,
            text,
            stack,
        ),
        Stmt::Do(rhs) => begin_one(b" (do", Item::Rhs(rhs), names, table, text, stack),
        Stmt::Place(_, _, name, local, steps, rhs) => {
            begin_place(
                alloc,
                name,
                *local,
                steps.as_slice(),
                rhs,
                names,
                table,
                text,
                stack,
            )
        }
        Stmt::Set(_, local, rhs) => begin_set(alloc, *local, rhs, names, table, text, stack),
        Stmt::For(_, _, variable, low, high, body) => {
            open_loop(
                alloc,
                b" (for",
                *variable,
                low,
                high,
                body.get(),
                names,
                table,
                text,
                stack,
            )
        }
    }
}

/// A binding of a control value, a space before it.
#[tactic(auto, using(std::proofs::Common::append_assoc, crate::proofs::Pieces::on_bytes))]
fn begin_bind<'a, F: Features>(
    alloc: Global,
    around: Around,
    pattern: &'a Pattern,
    rhs: &'a Rhs<F>,
    block: &'a Block<F>,
    names: &[Name],
    table: &TypeTable,
    text: &mut Vec<u8>,
    stack: &mut Stack<Item<'a, F>>,
) -> Result<(), NoMemory>
    ensures { OnOk result (text.new.items ++ pending table.now names.now stack.new ≡ text.old.items ++ (codes " (bind " ++ bytes_on (around_word (around_of around)) (32 ∷ bytes_on (shown.shown_pattern table.now (pattern_of names.now pattern.now)) (32 ∷ bytes_on (shown_rhs table.now (rhs_of names.now rhs.now)) (32 ∷ bytes_on (framed (shown_rest table.now (block_of names.now block.now))) (41 ∷ pending table.now names.now stack.old)))))) }
{
    text.extend_from_slice(b" (bind ")?;
    write_around(around, text)?;
    text.extend_from_slice(b" ")?;
    write_pattern(alloc, pattern, names, table, text)?;
    begin_two(
        b"",
        Item::Rhs(rhs),
        Item::Block(block),
        names,
        table,
        text,
        stack,
    )
}

/// The end of a block.
#[tactic(auto, using(std::proofs::Common::append_assoc, crate::proofs::Pieces::on_bytes))]
fn open_tail<'a, F: Features>(
    alloc: Global,
    tail: &'a Tail<F>,
    names: &[Name],
    table: &TypeTable,
    text: &mut Vec<u8>,
    stack: &mut Stack<Item<'a, F>>,
) -> Result<(), NoMemory>
    ensures { OnOk result (text.new.items ++ pending table.now names.now stack.new ≡ text.old.items ++ (next_on (shown_rest table.now (tail_of names.now tail.now)) (pending table.now names.now stack.old))) }
{
    stack.push(Item::Close)?;
    match tail {
        Tail::Rhs(rhs) => open_rhs(alloc, rhs, names, table, text, stack),
        Tail::Return(_, exp) => begin_one(b" (return", Item::Exp(exp), names, table, text, stack),
        Tail::Bind(_, around, pattern, rhs, block) => {
            begin_bind(
                alloc,
                *around,
                pattern,
                rhs,
                block.get(),
                names,
                table,
                text,
                stack,
            )
        }
    }
}

/// The statements of a block from this place on, and its end.
#[tactic(auto, using(std::proofs::Common::append_assoc, crate::proofs::Pieces::on_bytes))]
fn open_statements<'a, F: Features>(
    alloc: Global,
    block: &'a Block<F>,
    at: usize,
    names: &[Name],
    table: &TypeTable,
    text: &mut Vec<u8>,
    stack: &mut Stack<Item<'a, F>>,
) -> Result<(), NoMemory>
    ensures { OnOk result (text.new.items ++ pending table.now names.now stack.new ≡ text.old.items ++ (next_on (shown_rest table.now (from_statement names.now block.now at)) (pending table.now names.now stack.old))) }
{
    match block {
        Block { statements, tail } => match item_at(statements, at) {
            None => open_tail(alloc, tail, names, table, text, stack),
            Some((statement, next)) => open_statement(
                alloc, statement, block, next, names, table, text, stack,
            ),
        },
    }
}

/// A pattern, a space before it.
#[tactic(auto, using(std::proofs::Common::append_assoc, crate::proofs::Pieces::on_bytes))]
fn open_pattern<'a, F: Features>(
    alloc: Global,
    pattern: &'a Pattern,
    names: &[Name],
    table: &TypeTable,
    text: &mut Vec<u8>,
    stack: &mut Stack<Item<'a, F>>,
) -> Result<(), NoMemory>
    ensures { OnOk result (text.new.items ++ pending table.now names.now stack.new ≡ text.old.items ++ (32 ∷ bytes_on (shown.shown_pattern table.now (pattern_of names.now pattern.now)) (pending table.now names.now stack.old))) }
{
    text.extend_from_slice(b" ")?;
    write_pattern(alloc, pattern, names, table, text)
}

/// The end of a form.
#[tactic(auto, using(std::proofs::Common::append_assoc, crate::proofs::Pieces::on_bytes))]
fn close<'a, F: Features>(
    names: &[Name],
    table: &TypeTable,
    text: &mut Vec<u8>,
    stack: &mut Stack<Item<'a, F>>,
) -> Result<(), NoMemory>
    ensures { OnOk result (text.new.items ++ pending table.now names.now stack.new ≡ text.old.items ++ (41 ∷ pending table.now names.now stack.old)) }
{
    text.extend_from_slice(b")")
}

/// An item that was on top of the stack.
#[tactic(auto, using(std::proofs::Common::append_assoc, crate::proofs::Pieces::on_bytes))]
pub fn open<'a, F: Features>(
    alloc: Global,
    item: Item<'a, F>,
    names: &[Name],
    table: &TypeTable,
    text: &mut Vec<u8>,
    stack: &mut Stack<Item<'a, F>>,
) -> Result<(), NoMemory>
    ensures { OnOk result (text.new.items ++ pending table.now names.now stack.new ≡ text.old.items ++ (item_on table.now names.now item.entry (pending table.now names.now stack.old))) }
{
    match item {
        Item::Exp(exp) => open_exp(alloc, exp, names, table, text, stack),
        Item::Rhs(rhs) => open_rhs(alloc, rhs, names, table, text, stack),
        Item::Block(block) => open_block(block, names, table, text, stack),
        Item::Pattern(pattern) => open_pattern(alloc, pattern, names, table, text, stack),
        Item::Exps(exps) => open_exps(alloc, exps, names, table, text, stack),
        Item::Args(args, at) => open_args(alloc, args, at, names, table, text, stack),
        Item::Arms(arms, at) => open_arms(alloc, arms, at, names, table, text, stack),
        Item::Statements(block, at) => open_statements(alloc, block, at, names, table, text, stack),
        Item::Steps(steps, rhs) => open_steps(alloc, steps, rhs, names, table, text, stack),
        Item::Close => close(names, table, text, stack),
    }
}
