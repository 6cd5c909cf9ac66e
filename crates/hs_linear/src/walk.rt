//! The walk through a function: expressions, statements and blocks, in the order in which they run.
//!
//! The calls recurse as deep as brackets and blocks nest in the text.

ghost use Rattle.std.specs.Prelude.{◌≡◌, ◌≢◌, ◌≤◌, ℕ, List, false, map, slice_get, length, OnOk};
ghost use Rattle.hs_tree.specs.Types.{copied};
ghost use Rattle.hs_tree.specs.World.{operand_lent};
ghost use Rattle.hs_tree.specs.Call.{lent_at};
ghost use Rattle.hs_tree.specs.Source.{takes_part};
ghost use Rattle.hs_tree.specs.Moves.{Holding};
ghost use Rattle.hs_linear.specs.Rules.{of_operation};
ghost use Rattle.hs_linear.specs.Seen.{◌&◌, asked, gives, each, in_row, idle, either, one_of, turns, after_either};
ghost use Rattle.hs_linear.specs.Nodes as n;
ghost use Rattle.hs_linear.specs.Sets.{set_of, changes_of, LedFrom, IsAt, after_branches, ended_with};
ghost use Rattle.hs_linear.specs.Moments.{Passed, Walks};
ghost use Rattle.hs_linear.specs.Called.{modes_of};
ghost use Rattle.hs_linear.specs.Known.{known_of, lent_in};

use crate::copied::is_copied;
use crate::joined::{Joined, Left};
use crate::operations::use_named;
use crate::state::State;
use crate::world::{Lent, World};
use hs_base::memory::NoMemory;
use hs_base::name::Name;
use hs_tree::features::Src;
use hs_tree::node::{Arg, Arm, Block, Exp, Note, Pattern, Rhs, Step, Stmt, Tail};
use hs_tree::program::Param;
use sqlite_items::Items;
use std::alloc::Global;

/// Puts values into the locals that a pattern binds.
#[cycle(bind)]
fn bind(pattern: &Pattern, state: &mut State) -> Result<(), NoMemory>
    ensures { OnOk result (Passed (gives (n.bound pattern.now)) state.old state.new) }
{
    match pattern {
        Pattern::Local(local) => state.give(*local),
        Pattern::Any => Ok(()),
        Pattern::Tuple(parts) | Pattern::Ctor(_, _, parts) => bind_all(parts, state),
    }
}

/// The same of all these patterns.
#[cycle(bind)]
fn bind_all(patterns: &Items<Pattern>, state: &mut State) -> Result<(), NoMemory>
    ensures { OnOk result (Passed (gives (n.all (map n.bound patterns.now))) state.old state.new) }
{
    for pattern in patterns.as_slice() {
        bind(pattern, state)?;
    }
    Ok(())
}

/// Ends a branch that began at a moment and was walked so: it is joined to those before it, and the set of that moment stands again.
fn end_branch(
    alloc: Global,
    ended: Result<(), Left>,
    moment: usize,
    joined: &mut Joined,
    state: &mut State,
) -> Result<(), NoMemory>
    requires { OnOk ended (moment ≤ length (changes_of state.old.held)) }
    ensures back { OnOk result ((d : Holding) (before : List ℕ) → LedFrom d before state.old.held → moment ≡ length before → IsAt d before state.new.held) }
    ensures joined { OnOk result ((d : Holding) (before : List ℕ) → LedFrom d before state.old.held → moment ≡ length before → after_branches joined.new d ≡ after_either (after_branches joined.old d) (ended_with (set_of state.old.held) ended)) }
    ensures taken { OnOk result (state.new.taken.items ≡ state.old.taken.items) }
    ensures told { OnOk result (state.new.told ≡ state.old.told) }
    ensures memory { OnOk result (ended ≢ Err Left.NoMemory) }
{
    match ended {
        Ok(()) => state.held.join(alloc, moment, joined),
        Err(Left::Exits) => state.held.go_back(moment),
        Err(Left::NoMemory) => Err(NoMemory),
    }
}

impl<'a> World<'a> {
    /// An expression, which is lent or not.
    #[cycle(walk)]
    fn exp(&self, exp: &Exp<Src>, is_lent: bool, state: &mut State) -> Result<(), Left>
        ensures { Walks (n.exp_seen (known_of self.now) exp.now is_lent) state.old state.new result }
    {
        match exp {
            Exp::Var(local, span) => Ok(self.read(*local, *span, is_lent, state)?),
            Exp::Lit(_) | Exp::Truth(_) | Exp::Unit | Exp::Const(_) => Ok(()),
            Exp::Tuple(parts) | Exp::List(parts) | Exp::Ctor(_, _, parts) => {
                self.exps(parts, Lent::None, state)
            }
            Exp::Op(name, note, operands) => self.operation(name, note, operands, is_lent, state),
            Exp::Call(name, arguments) => {
                let params = self.callees.params(name.bytes());
                self.exps(arguments, Lent::Arguments(params), state)
            }
            Exp::And(first, second) | Exp::Or(first, second) => {
                self.exp(first.get(), false, state)?;
                self.maybe(second.get(), state)
            }
            Exp::In(_, rhs) => self.rhs(rhs.get(), state),
            Exp::Exit(off, _) | Exp::Cont(off, _) => match *off {},
        }
    }

    /// Expressions in a row.
    #[cycle(walk)]
    fn exps(&self, exps: &Items<Exp<Src>>, lent: Lent<'_>, state: &mut State) -> Result<(), Left>
        ensures { Walks (in_row (lent_in lent.entry) (map (n.exp_seen (known_of self.now)) exps.now)) state.old state.new result }
    {
        for (place, exp) in exps.as_slice().iter().enumerate() {
            self.exp(exp, lent.at(place), state)?;
        }
        Ok(())
    }

    /// An operation.
    #[cycle(walk)]
    fn operation(
        &self,
        name: &Name,
        note: &Note,
        operands: &Items<Exp<Src>>,
        is_lent: bool,
        state: &mut State,
    ) -> Result<(), Left>
        ensures { Walks (in_row (operand_lent name.now) (map (n.exp_seen (known_of self.now)) operands.now) & asked note.now.span (λ d. of_operation (takes_part name.now) is_lent (copied self.now.table.now note.now.ty))) state.old state.new result }
    {
        let used = use_named(self.operations, name.bytes());
        self.exps(operands, Lent::Operands(used), state)?;
        if used.is_part() {
            let is_copied = is_copied(note.ty.get(), self.table);
            state.operate(true, is_lent, is_copied, note.span);
        }
        Ok(())
    }

    /// An expression that is run or not.
    #[cycle(walk)]
    fn maybe(&self, exp: &Exp<Src>, state: &mut State) -> Result<(), Left>
        ensures { Walks (either idle (n.exp_seen (known_of self.now) exp.now false)) state.old state.new result }
    {
        let mut joined = Joined::idle(self.alloc);
        let moment = state.held.moment();
        let ended = self.exp(exp, false, state);
        end_branch(self.alloc, ended, moment, &mut joined, state)?;
        state.held.go_on(&joined)
    }

    /// The arguments of a call that lends locals, for these parameters.
    #[cycle(walk)]
    fn args(
        &self,
        args: &Items<Arg<Src>>,
        params: &[Param<Src>],
        state: &mut State,
    ) -> Result<(), Left>
        ensures { Walks (in_row (λ i. lent_at (slice_get (modes_of params.now) i)) (map (n.arg_seen (known_of self.now)) args.now)) state.old state.new result }
    {
        for (place, arg) in args.as_slice().iter().enumerate() {
            self.arg(arg, Lent::Arguments(params).at(place), state)?;
        }
        Ok(())
    }

    /// An argument, which is lent or not.
    #[cycle(walk)]
    fn arg(&self, arg: &Arg<Src>, is_lent: bool, state: &mut State) -> Result<(), Left>
        ensures { Walks (n.arg_seen (known_of self.now) arg.now is_lent) state.old state.new result }
    {
        match arg {
            Arg::Value(exp) => self.exp(exp, is_lent, state),
            Arg::Lend(local, span) => {
                state.lend(*local, *span);
                Ok(())
            }
        }
    }

    /// A right side.
    #[cycle(walk)]
    fn rhs(&self, rhs: &Rhs<Src>, state: &mut State) -> Result<(), Left>
        ensures { Walks (n.rhs_seen (known_of self.now) rhs.now) state.old state.new result }
    {
        match rhs {
            Rhs::Exp(exp) | Rhs::Quest(_, _, exp) => self.exp(exp, false, state),
            Rhs::If(condition, then, otherwise) => {
                self.exp(condition, false, state)?;
                let mut joined = Joined::new(self.alloc);
                let moment = state.held.moment();
                let ended = self.block(then.get(), state);
                end_branch(self.alloc, ended, moment, &mut joined, state)?;
                let ended = self.block(otherwise.get(), state);
                end_branch(self.alloc, ended, moment, &mut joined, state)?;
                state.held.go_on(&joined)
            }
            Rhs::Match(scrutinee, arms) => {
                self.exp(scrutinee, false, state)?;
                self.arms(arms, state)
            }
            Rhs::Block(block) => self.block(block.get(), state),
            Rhs::LendCall(_, name, args) => {
                self.args(args, self.callees.params(name.bytes()), state)
            }
            Rhs::ForCf(_, _, off, _, _, _, _) | Rhs::TurnsCf(_, _, off, _) => match *off {},
            Rhs::Turns(_, off, _) => match *off {},
            Rhs::Fold(off, _) | Rhs::FoldCf(off, _, _) => match *off {},
        }
    }

    /// One of these arms.
    #[cycle(walk)]
    fn arms(&self, arms: &Items<Arm<Src>>, state: &mut State) -> Result<(), Left>
        ensures { Walks (one_of (map (n.arm_seen (known_of self.now)) arms.now)) state.old state.new result }
    {
        let mut joined = Joined::new(self.alloc);
        let moment = state.held.moment();
        for arm in arms.as_slice() {
            let ended = self.arm(arm, state);
            end_branch(self.alloc, ended, moment, &mut joined, state)?;
        }
        state.held.go_on(&joined)
    }

    /// An arm.
    #[cycle(walk)]
    fn arm(&self, arm: &Arm<Src>, state: &mut State) -> Result<(), Left>
        ensures { Walks (n.arm_seen (known_of self.now) arm.now) state.old state.new result }
    {
        bind(&arm.pattern, state)?;
        self.block(&arm.block, state)
    }

    /// The steps of an assigned place.
    #[cycle(walk)]
    fn steps(&self, steps: &Items<Step<Src>>, state: &mut State) -> Result<(), Left>
        ensures { Walks (each (map (n.step_seen (known_of self.now)) steps.now)) state.old state.new result }
    {
        for step in steps.as_slice() {
            self.step(step, state)?;
        }
        Ok(())
    }

    /// A step.
    #[cycle(walk)]
    fn step(&self, step: &Step<Src>, state: &mut State) -> Result<(), Left>
        ensures { Walks (n.step_seen (known_of self.now) step.now) state.old state.new result }
    {
        match step {
            Step::At(index) => self.exp(index, false, state),
            Step::Part(_) => Ok(()),
        }
    }

    /// A statement. Of an assignment the right side runs before the indices of its place.
    #[cycle(walk)]
    fn stmt(&self, stmt: &Stmt<Src>, state: &mut State) -> Result<(), Left>
        ensures { Walks (n.stmt_seen (known_of self.now) stmt.now) state.old state.new result }
    {
        match stmt {
            Stmt::Let(pattern, rhs) => {
                self.rhs(rhs, state)?;
                Ok(bind(pattern, state)?)
            }
            Stmt::Do(rhs) => self.rhs(rhs, state),
            Stmt::Place(_, span, op, local, steps, rhs) => {
                self.rhs(rhs, state)?;
                self.steps(steps, state)?;
                let is_whole = op.is_none() && steps.is_empty();
                Ok(state.assign(*local, is_whole, *span)?)
            }
            Stmt::Set(_, local, rhs) => {
                self.rhs(rhs, state)?;
                Ok(state.give(*local)?)
            }
            Stmt::For(_, _, variable, low, high, body) => {
                self.exp(low, false, state)?;
                self.exp(high, false, state)?;
                self.turn(*variable, body.get(), state)
            }
        }
    }

    /// A turn of a loop with this variable.
    #[cycle(walk)]
    fn turn(&self, variable: usize, body: &Block<Src>, state: &mut State) -> Result<(), Left>
        ensures { Walks (turns variable (n.block_seen (known_of self.now) body.now)) state.old state.new result }
    {
        let moment = state.held.moment();
        let taken = state.taken.len();
        state.give(variable)?;
        match self.block(body, state) {
            Ok(()) => Ok(state.end_turn(self.alloc, moment, taken)?),
            Err(Left::Exits) => Ok(state.held.go_back(moment)?),
            Err(Left::NoMemory) => Err(Left::NoMemory),
        }
    }

    /// The end of a block.
    #[cycle(walk)]
    fn tail(&self, tail: &Tail<Src>, state: &mut State) -> Result<(), Left>
        ensures { Walks (n.tail_seen (known_of self.now) tail.now) state.old state.new result }
    {
        match tail {
            Tail::Rhs(rhs) => self.rhs(rhs, state),
            Tail::Return(_, exp) => {
                self.exp(exp, false, state)?;
                Err(Left::Exits)
            }
            Tail::Bind(off, _, _, _, _) => match *off {},
        }
    }

    /// A block.
    #[cycle(walk)]
    pub fn block(&self, block: &Block<Src>, state: &mut State) -> Result<(), Left>
        ensures { Walks (n.block_seen (known_of self.now) block.now) state.old state.new result }
    {
        self.stmts(&block.statements, state)?;
        self.tail(&block.tail, state)
    }

    /// Statements in a row.
    #[cycle(walk)]
    fn stmts(&self, stmts: &Items<Stmt<Src>>, state: &mut State) -> Result<(), Left>
        ensures { Walks (each (map (n.stmt_seen (known_of self.now)) stmts.now)) state.old state.new result }
    {
        for stmt in stmts.as_slice() {
            self.stmt(stmt, state)?;
        }
        Ok(())
    }
}
