//! The program that a file gives, once its names are known.

ghost use Rattle.std.specs.Prelude.{◌≡◌, [], ◌++◌, map, true, false, IfOk, OnOk, bytes_eq};
ghost use Rattle.std.specs.List.{list_any};
ghost use Rattle.hs_first_tree.specs.Of.{exp_of, stmt_of, block_of, param_of, program_of};
ghost use Rattle.hs_first_tree.specs.Features.{Feature, src};
ghost use Rattle.hs_first_tree.specs.Count.{uses};
ghost use Rattle.hs_front.specs.Scope.{text_at, found};
ghost use Rattle.hs_front.specs.Marks.{mark, with_params};
ghost use Rattle.hs_front.specs.Program.{added, params_from, names_bound, around};
ghost use Rattle.hs_front.specs.Told.{told_at};
ghost use Rattle.hs_front.specs.Walk.{known, prim_walk, sum_walk, stmt_walk, stmts_walk, block_walk, param_walk, type_walk, file_walk, Gives, GivesIn};

use crate::scope::{Found, Scope};
use crate::syntax;
use crate::syntax::{File, Prim, Span, Sum};
use hs_base::memory::NoMemory;
use hs_base::name::Name;
use hs_base::parts::between;
use hs_base::place::Broken;
use hs_base::rule::Rule;
use hs_first_tree::features::{On, Src};
use hs_first_tree::law::absent_features_are_unused;
use hs_first_tree::node::{Block, Exp, Rhs, Stmt};
use hs_first_tree::program::{Body, Function, Parameter, Program, ValType};
use hs_parser::ParseStop;
use sqlite_items::Items;
use std::alloc::Global;

/// The sum of two expressions.
fn added(alloc: Global, left: Exp<Src>, right: Exp<Src>) -> Result<Exp<Src>, NoMemory>
    ensures { IfOk result (λ e. exp_of e ≡ added (exp_of left) (exp_of right)) }
{
    let mut operands = Items::new(alloc);
    operands.push(left)?;
    operands.push(right)?;
    Ok(Exp::Op(Name::of(alloc, "u32_add")?, operands))
}

/// The parameters with these names.
fn parameters(alloc: Global, names: &[Span]) -> Result<Items<Parameter>, NoMemory>
    ensures { IfOk result (λ params. map param_of params ≡ params_from 0 names.now) }
{
    let mut parameters = Items::new(alloc);
    for local in 0..names.len() {
        parameters.push(Parameter {
            local,
            ty: ValType::U32,
        })?;
    }
    Ok(parameters)
}

/// The text of a file, in which its names stand.
#[derive(Clone, Copy)]
pub struct Resolver<'t> {
    alloc: Global,
    text: &'t [u8],
}

impl<'t> Resolver<'t> {
    /// A resolver of the names of this text.
    pub fn new(alloc: Global, text: &'t [u8]) -> Resolver<'t>
        ensures { result.text.now ≡ text.now }
    {
        Resolver { alloc, text }
    }

    /// The bytes of a name.
    fn text_of(&self, name: Span) -> &'t [u8]
        ensures { result.now ≡ text_at self.now.text.now name }
    {
        between(self.text, name.start, name.end)
    }

    /// That the name breaks the rule.
    fn broken_at(&self, rule: Rule, name: Span) -> ParseStop
        ensures { result ≡ ParseStop.Broken (told_at self.now.text.now (mark rule name)) }
    {
        ParseStop::Broken(Broken::told_at(self.text, rule, name.start as usize))
    }

    /// The local of this name, which breaks the rule where there is none.
    fn local(&self, scope: &Scope<'t>, rule: Rule, name: Span) -> Result<usize, ParseStop>
        ensures { Gives self.now.text.now (known (found (text_at self.now.text.now name) scope.now) (mark rule name)) (λ number. number) result }
    {
        match scope.find(self.text_of(name)) {
            Some(local) => Ok(local.number),
            None => Err(self.broken_at(rule, name)),
        }
    }

    /// The expression of a part of a sum.
    ///
    /// Broken (N3): the name is no local's.
    fn prim(&self, scope: &Scope<'t>, prim: &Prim) -> Result<Exp<Src>, ParseStop>
        ensures { Gives self.now.text.now (prim_walk self.now.text.now scope.now prim.now) exp_of result }
    {
        match prim {
            Prim::Int(number) => Ok(Exp::Lit(*number)),
            Prim::Name(name) => Ok(Exp::Var(self.local(scope, Rule::N3, *name)?)),
        }
    }

    /// The expression of a sum.
    fn sum(&self, scope: &Scope<'t>, sum: &Sum) -> Result<Exp<Src>, ParseStop>
        ensures { Gives self.now.text.now (sum_walk self.now.text.now scope.now sum.now) exp_of result }
    {
        let mut value = self.prim(scope, &sum.first)?;
        for part in sum.more.as_slice() {
            let part = self.prim(scope, part)?;
            value = added(self.alloc, value, part)?;
        }
        Ok(value)
    }

    /// A statement, whose local is in scope behind it.
    ///
    /// Broken (N10): the assigned name is no local's.
    fn statement(&self, scope: &mut Scope<'t>, stmt: &syntax::Stmt) -> Result<Stmt<Src>, ParseStop>
        ensures { GivesIn self.now.text.now (stmt_walk self.now.text.now scope.old stmt.now) stmt_of result scope.new }
    {
        match stmt {
            syntax::Stmt::Let(mutable, name, value) => {
                let value = self.sum(scope, value)?;
                let number = scope.len();
                scope.bind(*mutable, self.text_of(*name))?;
                Ok(Stmt::Let(number, Rhs::Exp(value)))
            }
            syntax::Stmt::Set(name, value) => {
                let number = self.local(scope, Rule::N10, *name)?;
                let value = self.sum(scope, value)?;
                Ok(Stmt::Set(On::Here, number, Rhs::Exp(value)))
            }
        }
    }

    /// Statements, whose locals are in scope behind them.
    fn statements(
        &self,
        scope: &mut Scope<'t>,
        stmts: &[syntax::Stmt],
    ) -> Result<Items<Stmt<Src>>, ParseStop>
        ensures { GivesIn self.now.text.now (stmts_walk self.now.text.now scope.old stmts.now) (map stmt_of) result scope.new }
    {
        let mut statements = Items::new(self.alloc);
        for stmt in stmts {
            let statement = self.statement(scope, stmt)?;
            statements.push(statement)?;
        }
        Ok(statements)
    }

    /// The locals in scope behind a function's parameters.
    fn with_params(&self, params: &[Span]) -> Result<Scope<'t>, NoMemory>
        ensures { IfOk result (λ scope. scope ≡ with_params self.now.text.now params.now []) }
    {
        let mut scope = Scope::new(self.alloc);
        for param in params {
            scope.bind(false, self.text_of(*param))?;
        }
        Ok(scope)
    }

    /// The block of a file.
    fn block(&self, file: &File) -> Result<Block<Src>, ParseStop>
        ensures { Gives self.now.text.now (block_walk self.now.text.now (with_params self.now.text.now file.now.parameters []) file.now.body.statements file.now.body.value) block_of result }
    {
        let mut scope = self.with_params(file.parameters.as_slice())?;
        let statements = self.statements(&mut scope, file.body.statements.as_slice())?;
        let value = self.sum(&scope, &file.body.value)?;
        Ok(Block {
            statements,
            tail: Rhs::Exp(value),
        })
    }

    /// Whether one of these names is spelled as this.
    fn occurs(&self, name: &[u8], names: &[Span]) -> bool
        ensures { result ≡ list_any (bytes_eq name.now) (map (text_at self.now.text.now) names.now) }
    {
        for other in names {
            if name == self.text_of(*other) {
                return true;
            }
        }
        false
    }

    /// That no parameter's name stands before.
    ///
    /// Broken (N6): a name does. The place is where it stands again.
    fn once(&self, names: &[Span]) -> Result<(), ParseStop>
        ensures { Gives self.now.text.now (param_walk self.now.text.now [] names.now) (λ u. u) result }
    {
        for number in 0..names.len() {
            let name = names[number];
            if self.occurs(self.text_of(name), &names[..number]) {
                return Err(self.broken_at(Rule::N6, name));
            }
        }
        Ok(())
    }

    /// That each local that is assigned may be.
    ///
    /// Broken (T11): a local is not `mut`.
    fn assignments(&self, scope: &mut Scope<'t>, stmts: &[syntax::Stmt]) -> Result<(), ParseStop>
        ensures { Gives self.now.text.now (type_walk self.now.text.now scope.old stmts.now) (λ u. u) result }
    {
        for stmt in stmts {
            match stmt {
                syntax::Stmt::Let(mutable, name, _) => {
                    scope.bind(*mutable, self.text_of(*name))?;
                }
                syntax::Stmt::Set(name, _) => {
                    if let Some(Found { mutable: false, .. }) = scope.find(self.text_of(*name)) {
                        return Err(self.broken_at(Rule::T11, *name));
                    }
                }
            }
        }
        Ok(())
    }

    /// Puts the names of the parameters behind the list.
    fn push_params(&self, locals: &mut Items<Name>, params: &[Span]) -> Result<(), NoMemory>
        ensures { OnOk result (locals.new ≡ locals.old ++ map (text_at self.now.text.now) params.now) }
    {
        for param in params {
            locals.push(Name::of_bytes(self.alloc, self.text_of(*param))?)?;
        }
        Ok(())
    }

    /// Puts the names that statements bind behind the list.
    fn push_bound(&self, locals: &mut Items<Name>, stmts: &[syntax::Stmt]) -> Result<(), NoMemory>
        ensures { OnOk result (locals.new ≡ locals.old ++ names_bound self.now.text.now stmts.now) }
    {
        for stmt in stmts {
            if let syntax::Stmt::Let(_, name, _) = stmt {
                locals.push(Name::of_bytes(self.alloc, self.text_of(*name))?)?;
            }
        }
        Ok(())
    }

    /// The names of a file's locals, by their numbers.
    fn locals(&self, file: &File) -> Result<Items<Name>, NoMemory>
        ensures { IfOk result (λ locals. locals ≡ map (text_at self.now.text.now) file.now.parameters ++ names_bound self.now.text.now file.now.body.statements) }
    {
        let mut locals = Items::new(self.alloc);
        self.push_params(&mut locals, file.parameters.as_slice())?;
        self.push_bound(&mut locals, file.body.statements.as_slice())?;
        Ok(locals)
    }

    /// The program of a file whose names break no rule, around its block.
    fn around(&self, file: &File, block: Block<Src>) -> Result<Program<Src>, NoMemory>
        ensures made { IfOk result (λ program. program_of program ≡ around self.now.text.now file.now (block_of block)) }
        ensures absent { IfOk result (λ program. (f : Feature) → src f ≡ false → uses f (program_of program) ≡ 0) }
    {
        let function = Function {
            name: Name::of_bytes(self.alloc, self.text_of(file.name))?,
            parameters: parameters(self.alloc, file.parameters.as_slice())?,
            result: ValType::U32,
            body: Body {
                locals: self.locals(file)?,
                block,
            },
        };
        let mut functions = Items::new(self.alloc);
        functions.push(function)?;
        let program = Program { functions };
        absent_features_are_unused(&program);
        Ok(program)
    }

    /// The program of a file.
    ///
    /// Broken, first of the names: N6, a parameter's name stands before. N3, a name in a sum is no local's that is in
    /// scope. N10, an assigned name is none. Then of the types: T11, an assigned local is not `mut`. The place is the name's.
    pub fn program(&self, file: &File) -> Result<Program<Src>, ParseStop>
        ensures gives { Gives self.now.text.now (file_walk self.now.text.now file.now) program_of result }
        ensures absent { IfOk result (λ program. (f : Feature) → src f ≡ false → uses f (program_of program) ≡ 0) }
    {
        self.once(file.parameters.as_slice())?;
        let block = self.block(file)?;
        let mut scope = self.with_params(file.parameters.as_slice())?;
        self.assignments(&mut scope, file.body.statements.as_slice())?;
        Ok(self.around(file, block)?)
    }
}
