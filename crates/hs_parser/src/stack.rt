//! How much of the stack it takes to read tokens.
//!
//! The parser calls itself for what nests in the text, and no clause can speak of the stack. So the tokens are looked over
//! first, and what is unfinished at each of them is weighed. The weights stand above what the parser's frames were measured to
//! take in the builds of both compilers; nothing here is proved of the stack. The unit is a tenth of a kilobyte.

use hs_base::memory::NoMemory;
use hs_forms::Kind;
use sqlite_items::Items;
use std::alloc::Global;

/// The most that reading may take, of the 8 megabytes that a program has by default.
const MOST: u32 = 79_500;

/// What an open `(` takes that groups, or is that of a tuple.
const GROUP: u32 = 68;

/// What an open `(` or `[` takes behind an operand, with the call that it belongs to.
const BRACKET: u32 = 115;

/// What an open `[` takes that is itself an argument.
const LIST: u32 = 25;

/// What an open `{` takes.
const BRACE: u32 = 123;

/// What an open `{` takes with its `if`.
const IF_BRACE: u32 = 152;

/// What an open `{` takes with its `match`.
const MATCH_BRACE: u32 = 98;

/// What an `if` or a `match` takes as long as its `{` is not reached.
const HEAD: u32 = 158;

/// What an open `{` takes with its `for`.
const FOR_BRACE: u32 = 135;

/// What a `for` takes as long as its `{` is not reached.
const FOR: u32 = 60;

/// What an `else` takes as long as its chain goes on.
const ELSE: u32 = 45;

/// What a prefix takes as long as its operand is read.
const PREFIX: u32 = 30;

/// What an operator takes as long as its right operand is read.
const OPERATOR: u32 = 36;

/// What a `<` takes as long as the types behind it are read.
const ANGLE: u32 = 25;

/// What the expression of a statement or an arm takes.
const VALUE: u32 = 40;

/// What the right side of an assignment takes, with the place before it.
const ASSIGNED: u32 = 82;

/// What a `return` takes, with its expression.
const RETURN: u32 = 64;

/// What something that waits for its end is.
#[derive(Clone, Copy, PartialEq, Eq)]
enum Place {
    /// A `(`, a `[`, or the whole file.
    Bracket,
    /// A `{`.
    Block,
    /// An `if`, a `match` or a `for`, up to its `{`, which takes this.
    Head(u32),
}

/// What is not read to its end yet inside one bracket, or between an `if`, a `match` or a `for` and its `{`.
#[derive(Clone, Copy)]
struct Waiting {
    place: Place,
    /// What that itself takes.
    own: u32,
    /// The levels of binding strength at which an operator waits for its right operand, a bit for each.
    operators: u16,
    prefixes: u32,
    elses: u32,
    /// How many `<` are not closed. A comma leaves them open, since it may stand between types.
    angles: u32,
    /// Whether a `let` has begun, and its `=` is not reached.
    is_let: bool,
    /// What the expression takes in which all this stands.
    value: u32,
    /// Whether the last token can end an operand.
    behind_operand: bool,
    /// Whether the last token is a `}`.
    behind_brace: bool,
}

impl Waiting {
    fn new(place: Place, own: u32) -> Waiting {
        Waiting {
            place,
            own,
            operators: 0,
            prefixes: 0,
            elses: 0,
            angles: 0,
            is_let: false,
            value: 0,
            behind_operand: false,
            behind_brace: false,
        }
    }

    /// What all this takes.
    fn cost(&self) -> u32 {
        self.own
            .saturating_add(OPERATOR.saturating_mul(self.operators.count_ones()))
            .saturating_add(PREFIX.saturating_mul(self.prefixes))
            .saturating_add(ELSE.saturating_mul(self.elses))
            .saturating_add(ANGLE.saturating_mul(self.angles))
            .saturating_add(self.value)
    }

    /// The same bracket, with nothing in it that waits.
    fn emptied(self, value: u32) -> Waiting {
        Waiting {
            value,
            ..Waiting::new(self.place, self.own)
        }
    }

    /// In an expression, where a block has one.
    fn in_expression(self) -> Waiting {
        if self.place == Place::Block {
            Waiting {
                value: self.value.max(VALUE),
                ..self
            }
        } else {
            self
        }
    }

    /// Around a block, an `if` or a `match`: in an expression, where it is in brackets.
    fn around_alone(self) -> Waiting {
        if self.place == Place::Bracket {
            Waiting {
                value: self.value.max(VALUE),
                ..self
            }
        } else {
            self
        }
    }

    /// An operator whose level has this bit; `weaker` has the bits of the levels that bind less strongly.
    fn operator(self, bit: u16, weaker: u16) -> Waiting {
        Waiting {
            operators: self.operators & weaker | bit,
            prefixes: 0,
            ..self.in_expression()
        }
    }

    /// A prefix, or an operator where an operand stands before it.
    fn prefix_or(self, bit: u16, weaker: u16) -> Waiting {
        if self.behind_operand {
            self.operator(bit, weaker)
        } else {
            Waiting {
                prefixes: self.prefixes.saturating_add(1),
                ..self.in_expression()
            }
        }
    }

    /// A comparison, which may open or close a list of types.
    fn comparison(self, kind: Kind) -> Waiting {
        let angles = match kind {
            Kind::Less => self.angles.saturating_add(1),
            _ => self.angles.saturating_sub(1),
        };
        Waiting {
            angles,
            ..self.operator(0x040, 0x180)
        }
    }

    /// Behind an operator or a prefix.
    fn operated(self, kind: Kind) -> Waiting {
        match kind {
            Kind::Star => self.prefix_or(0x001, 0x1fe),
            Kind::Minus | Kind::Not => self.prefix_or(0x002, 0x1fc),
            Kind::Slash | Kind::Percent => self.operator(0x001, 0x1fe),
            Kind::Plus => self.operator(0x002, 0x1fc),
            Kind::ShiftLeft => self.operator(0x004, 0x1f8),
            Kind::ShiftFront | Kind::ShiftBack => Waiting {
                angles: self.angles.saturating_sub(1),
                ..self.operator(0x004, 0x1f8)
            },
            Kind::And if self.behind_operand => self.operator(0x008, 0x1f0),
            Kind::Caret => self.operator(0x010, 0x1e0),
            Kind::Or => self.operator(0x020, 0x1c0),
            Kind::Less | Kind::Greater => self.comparison(kind),
            Kind::EqualsEquals | Kind::NotEquals | Kind::LessEquals | Kind::GreaterEquals =>
                self.operator(0x040, 0x180),
            Kind::AndAnd => self.operator(0x080, 0x100),
            Kind::OrOr => self.operator(0x100, 0x000),
            _ => self.in_expression(),
        }
    }

    /// Behind a token of this kind that is no bracket.
    fn behind(self, kind: Kind) -> Waiting {
        match kind {
            Kind::Else => Waiting {
                elses: self.elses.saturating_add(1),
                ..self
            },
            Kind::Comma => Waiting {
                angles: self.angles,
                ..self.emptied(0)
            },
            Kind::Semicolon
            | Kind::Fn
            | Kind::Const
            | Kind::Type
            | Kind::Struct
            | Kind::Enum
            | Kind::Use
            | Kind::Pub
            | Kind::Hash => self.emptied(0),
            Kind::Return => self.emptied(RETURN),
            Kind::Let => Waiting {
                is_let: true,
                ..self.emptied(0)
            },
            Kind::Equals if self.is_let => self.emptied(VALUE),
            Kind::Equals
            | Kind::PlusEquals
            | Kind::MinusEquals
            | Kind::StarEquals
            | Kind::SlashEquals
            | Kind::PercentEquals
            | Kind::AndEquals
            | Kind::OrEquals
            | Kind::CaretEquals
            | Kind::ShiftLeftEquals
            | Kind::ShiftRightEquals => self.emptied(ASSIGNED),
            Kind::FatArrow | Kind::In | Kind::DotDot => self.emptied(VALUE),
            _ => self.operated(kind),
        }
    }

    /// The chain of `if`s that ends with a `}` before a token of this kind, if one does, waits no longer.
    fn settled(self, kind: Kind) -> Waiting {
        if self.behind_brace && kind != Kind::Else {
            Waiting { elses: 0, ..self }
        } else {
            self
        }
    }

    /// What is inside the `(` or `[` that comes next.
    fn bracket(self, kind: Kind) -> Waiting {
        let own = if self.behind_operand {
            BRACKET
        } else if kind == Kind::LeftBracket {
            LIST
        } else {
            GROUP
        };
        Waiting::new(Place::Bracket, own)
    }

    /// Behind a token of this kind.
    fn past(self, kind: Kind) -> Waiting {
        Waiting {
            behind_operand: ends_operand(kind),
            behind_brace: kind == Kind::RightBrace,
            ..self
        }
    }
}

/// Whether a token of this kind can end an operand.
fn ends_operand(kind: Kind) -> bool {
    match kind {
        Kind::Int
        | Kind::Digits
        | Kind::Text
        | Kind::True
        | Kind::False
        | Kind::RightParenthesis
        | Kind::RightBracket
        | Kind::RightBrace
        | Kind::Question => true,
        _ => kind.is_name(),
    }
}

/// What is open, the innermost last, and what all of it but the innermost takes.
#[derive(Drop)]
pub struct Stack {
    around: Items<Waiting>,
    below: u32,
    here: Waiting,
}

impl Stack {
    /// Nothing is open.
    pub fn new(alloc: Global) -> Stack {
        Stack {
            around: Items::new(alloc),
            below: 0,
            here: Waiting::new(Place::Bracket, 0),
        }
    }

    /// Whether all that is open may take more of the stack than there is.
    pub fn is_spent(&self) -> bool {
        self.below.saturating_add(self.here.cost()) > MOST
    }

    /// Something opens inside what is open.
    fn open(&mut self, inside: Waiting) -> Result<(), NoMemory> {
        self.below = self.below.saturating_add(self.here.cost());
        self.around.push(self.here)?;
        self.here = inside;
        Ok(())
    }

    /// The innermost is over.
    fn close(&mut self) {
        if let Some(outer) = self.around.pop() {
            self.here = outer;
            self.below = self.below.saturating_sub(outer.cost());
        }
    }

    /// The innermost bracket is over, with each `if`, `match` and `for` in it that has no `{` yet.
    fn close_bracket(&mut self) {
        while let Some(outer) = self.around.pop() {
            let was = self.here.place;
            self.here = outer;
            self.below = self.below.saturating_sub(outer.cost());
            if !matches!(was, Place::Head(_)) {
                return;
            }
        }
    }

    /// An `if`, a `match` or a `for` begins, which takes so much up to its `{`, and so much behind it.
    fn open_head(&mut self, own: u32, brace: u32) -> Result<(), NoMemory> {
        self.here = self.here.around_alone();
        self.open(Waiting::new(Place::Head(brace), own))
    }

    /// A `{` opens: that of an `if`, a `match` or a `for` whose expression is over, or a block.
    fn open_brace(&mut self) -> Result<(), NoMemory> {
        if let Place::Head(own) = self.here.place
            && self.here.behind_operand
        {
            self.close();
            return self.open(Waiting::new(Place::Block, own));
        }
        self.here = self.here.around_alone();
        self.open(Waiting::new(Place::Block, BRACE))
    }

    /// One token more.
    pub fn step(&mut self, kind: Kind) -> Result<(), NoMemory> {
        self.here = self.here.settled(kind);
        match kind {
            Kind::LeftBrace => self.open_brace(),
            Kind::LeftParenthesis | Kind::LeftBracket => {
                let inside = self.here.bracket(kind);
                self.here = self.here.in_expression();
                self.open(inside)
            }
            Kind::If => self.open_head(HEAD, IF_BRACE),
            Kind::Match => self.open_head(HEAD, MATCH_BRACE),
            Kind::For => {
                self.here = self.here.emptied(0);
                self.open_head(FOR, FOR_BRACE)
            }
            Kind::RightParenthesis | Kind::RightBracket | Kind::RightBrace => {
                self.close_bracket();
                self.here = self.here.past(kind);
                Ok(())
            }
            _ => {
                self.here = self.here.behind(kind).past(kind);
                Ok(())
            }
        }
    }
}
