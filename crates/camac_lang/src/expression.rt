// Expressions. The parts of each lie in one list, so that a check of long ones takes no memory for each operator.

ghost use Rattle.std.specs.Prelude.{◌≡◌, ◌≤◌, ◌-◌, ◌∷◌, [], IfOk, drop, length, take};
ghost use Rattle.camac_lang.specs.Nodes.{AreWhole, expression_in, listed};
ghost use Rattle.camac_lang.specs.declared.expression.Node.TheVariants.{Variable};

use crate::tree::Divisor;
use std::alloc::{AllocError, Global};

/// A part of an expression in its list: a variant for each form of the grammar. The operands of an operator come before it.
#[derive(Clone, Copy, Debug, PartialEq, Eq)]
pub enum Node {
    /// A literal.
    Number(u32),
    /// A variable or parameter.
    Variable(u32),
    /// Brackets.
    Group,
    /// `+`, with the number of nodes of its right operand, as `-` and `*` have it too.
    Add(u32),
    /// `-`
    Subtract(u32),
    /// `*`
    Multiply(u32),
    /// `/` by a literal, rounded down.
    Divide(Divisor),
    /// `%` by a literal.
    Remainder(Divisor),
}

impl Node {
    /// A variable or parameter, by its number. An `Err` is out of memory: so many names as do not fit 32 bits find no room.
    pub fn of_variable(variable: usize) -> Result<Node, AllocError>
        ensures { IfOk result (λ n. n ≡ Variable variable) }
    {
        match u32::try_from(variable) {
            Ok(variable) => Ok(Node::Variable(variable)),
            Err(_) => Err(AllocError),
        }
    }
}

// A single node takes no memory of its own.
#[derive(Drop)]
enum Nodes {
    One([Node; 1]),
    Many(Vec<Node>),
}

/// An expression over numbers from 0 to 4,294,967,295 (own). Operators group to the left, products before sums, and brackets are kept.
#[derive(Drop)]
pub struct Expr {
    nodes: Nodes,
    ghost whole: { AreWhole (listed nodes) },
}

/// An expression, or one that stands in it.
#[derive(Clone, Copy)]
pub struct Term<'a> {
    nodes: &'a [Node],
    ghost whole: { AreWhole nodes.now },
}

/// What an expression is made of: a variant for each form of the grammar.
#[derive(Clone, Copy)]
pub enum Form<'a> {
    /// A literal.
    Number(u32),
    /// A variable or parameter.
    Variable(usize),
    /// In brackets.
    Group(Term<'a>),
    /// `+`
    Add(Term<'a>, Term<'a>),
    /// `-`
    Subtract(Term<'a>, Term<'a>),
    /// `*`
    Multiply(Term<'a>, Term<'a>),
    /// `/` by a literal, rounded down.
    Divide(Term<'a>, Divisor),
    /// `%` by a literal.
    Remainder(Term<'a>, Divisor),
}

impl Expr {
    ghost use Rattle.camac_lang.specs.View.{expression_of, term_of};

    /// The expression of this node, which is all that it has.
    #[inline(always)]
    pub fn of_node(node: Node) -> Expr
        requires { AreWhole (node ∷ []) }
        ensures { expression_of result ≡ expression_in (node ∷ []) }
    {
        Expr {
            nodes: Nodes::One([node]),
        }
    }

    /// The expression of these nodes, which are all that it has. An `Err` is out of memory.
    #[inline(always)]
    pub fn of_nodes(alloc: Global, nodes: &[Node]) -> Result<Expr, AllocError>
        requires { AreWhole nodes.now }
        ensures { IfOk result (λ e. expression_of e ≡ expression_in nodes.now) }
    {
        if let [node] = nodes {
            return Ok(Expr::of_node(*node));
        }
        let mut copy = Vec::with_capacity(alloc, nodes.len())?;
        copy.extend_from_slice(nodes)?;
        Ok(Expr {
            nodes: Nodes::Many(copy),
        })
    }

    // The same expression once more. An `Err` is out of memory.
    pub(crate) fn try_clone(&self, alloc: Global) -> Result<Expr, AllocError>
        ensures { IfOk result (λ e. expression_of e ≡ expression_of self.now) }
    {
        Expr::of_nodes(alloc, self.nodes())
    }

    fn nodes(&self) -> &[Node]
        ensures { result.now ≡ listed self.now.nodes }
    {
        match &self.nodes {
            Nodes::One(node) => node,
            Nodes::Many(nodes) => nodes,
        }
    }

    /// The whole expression.
    #[inline(always)]
    pub fn term(&self) -> Term<'_>
        ensures { term_of result ≡ expression_of self.now }
    {
        Term {
            nodes: self.nodes(),
        }
    }
}

// What stands before an operator whose right operand has so many nodes.
#[inline(always)]
fn operands(before: &[Node], count: u32) -> (Term<'_>, Term<'_>)
    requires fits { count ≤ length before.now }
    requires left { AreWhole (take (length before.now - count) before.now) }
    requires right { AreWhole (drop (length before.now - count) before.now) }
    ensures left { result.0.nodes.now ≡ take (length before.now - count) before.now }
    ensures right { result.1.nodes.now ≡ drop (length before.now - count) before.now }
{
    let (left, right) = before.split_at(before.len() - count as usize);
    (Term { nodes: left }, Term { nodes: right })
}

impl<'a> Term<'a> {
    ghost use Rattle.camac_lang.specs.View.{term_of, form_of};

    /// What it is made of.
    #[inline(always)]
    pub fn form(self) -> Form<'a>
        ensures { form_of result ≡ term_of self.entry }
    {
        match self.nodes {
            [before @ .., last] => match last {
                Node::Number(n) => Form::Number(*n),
                Node::Variable(x) => Form::Variable(*x as usize),
                Node::Group => Form::Group(Term { nodes: before }),
                Node::Add(count) => {
                    let (left, right) = operands(before, *count);
                    Form::Add(left, right)
                }
                Node::Subtract(count) => {
                    let (left, right) = operands(before, *count);
                    Form::Subtract(left, right)
                }
                Node::Multiply(count) => {
                    let (left, right) = operands(before, *count);
                    Form::Multiply(left, right)
                }
                Node::Divide(divisor) => Form::Divide(Term { nodes: before }, *divisor),
                Node::Remainder(divisor) => Form::Remainder(Term { nodes: before }, *divisor),
            },
            [] => unreachable!(),
        }
    }
}
