// Expressions.

ghost use Rattle.std.specs.Prelude.{◌≡◌, ℕ, Ok, ◌≤◌, ◌-◌, false, suc, IfOk, length};
ghost use Rattle.camac_lang.specs.Tree.{Expression};
ghost use Rattle.camac_lang.specs.View.{expression_of};
ghost use Rattle.camac_text_cursor.specs.Readers.{is_number};
ghost use Rattle.camac_text_cursor.specs.Reading.{State, kind_of, until};
ghost use Rattle.camac_text_cursor.specs.declared.choice.Choice.TheVariants as choice;
ghost use Rattle.camac_text_phrases.specs.Expressions.{counted, operator, divisor, factor_with, brackets_with, is_product_sign, product_turn, product_with, is_sum_sign, sum_turn, sum_with, bracketed, expression_at};
ghost use Rattle.camac_text_cursor.specs.Parser.{state, Gives};
ghost use Rattle.camac_text_phrases.specs.Views.{Continues, Leaf, Puts, Tries};

use camac_lang::{Divisor, Expr, Node, limits};
use camac_text_cursor::{Choice, Parser};
use camac_tokens::{Limit, Sign, TextCase, TextFault, TokenKind};
use std::alloc::AllocError;

/// An expression, where so many brackets may be open at once.
#[tactic(auto, unfolding(crate::specs::Expressions::expression_at))]
pub fn expression(parser: &mut Parser<'_>, room: u32) -> Result<Expr, TextFault>
    ensures { Gives expression_of result parser.new (expression_at room (state parser.old)) }
{
    match quick_leaf(parser)? {
        Some(node) => {
            if is_product_sign(parser) || is_sum_sign(parser) {
                return long_expression(parser, room, Some(node));
            }
            parser.miss(Choice::Product);
            parser.miss(Choice::Sum);
            Ok(Expr::of_node(node))
        }
        None => other_expression(parser, room),
    }
}

// A number or a variable, if one is next; else nothing is taken. Most expressions are no more than that. It is quick, since it tells no fault.
#[inline(always)]
fn quick_leaf(parser: &mut Parser<'_>) -> Result<Option<Node>, AllocError>
    ensures { (room so_far : ℕ) → IfOk result (λ first. Tries room so_far (state parser.old) first parser.new) }
{
    match parser.peek() {
        Some(TokenKind::Number(number)) => {
            let number = *number;
            parser.advance();
            Ok(Some(Node::Number(number)))
        }
        _ => match parser.take_variable() {
            Some(place) => Ok(Some(Node::of_variable(place)?)),
            None => Ok(None),
        },
    }
}

// The same. A name that is no variable is refused.
#[inline(always)]
fn leaf(parser: &mut Parser<'_>) -> Result<Option<Node>, TextFault>
    ensures { (room so_far : ℕ) → Leaf room so_far (state parser.old) result parser.new }
{
    match quick_leaf(parser)? {
        Some(node) => Ok(Some(node)),
        None => other_leaf(parser),
    }
}

#[inline(never)]
#[tactic(auto, unfolding(crate::specs::Expressions::factor_with, crate::specs::Expressions::brackets_with))]
fn other_leaf(parser: &mut Parser<'_>) -> Result<Option<Node>, TextFault>
    requires { is_number (kind_of (state parser.old).rest) ≡ false }
    ensures { (room so_far : ℕ) → Leaf room so_far (state parser.old) result parser.new }
{
    match parser.peek() {
        Some(TokenKind::Name(_)) => {
            let place = parser.used_variable()?;
            Ok(Some(Node::of_variable(place)?))
        }
        _ => {
            parser.miss(Choice::Number);
            parser.miss(Choice::Name);
            Ok(None)
        }
    }
}

// An expression that does not begin with a number.
#[inline(never)]
fn other_expression(parser: &mut Parser<'_>, room: u32) -> Result<Expr, TextFault>
    requires { is_number (kind_of (state parser.old).rest) ≡ false }
    ensures { Gives expression_of result parser.new (expression_at room (state parser.old)) }
{
    let first = other_leaf(parser)?;
    long_expression(parser, room, first)
}

// An expression that goes on behind its first number or variable, which is read already, or that begins with a bracket.
#[inline(never)]
fn long_expression(
    parser: &mut Parser<'_>,
    room: u32,
    first: Option<Node>,
) -> Result<Expr, TextFault>
    requires { (before : State) × Leaf room 0 before (Ok first) parser.old }
    ensures { (before : State) → Leaf room 0 before (Ok first) parser.old → Gives expression_of result parser.new (expression_at room before) }
{
    let mut nodes = parser.take_nodes();
    let operators = factor_from(parser, room, 0, first, &mut nodes)?;
    let operators = products(parser, room, operators, &mut nodes)?;
    sums(parser, room, operators, &mut nodes)?;
    let whole = Expr::of_nodes(parser.alloc(), &nodes)?;
    parser.give_back_nodes(nodes);
    Ok(whole)
}

// Each of these puts the nodes of what it reads behind others. It takes the operators that the whole expression has before, and answers
// those up to its end.

#[cycle(expression)]
#[tactic(auto, unfolding(crate::specs::Expressions::sum_with))]
fn sum(
    parser: &mut Parser<'_>,
    room: u32,
    so_far: u32,
    nodes: &mut Vec<Node>,
) -> Result<u32, TextFault>
    ensures { Puts nodes.old.items nodes.new.items result parser.new (sum_with (bracketed room) so_far (state parser.old)) }
{
    let operators = product(parser, room, so_far, nodes)?;
    sums(parser, room, operators, nodes)
}

// A sum with all terms that follow, where the nodes end with those of the sum before them.
#[cycle(expression)]
#[inline(always)]
fn sums(
    parser: &mut Parser<'_>,
    room: u32,
    so_far: u32,
    nodes: &mut Vec<Node>,
) -> Result<u32, TextFault>
    ensures { (left : Expression) → Continues left nodes.old.items nodes.new.items result parser.new (until choice.Sum is_sum_sign (sum_turn (bracketed room)) (counted left so_far) (state parser.old)) }
{
    let mut operators = so_far;
    while is_sum_sign(parser) {
        operators = sum_turn(parser, room, operators, nodes)?;
    }
    parser.miss(Choice::Sum);
    Ok(operators)
}

#[inline(always)]
fn is_sum_sign(parser: &Parser<'_>) -> bool
    ensures { result ≡ is_sum_sign (kind_of (state parser.now).rest) }
{
    matches!(
        parser.peek(),
        Some(TokenKind::Sign(Sign::Plus)) | Some(TokenKind::Sign(Sign::Minus))
    )
}

/// A sum with one term more, where the nodes end with those of the sum before it.
#[cycle(expression)]
#[tactic(auto, unfolding(crate::specs::Expressions::sum_turn))]
#[inline(always)]
fn sum_turn(
    parser: &mut Parser<'_>,
    room: u32,
    so_far: u32,
    nodes: &mut Vec<Node>,
) -> Result<u32, TextFault>
    ensures { (left : Expression) → Continues left nodes.old.items nodes.new.items result parser.new (sum_turn (bracketed room) (counted left so_far) (state parser.old)) }
{
    let is_difference = parser.next_is_sign(Sign::Minus);
    let so_far = operator(parser, so_far)?;
    let left = nodes.len();
    let operators = product(parser, room, so_far, nodes)?;
    let right = count_from(nodes, left)?;
    let node = if is_difference {
        Node::Subtract(right)
    } else {
        Node::Add(right)
    };
    nodes.push(node)?;
    Ok(operators)
}

// An `Err` is out of memory: nodes whose number does not fit 32 bits find no room.
#[inline(always)]
fn count_from(nodes: &[Node], place: usize) -> Result<u32, AllocError>
    requires { place ≤ length nodes.now }
    ensures { IfOk result (λ n. n ≡ length nodes.now - place) }
{
    match u32::try_from(nodes.len() - place) {
        Ok(count) => Ok(count),
        Err(_) => Err(AllocError),
    }
}

#[cycle(expression)]
#[tactic(auto, unfolding(crate::specs::Expressions::product_with))]
#[inline(always)]
fn product(
    parser: &mut Parser<'_>,
    room: u32,
    so_far: u32,
    nodes: &mut Vec<Node>,
) -> Result<u32, TextFault>
    ensures { Puts nodes.old.items nodes.new.items result parser.new (product_with (bracketed room) so_far (state parser.old)) }
{
    let operators = factor(parser, room, so_far, nodes)?;
    products(parser, room, operators, nodes)
}

// A product with all factors that follow, where the nodes end with those of the product before them.
#[cycle(expression)]
#[inline(always)]
fn products(
    parser: &mut Parser<'_>,
    room: u32,
    so_far: u32,
    nodes: &mut Vec<Node>,
) -> Result<u32, TextFault>
    ensures { (left : Expression) → Continues left nodes.old.items nodes.new.items result parser.new (until choice.Product is_product_sign (product_turn (bracketed room)) (counted left so_far) (state parser.old)) }
{
    let mut operators = so_far;
    while is_product_sign(parser) {
        operators = product_turn(parser, room, operators, nodes)?;
    }
    parser.miss(Choice::Product);
    Ok(operators)
}

#[inline(always)]
fn is_product_sign(parser: &Parser<'_>) -> bool
    ensures { result ≡ is_product_sign (kind_of (state parser.now).rest) }
{
    matches!(
        parser.peek(),
        Some(TokenKind::Sign(Sign::Times))
            | Some(TokenKind::Sign(Sign::Over))
            | Some(TokenKind::Sign(Sign::Modulo))
    )
}

/// A product with one factor or divisor more, where the nodes end with those of the product before it.
#[cycle(expression)]
#[tactic(auto, unfolding(crate::specs::Expressions::product_turn))]
#[inline(never)]
fn product_turn(
    parser: &mut Parser<'_>,
    room: u32,
    so_far: u32,
    nodes: &mut Vec<Node>,
) -> Result<u32, TextFault>
    ensures { (left : Expression) → Continues left nodes.old.items nodes.new.items result parser.new (product_turn (bracketed room) (counted left so_far) (state parser.old)) }
{
    match parser.peek() {
        Some(TokenKind::Sign(Sign::Over)) => {
            let operators = operator(parser, so_far)?;
            let divisor = divisor(parser)?;
            nodes.push(Node::Divide(divisor))?;
            Ok(operators)
        }
        Some(TokenKind::Sign(Sign::Modulo)) => {
            let operators = operator(parser, so_far)?;
            let divisor = divisor(parser)?;
            nodes.push(Node::Remainder(divisor))?;
            Ok(operators)
        }
        _ => {
            let so_far = operator(parser, so_far)?;
            let left = nodes.len();
            let operators = factor(parser, room, so_far, nodes)?;
            let right = count_from(nodes, left)?;
            nodes.push(Node::Multiply(right))?;
            Ok(operators)
        }
    }
}

#[cycle(expression)]
#[inline(always)]
fn factor(
    parser: &mut Parser<'_>,
    room: u32,
    so_far: u32,
    nodes: &mut Vec<Node>,
) -> Result<u32, TextFault>
    ensures { Puts nodes.old.items nodes.new.items result parser.new (factor_with (bracketed room) so_far (state parser.old)) }
{
    let first = leaf(parser)?;
    factor_from(parser, room, so_far, first, nodes)
}

// A factor, where the number or variable that it may be is read already.
#[cycle(expression)]
#[inline(always)]
fn factor_from(
    parser: &mut Parser<'_>,
    room: u32,
    so_far: u32,
    first: Option<Node>,
    nodes: &mut Vec<Node>,
) -> Result<u32, TextFault>
    ensures { (before : State) → Leaf room so_far before (Ok first) parser.old → Puts nodes.old.items nodes.new.items result parser.new (factor_with (bracketed room) so_far before) }
{
    match first {
        Some(node) => {
            nodes.push(node)?;
            Ok(so_far)
        }
        None => bracket(parser, room, so_far, nodes),
    }
}

// What stands in brackets, which have to be next.
#[cycle(expression)]
#[tactic(auto, unfolding(crate::specs::Expressions::brackets_with))]
#[inline(always)]
fn bracket(
    parser: &mut Parser<'_>,
    room: u32,
    so_far: u32,
    nodes: &mut Vec<Node>,
) -> Result<u32, TextFault>
    ensures { Puts nodes.old.items nodes.new.items result parser.new (brackets_with (bracketed room) so_far (state parser.old)) }
{
    match parser.peek() {
        Some(TokenKind::Sign(Sign::LeftBracket)) => bracketed(parser, room, so_far, nodes),
        _ => Err(parser.unexpected(Choice::Mark(Sign::LeftBracket))),
    }
}

#[cycle(expression)]
#[tactic(auto, unfolding(crate::specs::Expressions::bracketed))]
#[inline(never)]
fn bracketed(
    parser: &mut Parser<'_>,
    room: u32,
    so_far: u32,
    nodes: &mut Vec<Node>,
) -> Result<u32, TextFault>
    ensures { Puts nodes.old.items nodes.new.items result parser.new (bracketed room so_far (state parser.old)) }
{
    if room == 0 {
        return Err(parser.fault(TextCase::Limit(Limit::Depth)));
    }
    in_brackets(parser, room - 1, so_far, nodes)
}

#[cycle(expression)]
#[tactic(auto, unfolding(crate::specs::Expressions::bracketed))]
fn in_brackets(
    parser: &mut Parser<'_>,
    room: u32,
    so_far: u32,
    nodes: &mut Vec<Node>,
) -> Result<u32, TextFault>
    ensures { Puts nodes.old.items nodes.new.items result parser.new (bracketed (suc room) so_far (state parser.old)) }
{
    parser.advance();
    let operators = sum(parser, room, so_far, nodes)?;
    parser.expect_sign(Sign::RightBracket)?;
    nodes.push(Node::Group)?;
    Ok(operators)
}

/// The sign of an operator, where so many stand before it in the expression: their number with it.
#[tactic(auto, unfolding(crate::specs::Expressions::operator))]
#[inline(always)]
fn operator(parser: &mut Parser<'_>, so_far: u32) -> Result<u32, TextFault>
    ensures { Gives (λ n. n) result parser.new (operator so_far (state parser.old)) }
{
    if so_far >= limits::OPERATORS {
        return Err(parser.fault(TextCase::Limit(Limit::Operators)));
    }
    parser.advance();
    Ok(so_far + 1)
}

#[tactic(auto, unfolding(crate::specs::Expressions::divisor))]
fn divisor(parser: &mut Parser<'_>) -> Result<Divisor, TextFault>
    ensures { Gives (λ n. n) result parser.new (divisor (state parser.old)) }
{
    let number = parser.number_here()?;
    match Divisor::new(number) {
        Some(divisor) => {
            parser.advance();
            Ok(divisor)
        }
        None => Err(parser.fault(TextCase::ZeroDivisor)),
    }
}
