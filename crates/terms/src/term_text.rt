//! Operands, arguments and terms of a rule, from the content of a field.
ghost use Rattle.std.specs.Prelude.{◌≡◌, ◌≤◌, length, true, Some};
ghost use Rattle.std.specs.List.{position_or_len};
ghost use Rattle.terms.specs.Terms.{operand, argument, operator, is_operator, Leading, led_by, term, OperandGrammar, ArgumentGrammar, TermGrammar};

use crate::mark_type::Mark;
use facts::Operator;
use rows::read_number;
use rules::{Operand, Term};

fn operand_written(text: &[u8]) -> Option<Operand>
    ensures { result ≡ operand text.now }
{
    match text {
        [letter @ b'A'..=b'H'] => Some(Operand::Letter(*letter - b'A')),
        [word @ b'X'..=b'Z'] => Some(Operand::Taken(*word - b'X')),
        _ => Some(Operand::Constant(read_number(text)?)),
    }
}

/// The operand that the text writes: a letter from A to H, one of X, Y and Z, or a number; none where it writes no operand.
pub fn read_operand(text: &[u8]) -> Option<Operand>
    ensures reads { result ≡ operand text.now }
    ensures grammar { OperandGrammar text.now result }
{
    operand_written(text)
}

fn argument_written(text: &[u8]) -> Option<Mark>
    ensures { result ≡ argument text.now }
{
    match text {
        [b'*'] => Some(Mark::Star),
        _ => Some(Mark::Operand(operand_written(text)?)),
    }
}

/// The argument that the text writes: `*` or an operand; none where it writes neither.
pub fn read_argument(text: &[u8]) -> Option<Mark>
    ensures reads { result ≡ argument text.now }
    ensures grammar { ArgumentGrammar text.now result }
{
    argument_written(text)
}

fn is_operator(byte: u8) -> bool
    ensures { result ≡ is_operator byte }
{
    matches!(byte, b'+' | b'-' | b'&')
}

fn operator_of(byte: u8) -> Operator
    requires { is_operator byte ≡ true }
    ensures { operator byte ≡ Some result }
{
    match byte {
        b'+' => Operator::Plus,
        b'-' => Operator::Minus,
        _ => Operator::Meet,
    }
}

// How many bytes stand before the first operator.
fn before_operator(bytes: &[u8]) -> usize
    ensures within { result ≤ length bytes.now }
    ensures counted { result ≡ position_or_len is_operator bytes.now }
{
    bytes.iter().take_while(|byte| !is_operator(**byte)).count()
}

// How many bytes the leading operand has: those before the first operator behind the first byte.
fn leading_length(text: &[u8]) -> usize
    ensures { Leading text.now result }
{
    match text {
        [] => 0,
        [_, behind @ ..] => 1 + before_operator(behind),
    }
}

// The term of a leading operand and what stands behind it: nothing, or an operator and a second operand.
fn led_by(first: Operand, behind: &[u8]) -> Option<Term>
    ensures { result ≡ led_by first behind.now }
{
    match behind {
        [] => Some(Term::One(first)),
        [op @ (b'+' | b'-' | b'&'), rest @ ..] => {
            let second = operand_written(rest)?;
            Some(Term::Two(first, operator_of(*op), second))
        }
        _ => None,
    }
}

fn term_written(text: &[u8]) -> Option<Term>
    ensures { result ≡ term text.now }
{
    let end = leading_length(text);
    let first = operand_written(&text[..end])?;
    led_by(first, &text[end..])
}

/// The term that the text writes: an operand, or two joined by `+`, `-` or `&`; none where it writes no term.
/// The first byte belongs to the first operand, so that a minus there is its sign: `5--3` is 5 minus -3.
pub fn read_term(text: &[u8]) -> Option<Term>
    ensures reads { result ≡ term text.now }
    ensures grammar { TermGrammar text.now result }
{
    term_written(text)
}

#[cfg(test)]
mod tests {
    use super::*;

    #[test]
    fn operands_are_letters_words_and_numbers(rt: HostRuntime) {
        assert_eq!(rt; read_operand(b"H"), Some(Operand::Letter(7)));
        assert_eq!(rt; read_operand(b"Z"), Some(Operand::Taken(2)));
        assert_eq!(rt; read_operand(b"-12"), Some(Operand::Constant(-12)));
        assert!(rt; read_operand(b"I").is_none());
        assert!(rt; read_operand(b"AB").is_none());
    }

    #[test]
    fn a_star_is_an_argument_alone(rt: HostRuntime) {
        assert_eq!(rt; read_argument(b"*"), Some(Mark::Star));
        assert_eq!(rt;
            read_argument(b"B"),
            Some(Mark::Operand(Operand::Letter(1)))
        );
        assert!(rt; read_argument(b"**").is_none());
        assert!(rt; read_argument(b"").is_none());
    }

    #[test]
    fn a_minus_in_front_is_a_sign(rt: HostRuntime) {
        assert_eq!(rt;
            read_term(b"5--3"),
            Some(Term::Two(Operand::Constant(5), Operator::Minus, Operand::Constant(-3)))
        );
        assert_eq!(rt;
            read_term(b"A&X"),
            Some(Term::Two(Operand::Letter(0), Operator::Meet, Operand::Taken(0)))
        );
        assert_eq!(rt; read_term(b"-5"), Some(Term::One(Operand::Constant(-5))));
    }

    #[test]
    fn other_texts_are_no_terms(rt: HostRuntime) {
        assert!(rt; read_term(b"A--B").is_none());
        assert!(rt; read_term(b"-A").is_none());
        assert!(rt; read_term(b"5-").is_none());
        assert!(rt; read_term(b"1+2+3").is_none());
    }
}
