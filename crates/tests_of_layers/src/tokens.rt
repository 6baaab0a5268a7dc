//! Tokens, what is assigned by them, flags of nodes, positions and spans.

use bitflags::Flags;
use rhai_base::{ASTFlags, AstError, OpAssignment, Position, Span, Token};
use tests_reader::{Said, split};

pub fn answer(question: &str, text: &str, said: &Said) -> bool {
    let (one, other) = split(text, " ");
    match question {
        "token" => say_token(text, said),
        "assignment" => say_assignments(text, said),
        "assignment-of-tokens" => of_tokens(said),
        "flag" => say_flag(text, said),
        "two-flags" => two_flags(flag(one), flag(other), said),
        "places" => places(place(one), place(other), said),
        _ => return false,
    }
    true
}

/// The operator of a text, which may stand in quotes.
pub fn operator(text: &str) -> Option<Token> {
    match text {
        "unary+" => Some(Token::UnaryPlus),
        "unary-" => Some(Token::UnaryMinus),
        _ => Token::lookup_symbol_from_syntax(text.trim_matches('"')),
    }
}

fn put_token(said: &Said, word: &str, token: Option<Token>) {
    if let Some(token) = token {
        said.word(word);
        said.word(token.literal_syntax());
        said.word("");
        said.debug(&token);
    }
}

fn say_token(text: &str, said: &Said) {
    let Some(token) = operator(text) else {
        return said.word("none");
    };
    let form = token.convert_to_op_assignment();
    said.word_if(token.has_op_assignment() != form.is_some(), "not");
    put_token(said, "text", Some(token));
    put_token(said, "with the form", form);
    put_token(said, "the form of", token.get_base_op_from_assignment());
}

/// Says what is assigned by a text that is an `op=`, and by one that is the operator.
fn say_assignments(text: &str, said: &Said) {
    let here = Position::new(1, 7);
    say_assignment(OpAssignment::new_op_assignment(text, here), said);
    said.put(";");
    say_assignment(OpAssignment::new_op_assignment_from_base(text, here), said);
}

fn say_assignment(made: Result<OpAssignment, AstError>, said: &Said) {
    match made {
        Ok(made) => say_info(&made, said),
        Err(refusal) => said.count("refusal", usize::from(refusal.number())),
    }
}

fn say_info(made: &OpAssignment, said: &Said) {
    let info = made.get_op_assignment_info();
    said.word_if(made.is_op_assignment() != info.is_some(), "not");
    if let Some((_, form, _, operator)) = info {
        said.word(form);
        said.word(operator);
    }
    said.place("at", made.position());
}

fn of_tokens(said: &Said) {
    let here = Position::new(1, 7);
    say_info(
        &OpAssignment::new_op_assignment_from_token(Token::PlusAssign, here),
        said,
    );
    say_info(
        &OpAssignment::new_op_assignment_from_base_token(&Token::Plus, here),
        said,
    );
    say_info(&OpAssignment::new_assignment(here), said);
}

/// The flag of a name; none where it has another name.
pub fn flag(name: &str) -> ASTFlags {
    ASTFlags::from_name(name).unwrap_or(ASTFlags::NONE)
}

fn say_flag(name: &str, said: &Said) {
    let flag = flag(name);
    said.count("bits", usize::from(flag.bits()));
    said.word_if(flag.is_empty(), "none");
    said.word_if(
        ASTFlags::from_bits(flag.bits()) != Some(flag),
        "by its bits another",
    );
    said.word_if(ASTFlags::NONE < flag, "above none");
    said.word_if(flag < ASTFlags::BREAK, "below BREAK");
    said.word_if(flag == ASTFlags::BREAK, "BREAK");
    said.word_if(ASTFlags::from_bits(16).is_some(), "and 16 too");
}

fn say_bits(said: &Said, word: &str, flags: ASTFlags) {
    said.count(word, usize::from(flags.bits()));
}

/// What becomes of two flags by the second, by each operator and by each that assigns.
fn two_flags(first: ASTFlags, second: ASTFlags, said: &Said) {
    let both = first | second;
    said.word_if(both.contains(second), "has the second");
    said.word_if(both.contains(ASTFlags::CONSTANT), "has CONSTANT");
    say_bits(said, "-", both - second);
    say_bits(said, "&", both & second);
    say_bits(said, "^", both ^ second);
    say_bits(said, "!", !both);
    let mut flags = ASTFlags::NONE;
    flags |= both;
    flags -= first;
    say_bits(said, "-=", flags);
    flags ^= second | ASTFlags::CONSTANT;
    say_bits(said, "^=", flags);
    flags &= second;
    say_bits(said, "&=", flags);
}

/// A position of a text, as `3:14`; none of other texts.
fn place(text: &str) -> Position {
    let (line, column) = split(text, ":");
    match (line.parse::<u16>(), column.parse::<u16>()) {
        (Ok(line), Ok(column)) if line > 0 => Position::new(line, column),
        _ => Position::NONE,
    }
}

/// A span of two positions, with 1:1 and 9:9 where it is nowhere, and the first or else the second.
fn places(start: Position, end: Position, said: &Said) {
    let span = Span::new(start, end);
    said.place("from", span.start());
    said.place("to", span.end());
    said.word_if(span.is_none(), "no span");
    said.word_if(span == Span::NONE, "none");
    let filled = span.or_else(Position::new(1, 1), Position::new(9, 9));
    said.place("filled from", filled.start());
    said.place("to", filled.end());
    said.place("or else", start.or_else(end));
}
