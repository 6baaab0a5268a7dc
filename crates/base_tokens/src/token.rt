//! The tokens of operators and of what binds names and values together.

ghost use Rattle.std.specs.Prelude.{◌≡◌, is_some};
ghost use Rattle.base_tokens.specs.Symbols.{token_text};
ghost use Rattle.base_tokens.specs.Tokens as table;

/// The token of an operator, of an assignment or of what joins a chain. The names are rhai's.
#[derive(Clone, Copy, Debug, PartialEq, Eq)]
pub enum Token {
    /// `+`
    Plus,
    /// `+` before an operand
    UnaryPlus,
    /// `-`
    Minus,
    /// `-` before an operand
    UnaryMinus,
    /// `*`
    Multiply,
    /// `/`
    Divide,
    /// `%`
    Modulo,
    /// `**`
    PowerOf,
    /// `<<`
    LeftShift,
    /// `>>`
    RightShift,
    /// `&`
    Ampersand,
    /// `|`
    Pipe,
    /// `^`
    XOr,
    /// `==`
    EqualsTo,
    /// `!=`
    NotEqualsTo,
    /// `<`
    LessThan,
    /// `<=`
    LessThanEqualsTo,
    /// `>`
    GreaterThan,
    /// `>=`
    GreaterThanEqualsTo,
    /// `..`
    ExclusiveRange,
    /// `..=`
    InclusiveRange,
    /// `!`
    Bang,
    /// `+=`
    PlusAssign,
    /// `-=`
    MinusAssign,
    /// `*=`
    MultiplyAssign,
    /// `/=`
    DivideAssign,
    /// `%=`
    ModuloAssign,
    /// `**=`
    PowerOfAssign,
    /// `<<=`
    LeftShiftAssign,
    /// `>>=`
    RightShiftAssign,
    /// `&=`
    AndAssign,
    /// `|=`
    OrAssign,
    /// `^=`
    XOrAssign,
    /// `=`
    Equals,
    /// `.`
    Period,
    /// `?.`
    Elvis,
    /// `[`
    LeftBracket,
    /// `?[`
    QuestionBracket,
    /// `(`
    LeftParen,
    /// `()`
    Unit,
    /// `::`
    DoubleColon,
}

/// The tokens that have a text of their own.
const SYMBOLS: [Token; 39] = [
    Token::Plus,
    Token::Minus,
    Token::Multiply,
    Token::Divide,
    Token::Modulo,
    Token::PowerOf,
    Token::LeftShift,
    Token::RightShift,
    Token::Ampersand,
    Token::Pipe,
    Token::XOr,
    Token::EqualsTo,
    Token::NotEqualsTo,
    Token::LessThan,
    Token::LessThanEqualsTo,
    Token::GreaterThan,
    Token::GreaterThanEqualsTo,
    Token::ExclusiveRange,
    Token::InclusiveRange,
    Token::Bang,
    Token::PlusAssign,
    Token::MinusAssign,
    Token::MultiplyAssign,
    Token::DivideAssign,
    Token::ModuloAssign,
    Token::PowerOfAssign,
    Token::LeftShiftAssign,
    Token::RightShiftAssign,
    Token::AndAssign,
    Token::OrAssign,
    Token::XOrAssign,
    Token::Equals,
    Token::Period,
    Token::Elvis,
    Token::LeftBracket,
    Token::QuestionBracket,
    Token::LeftParen,
    Token::Unit,
    Token::DoubleColon,
];

impl Token {
    /// The token as it is written; a unary operator is written as the binary one.
    pub fn literal_syntax(&self) -> &'static str
        ensures { result.now ≡ token_text self.now }
    {
        match self {
            Token::Plus | Token::UnaryPlus => "+",
            Token::Minus | Token::UnaryMinus => "-",
            Token::Multiply => "*",
            Token::Divide => "/",
            Token::Modulo => "%",
            Token::PowerOf => "**",
            Token::LeftShift => "<<",
            Token::RightShift => ">>",
            Token::Ampersand => "&",
            Token::Pipe => "|",
            Token::XOr => "^",
            Token::EqualsTo => "==",
            Token::NotEqualsTo => "!=",
            Token::LessThan => "<",
            Token::LessThanEqualsTo => "<=",
            Token::GreaterThan => ">",
            Token::GreaterThanEqualsTo => ">=",
            Token::ExclusiveRange => "..",
            Token::InclusiveRange => "..=",
            Token::Bang => "!",
            Token::PlusAssign => "+=",
            Token::MinusAssign => "-=",
            Token::MultiplyAssign => "*=",
            Token::DivideAssign => "/=",
            Token::ModuloAssign => "%=",
            Token::PowerOfAssign => "**=",
            Token::LeftShiftAssign => "<<=",
            Token::RightShiftAssign => ">>=",
            Token::AndAssign => "&=",
            Token::OrAssign => "|=",
            Token::XOrAssign => "^=",
            Token::Equals => "=",
            Token::Period => ".",
            Token::Elvis => "?.",
            Token::LeftBracket => "[",
            Token::QuestionBracket => "?[",
            Token::LeftParen => "(",
            Token::Unit => "()",
            Token::DoubleColon => "::",
        }
    }

    /// The token that is written so, if any: of `-` and `+` the binary one.
    pub fn lookup_symbol_from_syntax(text: &str) -> Option<Token>
        ensures { result ≡ table.token_named text.now }
    {
        first_written(text, &SYMBOLS)
    }

    /// Has this operator an `op=` form?
    pub fn has_op_assignment(&self) -> bool
        ensures { result ≡ is_some (table.assignment_of self.now) }
    {
        matches!(
            self,
            Token::Plus
                | Token::Minus
                | Token::Multiply
                | Token::Divide
                | Token::Modulo
                | Token::PowerOf
                | Token::LeftShift
                | Token::RightShift
                | Token::Ampersand
                | Token::Pipe
                | Token::XOr
        )
    }

    /// The operator of an `op=` form; none for any other token.
    pub fn get_base_op_from_assignment(&self) -> Option<Token>
        ensures { result ≡ table.base_of self.now }
    {
        match self {
            Token::PlusAssign => Some(Token::Plus),
            Token::MinusAssign => Some(Token::Minus),
            Token::MultiplyAssign => Some(Token::Multiply),
            Token::DivideAssign => Some(Token::Divide),
            Token::ModuloAssign => Some(Token::Modulo),
            Token::PowerOfAssign => Some(Token::PowerOf),
            Token::LeftShiftAssign => Some(Token::LeftShift),
            Token::RightShiftAssign => Some(Token::RightShift),
            Token::AndAssign => Some(Token::Ampersand),
            Token::OrAssign => Some(Token::Pipe),
            Token::XOrAssign => Some(Token::XOr),
            _ => None,
        }
    }

    /// The `op=` form of an operator; none where it has none.
    pub fn convert_to_op_assignment(&self) -> Option<Token>
        ensures { result ≡ table.assignment_of self.now }
    {
        match self {
            Token::Plus => Some(Token::PlusAssign),
            Token::Minus => Some(Token::MinusAssign),
            Token::Multiply => Some(Token::MultiplyAssign),
            Token::Divide => Some(Token::DivideAssign),
            Token::Modulo => Some(Token::ModuloAssign),
            Token::PowerOf => Some(Token::PowerOfAssign),
            Token::LeftShift => Some(Token::LeftShiftAssign),
            Token::RightShift => Some(Token::RightShiftAssign),
            Token::Ampersand => Some(Token::AndAssign),
            Token::Pipe => Some(Token::OrAssign),
            Token::XOr => Some(Token::XOrAssign),
            _ => None,
        }
    }
}

fn first_written(text: &str, tokens: &[Token]) -> Option<Token>
    ensures { result ≡ table.first_written text.now tokens.now }
{
    for token in tokens {
        if token.literal_syntax() == text {
            return Some(*token);
        }
    }
    None
}
