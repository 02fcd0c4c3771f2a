//! The operators that text writes with a symbol or a keyword.
//!
//! Text has each operation in parentheses, so neither precedence nor associativity can change its meaning. Every other name is a function's,
//! which the parser of the text accepts or refuses.
ghost use Rattle.std.specs.Prelude.{◌≡◌};
ghost use Rattle.cql2_json.specs.Operator.{first_separator, later_separator, operand_count, operator_closing, operator_of_name, operator_opening};

use crate::fault::ItemCount;

/// An operator, by the value of `op`.
#[derive(Clone, Copy)]
pub(crate) enum JsonOperator {
    And,
    Or,
    Not,
    Equal,
    NotEqual,
    Less,
    Greater,
    LessOrEqual,
    GreaterOrEqual,
    Like,
    Between,
    In,
    IsNull,
    Plus,
    Minus,
    Times,
    Over,
    Modulo,
    Quotient,
    Power,
}

impl JsonOperator {
    /// Returns the operator with this name.
    pub fn of_name(name: &str) -> Option<JsonOperator>
        ensures { result ≡ operator_of_name name.now }
    {
        match name {
            "and" => Some(JsonOperator::And),
            "or" => Some(JsonOperator::Or),
            "not" => Some(JsonOperator::Not),
            "=" => Some(JsonOperator::Equal),
            "<>" => Some(JsonOperator::NotEqual),
            "<" => Some(JsonOperator::Less),
            ">" => Some(JsonOperator::Greater),
            "<=" => Some(JsonOperator::LessOrEqual),
            ">=" => Some(JsonOperator::GreaterOrEqual),
            "like" => Some(JsonOperator::Like),
            "between" => Some(JsonOperator::Between),
            "in" => Some(JsonOperator::In),
            "isNull" => Some(JsonOperator::IsNull),
            "+" => Some(JsonOperator::Plus),
            "-" => Some(JsonOperator::Minus),
            "*" => Some(JsonOperator::Times),
            // Text has neither `/` nor `^`: its parser refuses them, at the value that they come from.
            "/" => Some(JsonOperator::Over),
            "%" => Some(JsonOperator::Modulo),
            "div" => Some(JsonOperator::Quotient),
            "^" => Some(JsonOperator::Power),
            _ => None,
        }
    }

    /// Returns the number of operands.
    pub fn operand_count(self) -> ItemCount
        ensures { result ≡ operand_count self }
    {
        match self {
            JsonOperator::And | JsonOperator::Or => ItemCount::TwoOrMore,
            JsonOperator::Not | JsonOperator::IsNull => ItemCount::One,
            JsonOperator::Between => ItemCount::Three,
            _ => ItemCount::Two,
        }
    }

    /// Returns the text before the first operand.
    pub fn opening(self) -> &'static str
        ensures { result.now ≡ operator_opening self }
    {
        match self {
            JsonOperator::Not => "(NOT ",
            _ => "(",
        }
    }

    /// Returns the text before the second operand.
    pub fn first_separator(self) -> &'static str
        ensures { result.now ≡ first_separator self }
    {
        match self {
            JsonOperator::And => " AND ",
            JsonOperator::Or => " OR ",
            JsonOperator::Equal => " = ",
            JsonOperator::NotEqual => " <> ",
            JsonOperator::Less => " < ",
            JsonOperator::Greater => " > ",
            JsonOperator::LessOrEqual => " <= ",
            JsonOperator::GreaterOrEqual => " >= ",
            JsonOperator::Like => " LIKE ",
            JsonOperator::Between => " BETWEEN ",
            JsonOperator::In => " IN ",
            JsonOperator::Plus => " + ",
            JsonOperator::Minus => " - ",
            JsonOperator::Times => " * ",
            JsonOperator::Over => " / ",
            JsonOperator::Modulo => " % ",
            JsonOperator::Quotient => " DIV ",
            JsonOperator::Power => " ^ ",
            JsonOperator::Not | JsonOperator::IsNull => "",
        }
    }

    /// Returns the text before an operand after the second.
    pub fn later_separator(self) -> &'static str
        ensures { result.now ≡ later_separator self }
    {
        match self {
            JsonOperator::Between => " AND ",
            _ => self.first_separator(),
        }
    }

    /// Returns the text after the last operand.
    pub fn closing(self) -> &'static str
        ensures { result.now ≡ operator_closing self }
    {
        match self {
            JsonOperator::IsNull => " IS NULL)",
            _ => ")",
        }
    }
}
