//! Operators between two operands.

ghost use Rattle.std.specs.Prelude.{◌≡◌, ◌≤◌};
ghost use Rattle.c_operators.specs.Operators.{op_of, level_of};

/// An operator of C between two operands (C11 6.5.5 to 6.5.14).
#[derive(Clone, Copy, Debug, PartialEq, Eq)]
pub enum BinaryOp {
    /// `||`
    LogicOr,
    /// `&&`
    LogicAnd,
    /// `|`
    BitOr,
    /// `^`
    BitXor,
    /// `&`
    BitAnd,
    /// `==`
    Equal,
    /// `!=`
    NotEqual,
    /// `<`
    Less,
    /// `<=`
    LessEqual,
    /// `>`
    Greater,
    /// `>=`
    GreaterEqual,
    /// `<<`
    ShiftLeft,
    /// `>>`
    ShiftRight,
    /// `+`
    Plus,
    /// `-`
    Minus,
    /// `*`
    Times,
    /// `/`
    Divide,
    /// `%`
    Remainder,
}

impl BinaryOp {
    /// The operator that these bytes spell.
    #[tactic(auto, unfolding(crate::specs::Operators::op_of))]
    pub fn from_mark(mark: &[u8]) -> Option<BinaryOp>
        ensures { result ≡ op_of mark.now }
    {
        let op = match mark {
            b"||" => BinaryOp::LogicOr,
            b"&&" => BinaryOp::LogicAnd,
            b"|" => BinaryOp::BitOr,
            b"^" => BinaryOp::BitXor,
            b"&" => BinaryOp::BitAnd,
            b"==" => BinaryOp::Equal,
            b"!=" => BinaryOp::NotEqual,
            b"<" => BinaryOp::Less,
            b"<=" => BinaryOp::LessEqual,
            b">" => BinaryOp::Greater,
            b">=" => BinaryOp::GreaterEqual,
            b"<<" => BinaryOp::ShiftLeft,
            b">>" => BinaryOp::ShiftRight,
            b"+" => BinaryOp::Plus,
            b"-" => BinaryOp::Minus,
            b"*" => BinaryOp::Times,
            b"/" => BinaryOp::Divide,
            b"%" => BinaryOp::Remainder,
            _ => return None,
        };
        Some(op)
    }

    /// How tightly an operator binds, 1 to 10: the larger, the looser.
    pub fn level(self) -> u32
        ensures value { result ≡ level_of self }
        ensures range { (1 ≤ result) × (result ≤ 10) }
    {
        match self {
            BinaryOp::LogicOr => 10,
            BinaryOp::LogicAnd => 9,
            BinaryOp::BitOr => 8,
            BinaryOp::BitXor => 7,
            BinaryOp::BitAnd => 6,
            BinaryOp::Equal | BinaryOp::NotEqual => 5,
            BinaryOp::Less | BinaryOp::LessEqual | BinaryOp::Greater | BinaryOp::GreaterEqual => 4,
            BinaryOp::ShiftLeft | BinaryOp::ShiftRight => 3,
            BinaryOp::Plus | BinaryOp::Minus => 2,
            BinaryOp::Times | BinaryOp::Divide | BinaryOp::Remainder => 1,
        }
    }
}
