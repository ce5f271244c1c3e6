//! Values and the operators on them.
ghost use Rattle.std.specs.Prelude.{◌≡◌};
ghost use Rattle.values.specs.Evaluation.{truth, number_of, combined};

/// A value: nothing, a number, or a text. Two values are the same where they are of one form and
/// their numbers or texts are (`docs/SEMANTICS.md`, "Values").
#[derive(Clone, Copy, Debug, PartialEq, Eq, Hash)]
pub enum Code {
    /// Nothing: what comes of a side that is no number, of a division by 0, and of what is not there.
    Empty,
    /// A whole number.
    Number(i32),
    /// A text, by its number in a table of texts. Text 0 is the empty one.
    Word(u32),
}

impl Code {
    /// Whether a condition with this value takes its first branch. Nothing, 0 and the empty text,
    /// which is text 0 of each table, are false.
    pub fn truth(self) -> bool
        ensures { result ≡ truth self }
    {
        match self {
            Code::Empty => false,
            Code::Number(number) => number != 0,
            Code::Word(index) => index != 0,
        }
    }
}

/// 1 where the test holds, else 0.
impl From<bool> for Code {
    fn from(test: bool) -> Code
        ensures { result ≡ number_of test }
    {
        Code::Number(if test { 1 } else { 0 })
    }
}

/// An operator of two operands. Both are evaluated, the left one first.
#[derive(Clone, Copy, Debug, PartialEq, Eq)]
pub enum Op {
    /// The sum.
    Add,
    /// The difference.
    Sub,
    /// The product.
    Mul,
    /// The quotient, rounded towards 0.
    Div,
    /// The remainder, which has the sign of the left side.
    Rem,
    /// 1 where both are the same value, of whatever form, else 0.
    Equal,
    /// 1 where the left number is below the right one, else 0.
    Less,
}

impl Op {
    /// The value of the operator on two values. A sum, difference, product or quotient is the exact
    /// one, held to the ends of `i32`. Nothing comes of a division by 0, and of a side that is no
    /// number, but in `Equal`.
    #[inline]
    pub fn combine(self, left: Code, right: Code) -> Code
        ensures { result ≡ combined self left right }
    {
        match (self, left, right) {
            (Op::Equal, _, _) => Code::from(left == right),
            (_, Code::Number(a), Code::Number(b)) => self.combine_numbers(a, b),
            _ => Code::Empty,
        }
    }

    /// The same on two numbers.
    #[inline]
    fn combine_numbers(self, a: i32, b: i32) -> Code
        ensures { result ≡ combined self (Code.Number a) (Code.Number b) }
    {
        match self {
            Op::Add => Code::Number(a.saturating_add(b)),
            Op::Sub => Code::Number(a.saturating_sub(b)),
            Op::Mul => Code::Number(a.saturating_mul(b)),
            Op::Div if b != 0 => Code::Number(a.saturating_div(b)),
            Op::Rem if b != 0 => Code::Number(a.wrapping_rem(b)),
            Op::Div | Op::Rem => Code::Empty,
            Op::Equal => Code::from(a == b),
            Op::Less => Code::from(a < b),
        }
    }
}
