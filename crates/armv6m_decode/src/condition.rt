//! The conditions of a branch.
ghost use Rattle.std.specs.Prelude.{◌≡◌, ◌<◌};
ghost use Rattle.armv6m_decode.specs.Conditions.{condition_code, condition_of};

/// The condition of a branch, by its meaning after a comparison (A6.3). The comments give the manual's suffix.
#[derive(Clone, Copy, PartialEq, Eq, Debug)]
pub enum Condition {
    /// `EQ`: Z
    Equal,
    /// `NE`: not Z
    NotEqual,
    /// `CS`: C
    CarrySet,
    /// `CC`: not C
    CarryClear,
    /// `MI`: N
    Minus,
    /// `PL`: not N
    Plus,
    /// `VS`: V
    Overflow,
    /// `VC`: not V
    NoOverflow,
    /// `HI`: C and not Z
    Higher,
    /// `LS`: not C, or Z
    LowerOrSame,
    /// `GE`: N is V
    GreaterOrEqual,
    /// `LT`: N isn't V
    LessThan,
    /// `GT`: not Z, and N is V
    GreaterThan,
    /// `LE`: Z, or N isn't V
    LessOrEqual,
}

impl Condition {
    /// All conditions, in the order of their codes.
    pub const ALL: [Condition; 14] = [
        Condition::Equal,
        Condition::NotEqual,
        Condition::CarrySet,
        Condition::CarryClear,
        Condition::Minus,
        Condition::Plus,
        Condition::Overflow,
        Condition::NoOverflow,
        Condition::Higher,
        Condition::LowerOrSame,
        Condition::GreaterOrEqual,
        Condition::LessThan,
        Condition::GreaterThan,
        Condition::LessOrEqual,
    ];

    /// The manual's code of the condition, 0 to 13.
    pub fn code(self) -> u8
        ensures code { result ≡ condition_code self }
        ensures below { result < 14 }
    {
        match self {
            Condition::Equal => 0,
            Condition::NotEqual => 1,
            Condition::CarrySet => 2,
            Condition::CarryClear => 3,
            Condition::Minus => 4,
            Condition::Plus => 5,
            Condition::Overflow => 6,
            Condition::NoOverflow => 7,
            Condition::Higher => 8,
            Condition::LowerOrSame => 9,
            Condition::GreaterOrEqual => 10,
            Condition::LessThan => 11,
            Condition::GreaterThan => 12,
            Condition::LessOrEqual => 13,
        }
    }

    /// The condition with this code.
    #[tactic(auto, unfolding(crate::specs::Conditions::condition_of))]
    pub fn with_code(code: u8) -> Condition
        requires { code < 14 }
        ensures { result ≡ condition_of code }
    {
        match code {
            0 => Condition::Equal,
            1 => Condition::NotEqual,
            2 => Condition::CarrySet,
            3 => Condition::CarryClear,
            4 => Condition::Minus,
            5 => Condition::Plus,
            6 => Condition::Overflow,
            7 => Condition::NoOverflow,
            8 => Condition::Higher,
            9 => Condition::LowerOrSame,
            10 => Condition::GreaterOrEqual,
            11 => Condition::LessThan,
            12 => Condition::GreaterThan,
            _ => Condition::LessOrEqual,
        }
    }
}
