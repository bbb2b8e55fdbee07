// The token table: the class of a first unit and how many units its token wants.
ghost use Rattle.std.specs.Prelude.{◌≡◌};
ghost use Rattle.wing_wire.specs.Token.{rule_of, class_number, IsNumbered, width_of};

mod rows;

// What a token is. LongCount is in no table row: it is the 32-bit count after a count of 0.
#[derive(Debug, Clone, Copy, PartialEq, Eq)]
pub enum Class {
    NoEvent,
    Integer,
    String,
    Length,
    Int16,
    Int32,
    Float,
    Node,
    End,
    Count,
    LongCount,
}

impl From<Class> for u8 {
    ghost from_gives = { λ class n. n ≡ class_number class };

    fn from(class: Class) -> u8 {
        class as u8
    }
}

// The class of a number, or the number again where no class has it.
impl TryFrom<u8> for Class {
    type Error = u8;

    ghost try_from_gives = { IsNumbered };

    fn try_from(n: u8) -> Result<Self, u8> {
        match n {
            0 => Ok(Class::NoEvent),
            1 => Ok(Class::Integer),
            2 => Ok(Class::String),
            3 => Ok(Class::Length),
            4 => Ok(Class::Int16),
            5 => Ok(Class::Int32),
            6 => Ok(Class::Float),
            7 => Ok(Class::Node),
            8 => Ok(Class::End),
            9 => Ok(Class::Count),
            10 => Ok(Class::LongCount),
            _ => Err(n),
        }
    }
}

#[derive(Debug, Clone, Copy, PartialEq, Eq)]
pub struct Rule {
    pub class: Class,
    pub wants: u16,
}

// The row of a first unit. The table is looked up here alone.
pub fn rule_of(t: u8) -> Rule
    ensures { result ≡ rule_of t }
{
    let i = usize::from(t);
    Rule {
        class: rows::CLASSES[i],
        wants: u16::from(rows::WANTS[i]),
    }
}

// The units that a number of a class is made of, at most; a class that is no number has none.
#[tactic(auto, unfolding(crate::specs::Token::width_of))]
pub(crate) fn width_of(class: Class) -> u16
    ensures { result ≡ width_of class }
{
    match class {
        Class::Length => 1,
        Class::NoEvent | Class::Int16 | Class::Count => 2,
        Class::Int32 | Class::Float | Class::Node | Class::LongCount => 4,
        Class::Integer | Class::String | Class::End => 0,
    }
}
