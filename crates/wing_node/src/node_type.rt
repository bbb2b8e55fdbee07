// The eight types and the eight units of a node (libwing's NodeType and NodeUnit).
ghost use Rattle.std.specs.Prelude.{◌≡◌};
ghost use Rattle.wing_node.specs.Types.{type_of, unit_of, type_number, unit_number, has_items};

#[derive(Clone, Copy)]
pub enum NodeType {
    Node,
    LinearFloat,
    LogarithmicFloat,
    FaderLevel,
    Integer,
    StringEnum,
    FloatEnum,
    String,
}

#[derive(Clone, Copy)]
pub enum NodeUnit {
    None,
    Db,
    Percent,
    Milliseconds,
    Hertz,
    Meters,
    Seconds,
    Octaves,
}

// The type of a number from the flags; a number over 7 is type 0.
impl From<u16> for NodeType {
    ghost from_gives = { λ n t. t ≡ type_of n };

    fn from(n: u16) -> NodeType {
        match n {
            0 => NodeType::Node,
            1 => NodeType::LinearFloat,
            2 => NodeType::LogarithmicFloat,
            3 => NodeType::FaderLevel,
            4 => NodeType::Integer,
            5 => NodeType::StringEnum,
            6 => NodeType::FloatEnum,
            7 => NodeType::String,
            _ => NodeType::Node,
        }
    }
}

// The unit of a number from the flags; a number over 7 is unit 0.
impl From<u16> for NodeUnit {
    ghost from_gives = { λ n u. u ≡ unit_of n };

    fn from(n: u16) -> NodeUnit {
        match n {
            0 => NodeUnit::None,
            1 => NodeUnit::Db,
            2 => NodeUnit::Percent,
            3 => NodeUnit::Milliseconds,
            4 => NodeUnit::Hertz,
            5 => NodeUnit::Meters,
            6 => NodeUnit::Seconds,
            7 => NodeUnit::Octaves,
            _ => NodeUnit::None,
        }
    }
}

// 01: types in order 0 to 7.
impl From<NodeType> for u8 {
    ghost from_gives = { λ t n. n ≡ type_number t };

    fn from(t: NodeType) -> u8 {
        t as u8
    }
}

impl From<NodeUnit> for u8 {
    ghost from_gives = { λ u n. n ≡ unit_number u };

    fn from(u: NodeUnit) -> u8 {
        u as u8
    }
}

// 01: types 5 and 6 have items.
pub fn has_items(kind: NodeType) -> bool
    ensures { result ≡ has_items kind }
{
    matches!(kind, NodeType::StringEnum | NodeType::FloatEnum)
}
