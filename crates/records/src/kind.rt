// The kinds of records.
ghost use Rattle.std.specs.Prelude.{◌≡◌, ◌≤◌};
ghost use Rattle.records.specs.Records.{arguments, record_length, unit_by, call_by};
ghost use Rattle.records.specs.Kinds.{number, Decodes};

use crate::Malformed;
use crate::records::argument;
use history::{Call, UnitCall};
use layout::TableCall;

// The call that a record asks for.
#[derive(Clone, Copy, Debug, PartialEq, Eq)]
pub enum Kind {
    SetUpPool,
    Open,
    Close,
    Map,
    Unmap,
    Protect,
    Translate,
    Coverage,
}

impl TryFrom<u32> for Kind {
    type Error = Malformed;

    ghost try_from_gives = { Decodes };

    fn try_from(number: u32) -> Result<Self, Malformed> {
        match number {
            1 => Ok(Kind::SetUpPool),
            2 => Ok(Kind::Open),
            3 => Ok(Kind::Close),
            4 => Ok(Kind::Map),
            5 => Ok(Kind::Unmap),
            6 => Ok(Kind::Protect),
            7 => Ok(Kind::Translate),
            8 => Ok(Kind::Coverage),
            _ => Err(Malformed(number)),
        }
    }
}

impl Kind {
    // How many arguments it has.
    fn arguments(self) -> usize
        ensures { (result ≡ arguments (number self)) × (result ≤ 4) }
    {
        match self {
            Kind::SetUpPool | Kind::Open | Kind::Close | Kind::Coverage => 1,
            Kind::Unmap => 3,
            Kind::Map | Kind::Protect | Kind::Translate => 4,
        }
    }

    // The length of its records.
    pub fn record_length(self) -> usize
        ensures { result ≡ record_length (number self) }
    {
        2 + 2 * self.arguments()
    }

    // The unit that its record names; 0 where the call takes none.
    pub fn unit(self, bytes: &[u8]) -> u32
        ensures { result ≡ unit_by (number self) bytes.now }
    {
        match self {
            Kind::Translate => argument(bytes, 0),
            _ => 0,
        }
    }

    // The call that its record asks for.
    pub fn call(self, bytes: &[u8]) -> Call
        ensures { result ≡ call_by (number self) bytes.now }
    {
        match self {
            Kind::SetUpPool => Call::OnTables(TableCall::SetUpPool(argument(bytes, 0))),
            Kind::Open => Call::OnTables(TableCall::Open(argument(bytes, 0))),
            Kind::Close => Call::OnTables(TableCall::Close(argument(bytes, 0))),
            Kind::Map => Call::OnTables(TableCall::Map {
                space: argument(bytes, 0),
                first: argument(bytes, 1),
                count: argument(bytes, 2),
                rights: argument(bytes, 3),
            }),
            Kind::Unmap => Call::OnTables(TableCall::Unmap {
                space: argument(bytes, 0),
                first: argument(bytes, 1),
                count: argument(bytes, 2),
            }),
            Kind::Protect => Call::OnTables(TableCall::Protect {
                space: argument(bytes, 0),
                first: argument(bytes, 1),
                count: argument(bytes, 2),
                rights: argument(bytes, 3),
            }),
            Kind::Translate => Call::OnUnit(UnitCall::Translate {
                space: argument(bytes, 1),
                page: argument(bytes, 2),
                access: argument(bytes, 3),
            }),
            Kind::Coverage => Call::OnTables(TableCall::Coverage(argument(bytes, 0))),
        }
    }
}
