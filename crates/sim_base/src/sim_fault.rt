//! Why a simulator refuses a message. The names and the numbers are this project's own.
ghost use Rattle.std.specs.Prelude.{◌≡◌};
ghost use Rattle.sim_base.specs.SimFaults.{sim_fault_name, sim_fault_number};

use std::error::Error;
use std::fmt;
use std::fmt::{Display, Formatter};

/// Why a message is refused, in the order in which these are tested. It is printed by its name.
#[derive(Clone, Copy, Debug, PartialEq, Eq)]
pub enum SimFault {
    /// The message isn't one of the channel's setup.
    Kind,
    /// A value doesn't fit.
    Range,
    /// The message may not come at this place.
    Order,
    /// The last ideal time would be above 9 * 10^17 ps.
    Late,
}

impl SimFault {
    /// The fault's name, as it is printed: that of its variant.
    pub fn name(self) -> &'static str
        ensures { result.now ≡ sim_fault_name self }
    {
        match self {
            SimFault::Kind => "Kind",
            SimFault::Range => "Range",
            SimFault::Order => "Order",
            SimFault::Late => "Late",
        }
    }

    /// The fault's number, 1 to 4.
    pub fn number(self) -> u8
        ensures { result ≡ sim_fault_number self }
    {
        match self {
            SimFault::Kind => 1,
            SimFault::Range => 2,
            SimFault::Order => 3,
            SimFault::Late => 4,
        }
    }
}

impl Display for SimFault {
    fn fmt<W: fmt::Write>(&self, f: &mut Formatter<W>) -> fmt::Result {
        f.write_str(self.name())
    }
}

impl Error for SimFault {}
