//! What a downlink frame says.

/// The form of a downlink frame; this project's own.
#[derive(Clone, Copy, Debug, PartialEq, Eq)]
pub enum Form {
    /// An address and a function of 3 bits each.
    Short,
    /// An address and a function of 3 bits each, a register and a value of 6 bits each.
    Long,
    /// An address and a function of 3 bits each, a register and a value of 9 bits each.
    XLong,
}

/// What a downlink frame says, each 0 where its form has no such field.
#[derive(Clone, Copy, Debug, PartialEq, Eq)]
pub struct Down {
    /// The sensor's address, 0 to 7.
    pub address: u8,
    /// The function code, 0 to 7.
    pub function: u8,
    /// The register, 0 to 511.
    pub register: u16,
    /// The value, 0 to 511.
    pub value: u16,
}
