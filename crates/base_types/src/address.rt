// Addresses and pages. Each is a type of its own, so that none is taken for another.
ghost use Rattle.std.specs.Prelude.{◌≡◌};
ghost use Rattle.base_types.specs.Address.{space_of, address_of};

// The address of a data byte.
#[derive(Clone, Copy, Debug, PartialEq, Eq)]
pub struct DataAddress(pub u16);

// The address of a status byte.
#[derive(Clone, Copy, Debug, PartialEq, Eq)]
pub struct StatusAddress(pub u16);

// A page number.
#[derive(Clone, Copy, Debug, PartialEq, Eq, PartialOrd, Ord)]
pub struct Page(pub u8);

// A redirection byte.
#[derive(Clone, Copy, Debug, PartialEq, Eq)]
pub struct Redirection(pub u8);

// The two memories of a chip.
#[derive(Clone, Copy, Debug, PartialEq, Eq)]
pub enum Space {
    Data,
    Status,
}

// A byte of the chip's memory that can be written.
#[derive(Clone, Copy, Debug, PartialEq, Eq)]
pub enum Target {
    Data(DataAddress),
    Status(StatusAddress),
}

impl Target {
    pub fn space(self) -> Space
        ensures { result ≡ space_of self }
    {
        match self {
            Target::Data(_) => Space::Data,
            Target::Status(_) => Space::Status,
        }
    }

    pub fn address(self) -> u16
        ensures { result ≡ address_of self }
    {
        match self {
            Target::Data(a) => a.0,
            Target::Status(a) => a.0,
        }
    }
}
