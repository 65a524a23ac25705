//! Why a command is refused.
ghost use Rattle.std.specs.Prelude.{◌≡◌};
ghost use Rattle.tree_model.specs.Refusal.{number_of};

use vol_numbers::BlockNo;

/// Why a command is refused: by its text, by the tree, for want of space or memory, or by the device.
#[derive(Clone, Copy, Debug, PartialEq, Eq)]
pub enum Refusal {
    BadCommand,
    BadName,
    NotFound,
    NotADirectory,
    IsADirectory,
    Exists,
    RootFixed,
    Inside,
    NotEmpty,
    TooBig,
    NoNumbers,
    NoSpace { free: u32, need: u32 },
    DeviceFault,
    Damaged(BlockNo),
    OutOfMemory,
}

impl Refusal {
    /// The number that a reply gives it, from 1 to 15.
    pub fn number(&self) -> u32
        ensures { result ≡ number_of self.now }
    {
        match self {
            Refusal::BadCommand => 1,
            Refusal::BadName => 2,
            Refusal::NotFound => 3,
            Refusal::NotADirectory => 4,
            Refusal::IsADirectory => 5,
            Refusal::Exists => 6,
            Refusal::RootFixed => 7,
            Refusal::Inside => 8,
            Refusal::NotEmpty => 9,
            Refusal::TooBig => 10,
            Refusal::NoNumbers => 11,
            Refusal::NoSpace { .. } => 12,
            Refusal::DeviceFault => 13,
            Refusal::Damaged(_) => 14,
            Refusal::OutOfMemory => 15,
        }
    }
}
