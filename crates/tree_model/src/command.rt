//! The commands.
ghost use Rattle.std.specs.Prelude.{◌≡◌, ◌≤◌, ◌↔◌, IsOk, IfOk, length};
ghost use Rattle.tree_model.specs.Step.{is_plain, is_change};

use crate::Path;
use std::marker::Model;
use vol_numbers::ByteList;

/// How many bytes one command may write or read.
pub const MOST_BYTES: usize = 65_536;

/// The bytes of one write, at most 65,536.
#[derive(Drop)]
pub struct Payload {
    bytes: ByteList,
}

impl Model for Payload {
    ghost use Rattle.std.specs.Prelude.{ℕ, List, ◌≤◌, length};

    ghost Value = { List ℕ };

    ghost view = { λ p. p.bytes };

    ghost invariant = { λ p. length p.bytes ≤ 65536 };
}

/// More bytes than one command may write or read.
#[derive(Clone, Copy, Debug, PartialEq, Eq)]
pub struct TooLong;

impl Payload {
    /// Refused exactly where there are more than 65,536.
    pub fn new(bytes: ByteList) -> Result<Payload, TooLong>
        ensures valid { IsOk result ↔ (length bytes ≤ 65536) }
        ensures value { IfOk result (λ payload. payload ≡ bytes) }
    {
        if bytes.len() > MOST_BYTES {
            return Err(TooLong);
        }
        Ok(Payload { bytes })
    }

    pub fn as_slice(&self) -> &[u8]
        ensures is { result.now ≡ self.now }
        ensures at_most { length self.now ≤ 65536 }
    {
        self.bytes.as_slice()
    }
}

/// How many bytes a read asks for, at most 65,536.
#[derive(Clone, Copy, Debug, PartialEq, Eq)]
pub struct ReadLength {
    bytes: u32,
}

impl Model for ReadLength {
    ghost use Rattle.std.specs.Prelude.{ℕ, ◌≤◌};

    ghost Value = { ℕ };

    ghost view = { λ l. l.bytes };

    ghost invariant = { λ l. l.bytes ≤ 65536 };

    ghost inverse = { λ n. record { bytes = n } };
}

impl ReadLength {
    /// Refused exactly above 65,536.
    pub fn new(bytes: u32) -> Result<ReadLength, TooLong>
        ensures valid { IsOk result ↔ (bytes ≤ 65536) }
        ensures value { IfOk result (λ length. length ≡ bytes) }
    {
        if bytes as usize > MOST_BYTES {
            return Err(TooLong);
        }
        Ok(ReadLength { bytes })
    }

    pub fn get(&self) -> u32
        ensures is { result ≡ self.now }
        ensures at_most { self.now ≤ 65536 }
    {
        self.bytes
    }
}

/// What a client asks for.
#[derive(Drop)]
pub enum Command {
    Mkdir {
        path: Path,
    },
    Create {
        path: Path,
    },
    Write {
        path: Path,
        offset: u64,
        bytes: Payload,
    },
    Truncate {
        path: Path,
        size: u64,
    },
    Remove {
        path: Path,
    },
    Rename {
        from: Path,
        to: Path,
    },
    Read {
        path: Path,
        offset: u64,
        length: ReadLength,
    },
    List {
        path: Path,
    },
    Stat {
        path: Path,
    },
    Layout {
        path: Path,
    },
    Space,
    Checkpoint,
    End,
}

impl Command {
    /// Whether it is of the tree alone, and not of its blocks, of space or of points.
    pub fn is_plain(&self) -> bool
        ensures { result ≡ is_plain self.now }
    {
        !matches!(
            self,
            Command::Layout { .. } | Command::Space | Command::Checkpoint | Command::End
        )
    }

    /// Whether it may change the tree. A write of no bytes doesn't.
    pub fn is_change(&self) -> bool
        ensures { result ≡ is_change self.now }
    {
        match self {
            Command::Write { bytes, .. } => !bytes.as_slice().is_empty(),
            Command::Mkdir { .. } | Command::Create { .. } | Command::Truncate { .. } => true,
            Command::Remove { .. } | Command::Rename { .. } => true,
            _ => false,
        }
    }
}
