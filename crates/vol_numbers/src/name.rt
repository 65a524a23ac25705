//! Names of files and directories.
ghost use Rattle.std.specs.Prelude.{◌≡◌, ◌↔◌, ◌≤◌, length, IsTrue, IsOk, IfOk};
ghost use Rattle.vol_numbers.specs.Name.{IsName, padded};

use std::marker::Model;
use thiserror::Error;

/// A name: from 1 to 250 bytes, none of them 0 or `/`, and neither `.` nor `..`.
#[derive(Clone, Copy, Debug, PartialEq, Eq)]
pub struct Name {
    len: u8,
    bytes: [u8; 250],
}

/// The bytes are no name.
#[derive(Clone, Copy, Debug, PartialEq, Eq, Error)]
#[error("a name has 1 to 250 bytes, none of them 0 or a slash, and is neither `.` nor `..`")]
pub struct BadName;

impl Model for Name {
    ghost use Rattle.std.specs.Prelude.{◌≡◌, ◌≤◌, List, ℕ, length, take};
    ghost use Rattle.std.proofs.Common.{sym, length-take-le};
    ghost use Rattle.vol_numbers.specs.Name.{IsName, padded};

    ghost Value = { List ℕ };

    ghost view = { λ n. take n.len n.bytes };

    ghost invariant = { λ n. IsName (take n.len n.bytes) × (n.len ≤ length n.bytes) × (n.bytes ≡ padded (take n.len n.bytes)) };

    ghost inverse = { λ v. record { len = length v; bytes = padded v } };

    ghost inverse_ok = { λ n h i. record {
      len = length-take-le n.len n.bytes h.1 i;
      bytes = sym h.2 i;
    } };
}

impl Name {
    /// Refused exactly where the bytes are no name.
    pub fn new(bytes: &[u8]) -> Result<Name, BadName>
        ensures valid { IsOk result ↔ IsName bytes.now }
        ensures value { IfOk result (λ name. name ≡ bytes.now) }
    {
        if !is_name(bytes) {
            return Err(BadName);
        }
        Ok(Name {
            len: bytes.len() as u8,
            bytes: filled_up(bytes),
        })
    }

    pub fn as_bytes(&self) -> &[u8]
        ensures is { result.now ≡ self.now }
        ensures name { IsName self.now }
    {
        &self.bytes[..self.len as usize]
    }

    /// The bytes, filled up with zeros.
    pub fn padded(&self) -> [u8; 250]
        ensures is { result ≡ padded self.now }
        ensures name { IsName self.now }
    {
        self.bytes
    }
}

fn is_name(bytes: &[u8]) -> bool
    ensures { IsTrue result ↔ IsName bytes.now }
{
    !bytes.is_empty()
        && bytes.len() <= 250
        && bytes.iter().all(|b| *b != 0 && *b != b'/')
        && bytes != b".".as_slice()
        && bytes != b"..".as_slice()
}

fn filled_up(bytes: &[u8]) -> [u8; 250]
    requires { length bytes.now ≤ 250 }
    ensures { result ≡ padded bytes.now }
{
    let mut all = [0; 250];
    all[..bytes.len()].copy_from_slice(bytes);
    all
}
