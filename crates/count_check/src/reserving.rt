//! Whether enough blocks are free.
ghost use Rattle.std.specs.Prelude.{◌≡◌, ℕ, List};
ghost use Rattle.vol_numbers.specs.Layout.{Layout};
ghost use Rattle.image_model.specs.Findings.{free_in, reserve_finding};

use image_model::Finding;

/// How many blocks have to be free at least: what a consistency point needs beside what its commands were charged.
const RESERVE: u32 = 16;

/// That fewer blocks are free than have to be, if that is so.
pub fn reserve(free: u32) -> Option<Finding>
    ensures { (g : Layout) (kept : List ℕ) → free ≡ free_in g kept → result ≡ reserve_finding g kept }
{
    if free < RESERVE {
        return Some(Finding::NoReserve(free));
    }
    None
}
