//! The trait of a medium: named images, one of which is open as a disk.
ghost use Rattle.std.specs.Prelude.{◌≡◌, ◌≢◌, ◌⊎◌, ℕ, List, None, Some, IfSome, OnOk, IsTrue, IsErrOf};
ghost use Rattle.vol_numbers.specs.Cause.{raised};
ghost use Rattle.disk_model.specs.Disk.{blank};
ghost use Rattle.disk_model.specs.Past.{Adds};
ghost use Rattle.disk_model.specs.Media.{image_named};
ghost use Rattle.disk_model.specs.declared.media.OpenFault.TheVariants.{Failed};

use crate::Disk;
use thiserror::Error;

/// Why an image could not be opened.
#[derive(Clone, Copy, Debug, PartialEq, Eq, Error)]
pub enum OpenFault {
    #[error("the image could not be opened")]
    Failed,
    #[error("out of memory")]
    OutOfMemory,
}

/// Named images. The calls of `Disk` speak of the image that was opened last.
pub trait Media: Disk {
    /// Opens an image. With a number of blocks it makes or replaces the image of that name with so many zero blocks; without, it opens
    /// the image that is there, and an absent name is a fault.
    fn open(&mut self, name: &str, blocks: Option<u32>) -> Result<(), OpenFault>
        ensures named { OnOk result (IsTrue Self.tells → (Self.fixed self.new).current ≡ Some name.now) }
        ensures found { OnOk result (IsTrue Self.tells → blocks ≡ None → image_named (Self.fixed self.old) (Self.state self.old) name.now ≡ Some (Self.state self.new)) }
        ensures made { OnOk result (IfSome blocks (λ n. IsTrue Self.tells → Self.state self.new ≡ blank n)) }
        ensures size { OnOk result (IfSome blocks (λ n. (Self.fixed self.new).size ≡ n)) }
        // After a fault there is no image with blocks, or as many blocks as before. Where memory was wanting it isn't said: a disk that the
        // image is made of may have been opened by then.
        ensures size_err { IsErrOf result Failed → ((Self.fixed self.new).size ≡ (Self.fixed self.old).size) ⊎ ((Self.fixed self.new).size ≡ 0) }
        // Only the named image changes, and it only by a number.
        ensures others { IsTrue Self.tells → (other : List ℕ) → (other ≢ name.now) ⊎ (blocks ≡ None)
            → image_named (Self.fixed self.new) (Self.state self.new) other ≡ image_named (Self.fixed self.old) (Self.state self.old) other }
        // The only moment that is added is the one after the call.
        ensures moments { Adds (Self.past self.old) (Self.past self.new) (λ s. s ≡ Self.state self.new) }
        ensures given { Self.given self.new ≡ Self.given self.old }
        // It fails only where it counts a fault, and counts none otherwise.
        ensures failed { IsErrOf result Failed → Self.faults self.new ≡ raised (Self.faults self.old) }
        ensures kept { ¬ IsErrOf result Failed → Self.faults self.new ≡ Self.faults self.old };
}
