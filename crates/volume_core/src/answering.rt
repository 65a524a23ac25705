//! Answers every command but `layout`.
ghost use Rattle.std.specs.Prelude.{◌≡◌, ◌↔◌, true, false, IsOk, IsErrOf, IfOk, IsTrue};
ghost use Rattle.disk_model.specs.Past.{Adds};
ghost use Rattle.session_model.specs.Course.{next_by};
ghost use Rattle.session_model.specs.Follows.{seen_of};
ghost use Rattle.volume_model.specs.Machine.{Machine, Rules};
ghost use Rattle.volume_core.specs.Answers.{Applied, IsBuilt, exchange, told_by};
ghost use Rattle.volume_core.specs.Memory.{IsFitting, IsIn, IsInSome};
ghost use Rattle.volume_core.specs.declared.given.Stopped.TheVariants.{Before};

use crate::Volume;
use crate::given::{Begun, Given, Stopped};
use disk_model::Disk;
use std::alloc::Global;
use tree_model::{Answer, Command};

impl Volume {
    /// Answers a command: first the point is taken that is due before it, if one is. A change that is answered as done is in the log of the disk.
    ///
    /// # Errors
    ///
    /// A write or a sync failed, now or before. After a failure the volume does nothing any more, and only a mount can say what of the command was
    /// done. Want of memory and a failed read are answers, and leave all as it was but for the point that is reported.
    pub fn apply<D: Disk>(
        &mut self,
        alloc: Global,
        disk: &mut D,
        command: &Command,
    ) -> Result<Given, Stopped>
        requires built { IsBuilt command.now }
        requires fits { self.old.is_failed ≡ false → IsFitting (D.fixed disk.old).size self.old }
        requires held { self.old.is_failed ≡ false → IsTrue D.tells → IsInSome (D.state disk.old) self.old }
        // What a volume owes at a command: a legal answer, and images of the states before, after the point, and with the command done.
        ensures applied { self.old.is_failed ≡ false → (r : Rules) (m : Machine) → (IsTrue D.tells → IsIn r m (D.state disk.old) self.old)
            → Applied r D.tells m command.now result (seen_of (D.state disk.old) (D.past disk.old) (D.faults disk.old)) (seen_of (D.state disk.new) (D.past disk.new) (D.faults disk.new)) }
        // After an answer disk and memory hold the state that it leads to.
        ensures next { IfOk result (λ given. IsTrue D.tells → (r : Rules) (m : Machine) → IsIn r m (D.state disk.old) self.old
            → IsIn r (next_by r m (exchange command.now (told_by given))) (D.state disk.new) self.new) }
        ensures fits { self.new.is_failed ≡ false → IsFitting (D.fixed disk.new).size self.new }
        // A volume that has failed says so, without a call of the disk.
        ensures failed { IsOk result ↔ (self.new.is_failed ≡ false) }
        ensures before { IsErrOf result Before ↔ (self.old.is_failed ≡ true) }
        ensures uncalled { IsErrOf result Before → (disk.new ≡ disk.old) × (self.new ≡ self.old) }
        ensures fixed { D.fixed disk.new ≡ D.fixed disk.old }
    {
        if self.is_failed {
            return Err(Stopped::Before);
        }
        let report = match self.begin(alloc, disk, command)? {
            Begun::Ready(report) => report,
            Begun::Given(given) => return Ok(given),
        };
        let reply = self.reply(alloc, disk, command)?;
        Ok(Given::Answered(Answer { report, reply }))
    }
}
