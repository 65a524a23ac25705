//! What the words of a course mean, and what can't come of one.
ghost use Rattle.session_model.specs.CourseLaws.{NextIs, AcknowledgedFirst, ExitStands, StatesAreReached, ReadsKeep, StopIsCounted, FaultsAreExact, GivenAreTold};
ghost use Rattle.session_model.specs.Follows.{seen_of};

use disk_model::Disk;
use reply_text::none_begins_another;

/// The state after an exchange is the model's next one.
pub fn next_is()
    ensures { NextIs }
{}

/// What is acknowledged are the first of the accepted changes, and all but one at most.
pub fn acknowledged_first()
    ensures { AcknowledgedFirst }
{}

/// What a power cut leaves at the exit keeps what was acknowledged.
pub fn exit_stands()
    ensures { ExitStands }
{}

/// Each state in which an item is answered is reached from the start, and so is the last.
pub fn states_are_reached<D: Disk>(old: &D, new: &D)
    ensures { StatesAreReached D.tells (seen_of (D.state old.now) (D.past old.now) (D.faults old.now)) (seen_of (D.state new.now) (D.past new.now) (D.faults new.now)) }
{}

/// Where nothing is asked for but what is read, the disk stays as it is.
pub fn reads_keep<D: Disk>(old: &D, new: &D)
    ensures { ReadsKeep D.tells (seen_of (D.state old.now) (D.past old.now) (D.faults old.now)) (seen_of (D.state new.now) (D.past new.now) (D.faults new.now)) }
{}

/// A volume stops only where its device has failed once more.
pub fn stop_is_counted<D: Disk>(old: &D, new: &D)
    ensures { StopIsCounted D.tells (seen_of (D.state old.now) (D.past old.now) (D.faults old.now)) (seen_of (D.state new.now) (D.past new.now) (D.faults new.now)) }
{}

/// The device has failed exactly as often as the answers and a stop say.
pub fn faults_are_exact<D: Disk>(old: &D, new: &D)
    ensures { FaultsAreExact D.tells (seen_of (D.state old.now) (D.past old.now) (D.faults old.now)) (seen_of (D.state new.now) (D.past new.now) (D.faults new.now)) }
{}

/// The text of no answer begins another's.
pub fn given_are_told()
    ensures { GivenAreTold }
{
    none_begins_another();
}
