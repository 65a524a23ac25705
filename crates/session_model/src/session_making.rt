//! How sessions are made.
ghost use Rattle.session_model.specs.SessionMaking.{SessionLast, SessionTold, SessionThen, ServedRuns, ServedIsReached, OpeningThen};
ghost use Rattle.session_model.specs.Follows.{seen_of};

use disk_model::Disk;

/// A session of one item whose answer isn't put whole, or of none.
pub fn session_last<D: Disk>(old: &D, new: &D)
    ensures { SessionLast D.tells (seen_of (D.state old.now) (D.past old.now) (D.faults old.now)) (seen_of (D.state new.now) (D.past new.now) (D.faults new.now)) }
{}

/// A session of one item whose answer is put.
pub fn session_told<D: Disk>(old: &D, new: &D)
    ensures { SessionTold D.tells (seen_of (D.state old.now) (D.past old.now) (D.faults old.now)) (seen_of (D.state new.now) (D.past new.now) (D.faults new.now)) }
{}

/// Two sessions one behind the other are one.
pub fn session_then<D: Disk>(old: &D, mid: &D, new: &D)
    ensures { SessionThen D.tells (seen_of (D.state old.now) (D.past old.now) (D.faults old.now)) (seen_of (D.state mid.now) (D.past mid.now) (D.faults mid.now)) (seen_of (D.state new.now) (D.past new.now) (D.faults new.now)) }
{}

/// A session that was served is a run.
pub fn served_runs<D: Disk>(old: &D, new: &D)
    ensures { ServedRuns D.tells (seen_of (D.state old.now) (D.past old.now) (D.faults old.now)) (seen_of (D.state new.now) (D.past new.now) (D.faults new.now)) }
{}

/// The state in which a session that was served begins is one that is reached.
pub fn served_is_reached<D: Disk>(old: &D, new: &D)
    ensures { ServedIsReached D.tells (seen_of (D.state old.now) (D.past old.now) (D.faults old.now)) (seen_of (D.state new.now) (D.past new.now) (D.faults new.now)) }
{}

/// What an opening adds to the moments, and a session behind it.
pub fn opening_then<D: Disk>(old: &D, mid: &D, new: &D)
    ensures { OpeningThen (D.state old.now) (D.past old.now) (D.past mid.now) (D.past new.now) }
{}
