//! How courses are made.
ghost use Rattle.session_model.specs.Making.{NoCourse, OneLast, OneTold, OneRefused, Joined, OneMore};
ghost use Rattle.session_model.specs.Follows.{seen_of};

use disk_model::Disk;

/// Where nothing is read nothing is done.
pub fn no_course<D: Disk>(disk: &D)
    ensures { NoCourse D.tells (seen_of (D.state disk.now) (D.past disk.now) (D.faults disk.now)) }
{}

/// What a volume does at an item is a course, whose answer isn't told or which stops there.
pub fn one_last<D: Disk>(old: &D, new: &D)
    ensures { OneLast D.tells (seen_of (D.state old.now) (D.past old.now) (D.faults old.now)) (seen_of (D.state new.now) (D.past new.now) (D.faults new.now)) }
{}

/// What a volume does at an item is a course, whose answer is told.
pub fn one_told<D: Disk>(old: &D, new: &D)
    ensures { OneTold D.tells (seen_of (D.state old.now) (D.past old.now) (D.faults old.now)) (seen_of (D.state new.now) (D.past new.now) (D.faults new.now)) }
{}

/// A line that is no command is answered with nothing done.
pub fn one_refused<D: Disk>(disk: &D)
    ensures { OneRefused D.tells (seen_of (D.state disk.now) (D.past disk.now) (D.faults disk.now)) }
{}

/// Two courses one behind the other are one.
pub fn joined<D: Disk>(old: &D, mid: &D, new: &D)
    ensures { Joined D.tells (seen_of (D.state old.now) (D.past old.now) (D.faults old.now)) (seen_of (D.state mid.now) (D.past mid.now) (D.faults mid.now)) (seen_of (D.state new.now) (D.past new.now) (D.faults new.now)) }
{}

/// A course and one exchange more is a course.
pub fn one_more<D: Disk>(old: &D, mid: &D, new: &D)
    ensures { OneMore D.tells (seen_of (D.state old.now) (D.past old.now) (D.faults old.now)) (seen_of (D.state mid.now) (D.past mid.now) (D.faults mid.now)) (seen_of (D.state new.now) (D.past new.now) (D.faults new.now)) }
{}
