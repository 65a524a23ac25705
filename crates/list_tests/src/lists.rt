//! Directories in memory by their numbers.
use dir_slots::Directory;
use held_list::HeldList;
use std::alloc::Global;
use std::test::Fail;
use vol_numbers::{InoNo, Name, PageList};

/// A directory with an entry of this number under the name `n`.
fn directory(alloc: Global, number: InoNo) -> Result<Directory, Fail> {
    let name = Name::new(b"n")?;
    let mut slots = Directory::read(alloc, &PageList::new(alloc), 0)?;
    if slots.slot_of(&name).is_none()
        && slots.first_unused() < 65_534
        && number >= 1
        && number <= 65_535
    {
        slots.add(&name, number)?;
    }
    Ok(slots)
}

/// The number that the directory of a number has under the name.
fn named(held: &HeldList, number: InoNo) -> Option<InoNo> {
    let name = Name::new(b"n").ok()?;
    held.get(number)?.find(&name)
}

/// The numbers under which directories are put, one after the other, and the numbers of their entries.
const PUT: &[(InoNo, InoNo)] = &[(5, 50), (2, 20), (9, 90), (5, 51)];

/// Puts a directory with an entry of this number under a number.
fn put(alloc: Global, held: &mut HeldList, under: InoNo, number: InoNo) -> Result<(), Fail> {
    let slots = directory(alloc, number)?;
    held.insert(under, slots)?;
    Ok(())
}

/// The directories that are put.
fn filled(alloc: Global) -> Result<HeldList, Fail> {
    let mut held = HeldList::new(alloc);
    for row in PUT {
        put(alloc, &mut held, row.0, row.1)?;
    }
    Ok(held)
}

/// A number, and what is named in its directory.
const HELD: &[(InoNo, Option<InoNo>)] = &[
    (0, None),
    (2, Some(20)),
    (3, None),
    (5, Some(51)),
    (9, Some(90)),
    (10, None),
];

fn are_held(held: &HeldList) -> bool {
    for row in HELD {
        if named(held, row.0) != row.1 {
            return false;
        }
    }
    held.len() == 3
}

/// Takes the directory of number 5 away, and says whether that was given and the others stay.
fn is_removed(held: &mut HeldList) -> bool {
    if held.remove(7).is_some() || held.remove(5).is_none() {
        return false;
    }
    named(held, 5).is_none() && named(held, 2) == Some(20) && held.len() == 2
}

/// Takes the name out of the directory of number 9.
fn is_changed(held: &mut HeldList) -> bool {
    let Ok(name) = Name::new(b"n") else {
        return false;
    };
    let given = match held.get_mut(9) {
        Some(slots) => slots.remove(&name),
        None => None,
    };
    given == Some(90) && named(held, 9).is_none() && named(held, 2) == Some(20)
}

fn holds(alloc: Global) -> Result<bool, Fail> {
    let mut held = filled(alloc)?;
    Ok(are_held(&held) && is_removed(&mut held) && is_changed(&mut held))
}

#[test]
fn directories_are_held(rt: HostRuntime) -> Result<(), Fail> {
    assert!(rt; holds(rt.alloc())?);
    Ok(())
}

/// A copy has the same entries, and a change of it leaves the other.
fn is_copied(alloc: Global) -> Result<bool, Fail> {
    let name = Name::new(b"n")?;
    let slots = directory(alloc, 4)?;
    let mut copy = slots.clone()?;
    Ok(copy.remove(&name) == Some(4) && slots.find(&name) == Some(4) && copy.width() == 1)
}

#[test]
fn a_directory_is_copied(rt: HostRuntime) -> Result<(), Fail> {
    assert!(rt; is_copied(rt.alloc())?);
    Ok(())
}

/// Pushes directories with rising numbers.
fn is_pushed(alloc: Global) -> Result<bool, Fail> {
    let mut held = HeldList::new(alloc);
    let first = directory(alloc, 20)?;
    held.push(2, first)?;
    Ok(named(&held, 2) == Some(20) && held.as_slice().len() == 1)
}

#[test]
fn a_directory_is_pushed(rt: HostRuntime) -> Result<(), Fail> {
    assert!(rt; is_pushed(rt.alloc())?);
    Ok(())
}
