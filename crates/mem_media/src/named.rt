//! The images of a medium in memory that are not open, each a disk with its name.
ghost use Rattle.std.specs.Prelude.{◌≡◌, ◌≢◌, ◌<◌, ◌≤◌, ℕ, List, [], ◌∷◌, bytes_eq, string_bytes, vec_len, vec_capacity, Option, Some, None, option_map, if◌then◌else◌, OnOk, OnErr};
ghost use Rattle.std.specs.List.{position};
ghost use Rattle.disk_model.specs.Media.{is_name_of};
ghost use Rattle.mem_disk.specs.Told.{state_of};
ghost use Rattle.mem_media.specs.Named.{find_named};
ghost use Rattle.mem_media.specs.declared.named.Named.{Named};

use mem_disk::MemDisk;
use std::alloc::{AllocError, Global};

/// A disk with its name.
#[derive(Drop)]
pub(crate) struct Named {
    pub(crate) name: String,
    pub(crate) disk: MemDisk,
}

/// Whether the name is this one.
pub(crate) fn is_name(own: &Option<String>, name: &str) -> bool
    ensures { result ≡ is_name_of (option_map string_bytes own.now) name.now }
{
    match own {
        Some(own) => own.as_str() == name,
        None => false,
    }
}

/// Where the first image of that name stands.
pub(crate) fn place(images: &[Named], name: &str) -> Option<usize>
    ensures { result ≡ position (λ (n : Named). bytes_eq (string_bytes n.name) name.now) images.now }
{
    images.iter().position(|image| image.name.as_str() == name)
}

/// Takes the first image of that name out.
fn take_out(images: &mut Vec<Named>, name: &str) -> Option<MemDisk>
    ensures found { option_map state_of result ≡ find_named images.old.items name.now }
    ensures others { (other : List ℕ) → other ≢ name.now → find_named images.new.items other ≡ find_named images.old.items other }
    ensures room { vec_len images.new ≤ vec_len images.old }
    ensures capacity { vec_capacity images.new ≡ vec_capacity images.old }
{
    let i = place(images, name)?;
    let Named { name: _, disk } = images.remove(i);
    Some(disk)
}

/// Puts a disk that is closed before the others, which have room for it. One with no name is dropped.
fn put_back(images: &mut Vec<Named>, name: Option<String>, disk: MemDisk)
    requires { vec_len images.old < vec_capacity images.old }
    ensures { (other : List ℕ) → find_named images.new.items other
        ≡ (if is_name_of (option_map string_bytes name) other then Some (state_of disk) else find_named images.old.items other) }
{
    if let Some(name) = name {
        let _ = images.insert(0, Named { name, disk });
    }
}

/// Puts a disk that is closed among the others, and takes out the one that is opened in its place.
pub(crate) fn change_over(
    images: &mut Vec<Named>,
    closed: Option<String>,
    disk: MemDisk,
    name: &str,
) -> Option<MemDisk>
    requires { vec_len images.old < vec_capacity images.old }
    ensures found { option_map state_of result
        ≡ (if is_name_of (option_map string_bytes closed) name.now then Some (state_of disk) else find_named images.old.items name.now) }
    ensures others { (other : List ℕ) → other ≢ name.now → find_named images.new.items other
        ≡ (if is_name_of (option_map string_bytes closed) other then Some (state_of disk) else find_named images.old.items other) }
{
    put_back(images, closed, disk);
    take_out(images, name)
}

/// Adds an image before the others, or drops it where there is no memory.
pub(crate) fn add(
    alloc: Global,
    images: &mut Vec<Named>,
    name: &str,
    disk: MemDisk,
) -> Result<(), AllocError>
    ensures added { OnOk result ((other : List ℕ) → find_named images.new.items other
        ≡ (if bytes_eq name.now other then Some (state_of disk) else find_named images.old.items other)) }
    ensures err { OnErr result (images.new.items ≡ images.old.items) }
{
    images.reserve(1)?;
    let own = String::from_str(alloc, name)?;
    put_back(images, Some(own), disk);
    Ok(())
}
