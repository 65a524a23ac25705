//! The image `v`: its blocks are shown and changed, its calls are planned, and its power is cut.
use crate::ends::one_call;
use crate::texts::{byte, number};
use disk_model::{Disk, Media, Pick};
use mem_disk::MemDisk;
use mem_media::MemMedia;
use std::alloc::{AllocError, Global};
use vol_numbers::{Block, BlockNo};

/// What a write that fails leaves in each byte of its block. A selector of this byte names slot 1.
const JUNK: u8 = 7;

/// A power cut changes open blocks below this number. No row has another one open.
const CUT_BELOW: BlockNo = 32;

/// Adds the image, of so many blocks of zeros.
pub(crate) fn add(alloc: Global, media: &mut MemMedia, blocks: u32) -> Result<(), AllocError> {
    let disk = MemDisk::new(alloc, blocks)?;
    media.add("v", disk)
}

/// Changes a byte, plans the device's calls, or cuts the power. Plans hold for the next call of the server.
pub(crate) fn change(
    alloc: Global,
    media: &mut MemMedia,
    words: &[&str],
) -> Result<(), AllocError> {
    match words {
        ["damage", at, place, value] => {
            damage(media, number(at), number(place) as usize, byte(value));
            Ok(())
        }
        ["device", call] => plan(alloc, media, Some(number(call) as u64), None),
        ["device", "from", call] => plan(alloc, media, None, Some(number(call) as u64)),
        ["cut"] => cut(alloc, media, None),
        ["cut", fill] => cut(alloc, media, Some(byte(fill))),
        _ => Ok(()),
    }
}

/// Opens the image, and gives this block of it.
fn block_at(media: &mut MemMedia, at: BlockNo) -> Option<Block> {
    media.open("v", None).ok()?;
    if at >= media.blocks() {
        return None;
    }
    let mut block = Block::zero();
    media.read_block(at, &mut block).ok()?;
    Some(block)
}

/// Changes one byte of a block. Nothing changes where there is no such byte.
fn damage(media: &mut MemMedia, at: BlockNo, byte: usize, value: u8) {
    let Some(found) = block_at(media, at) else {
        return;
    };
    let mut block = found;
    if byte < 4_096 && at < media.blocks() {
        block.bytes[byte] = value;
        let _ = media.write_block(at, &block);
    }
}

/// Each 16 bytes of a block that aren't zero, in a line of their own: the block, the place in it, and the bytes.
pub(crate) fn show(
    alloc: Global,
    media: &mut MemMedia,
    at: BlockNo,
) -> Result<Vec<u8>, AllocError> {
    let mut text = Vec::new(alloc);
    let Some(block) = block_at(media, at) else {
        return Ok(text);
    };
    for (i, row) in block.bytes.chunks(16).enumerate() {
        show_row(alloc, &mut text, (at, i), row)?;
    }
    Ok(text)
}

fn show_row(
    alloc: Global,
    text: &mut Vec<u8>,
    place: (BlockNo, usize),
    row: &[u8],
) -> Result<(), AllocError> {
    if row.iter().all(|byte| *byte == 0) {
        return Ok(());
    }
    let bytes = hex::encode(alloc, row)?;
    let line = format!(in alloc; "block {} row {}: {}\n", place.0, place.1, bytes)?;
    text.extend_from_slice(line.as_bytes())
}

/// The call of this number fails, or all from one on.
pub(crate) fn plan(
    alloc: Global,
    media: &mut MemMedia,
    one: Option<u64>,
    from: Option<u64>,
) -> Result<(), AllocError> {
    let fails = one_call(alloc, one)?;
    if let Some(disk) = media.disk("v") {
        disk.plan(fails, from, JUNK);
    }
    Ok(())
}

/// Cuts the power. Each block that is open is filled with the byte, or is as it was last written.
fn cut(alloc: Global, media: &mut MemMedia, fill: Option<u8>) -> Result<(), AllocError> {
    let mut picks = Vec::new(alloc);
    if let Some(disk) = media.disk("v") {
        if let Some(byte) = fill {
            fill_open(&mut picks, disk, byte)?;
        }
        let _ = disk.cut(&picks);
    }
    Ok(())
}

/// Picks this byte for each open block.
fn fill_open(picks: &mut Vec<Pick>, disk: &MemDisk, byte: u8) -> Result<(), AllocError> {
    let block = Block::filled(byte);
    for at in 0..CUT_BELOW {
        if disk.is_open(at) {
            picks.push(Pick { at, block })?;
        }
    }
    Ok(())
}
