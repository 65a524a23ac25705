//! A volume on a disk in memory, and what memory has of it.
ghost use Rattle.std.specs.Prelude.{IfOk, IfSome};
ghost use Rattle.dirty_store.specs.Overlay.{IsEffect};
ghost use Rattle.point_plan.specs.State.{IsOfSize};

use crate::acts::{Act, Fresh, Told, effect_of, row_of};
use crate::picture::{Put, image};
use crate::{Quiet, fresh_state, staged};
use consistency_point::{PointState, take};
use dirty_store::Effect;
use disk_model::Disk;
use fs_check::check;
use mem_disk::MemDisk;
use std::alloc::Global;
use std::test::Fail;
use tree_model::{Line, LineKind, Report};
use vol_numbers::{Block, BlockNo};

/// Where acts are done to it, disk and memory are of one size.
#[derive(Drop)]
pub(crate) struct Volume {
    pub disk: Quiet,
    pub state: PointState,
}

/// The volume with nothing but its root directory that these parts draw.
pub(crate) fn opened(alloc: Global, blocks: u32, parts: &[&[Put]]) -> Result<Option<Volume>, Fail>
    ensures { IfOk result (λ o. IfSome o (λ v. IsOfSize (⟦<Quiet as Disk>⟧.fixed v.disk).size v.state)) }
{
    match image(alloc, blocks, parts)? {
        Some(mut disk) => match disk.sync() {
            Ok(()) => Ok(volume_on(alloc, disk)),
            Err(_) => Ok(None),
        },
        None => Ok(None),
    }
}

fn volume_on(alloc: Global, disk: MemDisk) -> Option<Volume>
    ensures { IfSome result (λ v. IsOfSize (⟦<Quiet as Disk>⟧.fixed v.disk).size v.state) }
{
    let mut disk = Quiet { disk };
    match fresh_state(alloc, &mut disk) {
        Some(state) => Some(Volume { disk, state }),
        None => None,
    }
}

/// The volume after an act. None where a point reports something else, or where the act can't be done.
pub(crate) fn done(alloc: Global, volume: Volume, act: &Act) -> Option<Volume>
    requires { IsOfSize (⟦<Quiet as Disk>⟧.fixed volume.disk).size volume.state }
    ensures { IfSome result (λ v. IsOfSize (⟦<Quiet as Disk>⟧.fixed v.disk).size v.state) }
{
    match *act {
        Act::Point(told) => pointed(alloc, volume, &told),
        _ => with_staged(alloc, volume, act),
    }
}

/// The effect of an act that is no point.
fn effect_for(alloc: Global, act: &Act) -> Option<Effect>
    ensures { IfSome result IsEffect }
{
    let row = row_of(act)?;
    match effect_of(alloc, &row) {
        Ok(effect) => Some(effect),
        Err(_) => None,
    }
}

fn with_effect(alloc: Global, volume: Volume, effect: Effect) -> Option<Volume>
    requires size { IsOfSize (⟦<Quiet as Disk>⟧.fixed volume.disk).size volume.state }
    requires effect { IsEffect effect }
    ensures { IfSome result (λ v. IsOfSize (⟦<Quiet as Disk>⟧.fixed v.disk).size v.state) }
{
    let Volume { disk, state } = volume;
    match staged(alloc, state, effect) {
        Some(state) => Some(Volume { disk, state }),
        None => None,
    }
}

fn with_staged(alloc: Global, volume: Volume, act: &Act) -> Option<Volume>
    requires { IsOfSize (⟦<Quiet as Disk>⟧.fixed volume.disk).size volume.state }
    ensures { IfSome result (λ v. IsOfSize (⟦<Quiet as Disk>⟧.fixed v.disk).size v.state) }
{
    match effect_for(alloc, act) {
        Some(effect) => with_effect(alloc, volume, effect),
        None => None,
    }
}

fn pointed(alloc: Global, volume: Volume, told: &Told) -> Option<Volume>
    requires { IsOfSize (⟦<Quiet as Disk>⟧.fixed volume.disk).size volume.state }
    ensures { IfSome result (λ v. IsOfSize (⟦<Quiet as Disk>⟧.fixed v.disk).size v.state) }
{
    let Volume {
        mut disk,
        mut state,
    } = volume;
    match take(alloc, &mut disk, &mut state) {
        Ok(report) if is_told(&report, told) => Some(Volume { disk, state }),
        _ => None,
    }
}

/// The volume after these acts, each in its turn.
pub(crate) fn all_done(
    alloc: Global,
    blocks: u32,
    parts: &[&[Put]],
    acts: &[Act],
) -> Result<Option<Volume>, Fail>
    ensures { IfOk result (λ o. IfSome o (λ v. IsOfSize (⟦<Quiet as Disk>⟧.fixed v.disk).size v.state)) }
{
    let mut volume = match opened(alloc, blocks, parts)? {
        Some(volume) => volume,
        None => return Ok(None),
    };
    for act in acts {
        volume = match done(alloc, volume, act) {
            Some(next) => next,
            None => return Ok(None),
        };
    }
    Ok(Some(volume))
}

/// Whether a report is this one.
fn is_told(report: &Report, told: &Told) -> bool {
    report.number == told.0
        && report.fresh == told.1
        && report.shared == 0
        && report.free == told.2
        && are_lines(report.lines.as_slice(), told.3)
}

fn are_lines(lines: &[Line], told: &[Fresh]) -> bool {
    if lines.len() != told.len() {
        return false;
    }
    for (line, one) in lines.iter().zip(told) {
        if !is_line(line, one) {
            return false;
        }
    }
    true
}

fn is_line(line: &Line, told: &Fresh) -> bool {
    line.kind == LineKind::Fresh
        && line.number == told.0
        && line.place == told.1
        && line.length == told.2
        && line.block == told.3
}

/// A block, where the disk has it and gives it.
fn block_at(disk: &mut MemDisk, at: BlockNo) -> Option<Block> {
    if at >= disk.blocks() {
        return None;
    }
    let mut block = Block::zero();
    match disk.read_block(at, &mut block) {
        Ok(()) => Some(block),
        Err(_) => None,
    }
}

fn is_same_block(disk: &mut MemDisk, other: &mut MemDisk, at: BlockNo) -> bool {
    match (block_at(disk, at), block_at(other, at)) {
        (Some(block), Some(there)) => block == there,
        _ => false,
    }
}

/// The first block below a number in which two disks differ.
pub(crate) fn first_other(disk: &mut MemDisk, other: &mut MemDisk, blocks: u32) -> Option<BlockNo> {
    for at in 0..blocks {
        if !is_same_block(disk, other, at) {
            return Some(at);
        }
    }
    None
}

/// How a row comes out.
#[derive(Clone, Copy, Debug, PartialEq, Eq)]
pub(crate) enum Outcome {
    /// Each block that was drawn is as it was drawn, and the check of the volume answers so many nodes and free blocks.
    Good(u32, u32),
    /// The first block that isn't as it is drawn.
    Other(BlockNo),
    /// The check finds something, or fails.
    Bad,
    /// An act can't be done, a point reports something else, or the volume can't be drawn.
    NotDone,
}

fn compared_with(alloc: Global, disk: &mut MemDisk, drawn: &mut MemDisk, blocks: u32) -> Outcome {
    match first_other(disk, drawn, blocks) {
        Some(at) => Outcome::Other(at),
        None => found(alloc, disk),
    }
}

fn found(alloc: Global, disk: &mut MemDisk) -> Outcome {
    match check(alloc, disk) {
        Ok(summary) => Outcome::Good(summary.nodes, summary.free),
        Err(_) => Outcome::Bad,
    }
}

/// What the check answers of a volume's disk.
pub(crate) fn checked(alloc: Global, volume: Volume) -> Outcome {
    let Volume { mut disk, .. } = volume;
    found(alloc, &mut disk.disk)
}

fn compared(alloc: Global, volume: Volume, blocks: u32, parts: &[&[Put]]) -> Result<Outcome, Fail> {
    let Volume { mut disk, .. } = volume;
    match image(alloc, blocks, parts)? {
        Some(mut drawn) => Ok(compared_with(alloc, &mut disk.disk, &mut drawn, blocks)),
        None => Ok(Outcome::NotDone),
    }
}

/// How acts come out on a volume of so many blocks that the first parts draw: each block of the disk is compared with what all parts draw.
pub(crate) fn comes_out(
    alloc: Global,
    blocks: u32,
    before: &[&[Put]],
    acts: &[Act],
    after: &[&[Put]],
) -> Result<Outcome, Fail> {
    match all_done(alloc, blocks, before, acts)? {
        Some(volume) => compared(alloc, volume, blocks, after),
        None => Ok(Outcome::NotDone),
    }
}
