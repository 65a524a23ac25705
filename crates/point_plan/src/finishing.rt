//! What memory is given once nothing can fail any more.
ghost use Rattle.std.specs.Prelude.{◌≡◌, ◌+◌, ◌^◌, ◌%◌, ℕ, true, is_some, length};
ghost use Rattle.block_format.specs.Root.{HasGeometry, root_of};
ghost use Rattle.count_pairs.specs.Homes.{Blocks};
ghost use Rattle.count_pairs.specs.Table.{IsKept};
ghost use Rattle.held_list.specs.Held.{slots_at};
ghost use Rattle.point_plan.specs.Directories.{finished};
ghost use Rattle.point_plan.specs.Nodes.{Ascend, planned_of};
ghost use Rattle.point_plan.specs.PutTogether.{AreCountsRenewed, IsRootAfter, made_plan};

use crate::counting::count_pointers;
use crate::directories::finish_directories;
use crate::gathering::Gathered;
use crate::{Plan, PointState};
use block_format::RootBody;
use block_tree::Rewritten;
use held_list::HeldList;
use tree_model::Report;
use vol_numbers::BlockNo;

/// Gives memory the counts, the directories and the metadata of after the point, of which it has the inodes already. The report's number of free blocks is
/// for the caller to set, once it is known.
pub(crate) fn finish(
    state: &mut PointState,
    gathered: Gathered,
    fresh: &mut HeldList,
    rewritten: Rewritten,
    metadata: u32,
) -> Plan
    requires ascend { Ascend 1 gathered.nodes }
    requires there { (n : ℕ) → is_some (slots_at fresh.old n) ≡ true → is_some (slots_at state.old.directories n) ≡ true }
    requires grammar { HasGeometry (root_of state.old.current.body) }
    ensures plan { result ≡ made_plan gathered rewritten result.root 0 }
    ensures root { IsRootAfter state.old.current.body rewritten.root.ptr result.root }
    ensures counts { AreCountsRenewed state.old.counts.counts state.new.counts.counts gathered rewritten }
    ensures touched { length state.new.counts.touched ≡ length state.old.counts.touched }
    ensures kept { (read : Blocks) (homes : _) → IsKept read homes state.old.counts → IsKept read homes state.new.counts }
    ensures directories { (n : ℕ) → slots_at state.new.directories n ≡ finished (planned_of gathered.nodes n) (slots_at fresh.old n) (slots_at state.old.directories n) }
    ensures rest { state.new ≡ record state.old { counts = state.new.counts; directories = state.new.directories; metadata = metadata } }
{
    count_pointers(&mut state.counts, gathered.nodes.as_slice(), &rewritten);
    finish_directories(&mut state.directories, fresh, gathered.nodes.as_slice());
    state.metadata = metadata;
    let root = next_root(&state.current.body, rewritten.root.ptr);
    let report = Report {
        number: root.point,
        fresh: gathered.dirty,
        shared: 0,
        free: 0,
        lines: gathered.lines,
    };
    Plan {
        nodes: gathered.nodes,
        inode_pages: rewritten.pages,
        report,
        root,
    }
}

/// The root of the next point, with the homes of the old one.
fn next_root(body: &RootBody, inode_index: BlockNo) -> RootBody
    requires { HasGeometry (root_of body.now) }
    ensures { IsRootAfter body.now inode_index result }
{
    RootBody {
        geometry: body.geometry,
        point: body.point.wrapping_add(1),
        inode_index,
        records: 0,
        log_used: 0,
        homes: body.homes,
    }
}
