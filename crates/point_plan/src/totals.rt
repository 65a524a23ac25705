//! How many blocks of metadata planned nodes have.
ghost use Rattle.std.specs.Prelude.{◌≡◌, ◌<◌, ◌^◌};
ghost use Rattle.point_plan.specs.Gathered.{metadata_given, metadata_had};
ghost use Rattle.point_plan.specs.Nodes.{Ascend};

use crate::PlannedNode;

/// How many blocks of metadata planned nodes had, and how many they are going to have.
#[derive(Drop)]
pub(crate) struct Totals {
    pub had: u64,
    pub given: u64,
}

/// The sums over planned nodes.
pub(crate) fn totals_of(nodes: &[PlannedNode]) -> Totals
    requires { Ascend 1 nodes.now }
    ensures had { result.had ≡ metadata_had nodes.now }
    ensures given { result.given ≡ metadata_given nodes.now }
    ensures had_small { result.had < 2 ^ 50 }
    ensures given_small { result.given < 2 ^ 50 }
{
    let mut had = 0;
    let mut given = 0;
    for node in nodes {
        had += wide(node.metadata_before);
        given += wide(node.metadata);
    }
    Totals { had, given }
}

/// The same number.
pub(crate) fn wide(n: u32) -> u64
    ensures same { result ≡ n }
    ensures small { result < 2 ^ 32 }
{
    u64::from(n)
}
