// Room for a graph: the lengths of the memories, and the limits on nodes and edges.
ghost use Rattle.std.specs.Prelude.{◌≡◌, ◌||◌, length, nat_lt};
ghost use Rattle.fault.specs.First.{flag, Passes, Answers};
ghost use Rattle.calls.specs.Memory.{edge_rows};
ghost use Rattle.calls.specs.Outcome.{room_fault};

use crate::drawing::{Counted, count_edges};
use calls::Memories;
use fault::Fault;

// How many nodes and edges a graph has at most.
pub const MOST_NODES: u32 = 1048576;

pub const MOST_EDGES: u32 = 4194304;

// There is room for n rows, of which there may be `most`; the fault says of which there are too few.
pub fn check_count<T>(n: u64, rows: &[T], most: u32, fault: Fault) -> Result<(), Fault>
    ensures { Passes (flag (nat_lt (length rows.now) n || nat_lt most n) fault) result }
{
    if (rows.len() as u64) < n || u64::from(most) < n {
        Err(fault)
    } else {
        Ok(())
    }
}

// There is room for the graph; its edges are counted once it is known that there is room for its nodes.
pub fn check_room<C: Counted>(counted: &C, memory: &Memories<'_>) -> Result<(), Fault>
    requires ready { C.ready counted.now }
    ensures { Passes (room_fault (C.graph counted.now).nodes (length (edge_rows (C.graph counted.now))) memory.now) result }
{
    check_count(counted.nodes(), memory.nodes, MOST_NODES, Fault::FewNodes)?;
    match count_edges(counted) {
        Some(n) => check_count(u64::from(n), memory.edges, MOST_EDGES, Fault::FewEdges),
        None => Err(Fault::FewEdges),
    }
}
