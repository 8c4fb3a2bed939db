//! The heights of all nodes.

ghost use Rattle.std.specs.Prelude.{◌≡◌, ℕ, ◌<◌, ◌^◌, List, IfOk, OnOk, Some, false, length, slice_get};
ghost use Rattle.ways.specs.Heights.{AreHeights};
ghost use Rattle.ways.specs.Walk.{is_unknown, height_of, IsDone};

use crate::graph::Ways;
use crate::walk::{Mark, Walk, visit};
use plain_types::fault::NoMemory;
use std::alloc::Global;

/// A walk that has met no node of so many.
fn begin(alloc: Global, nodes: u32) -> Result<Walk, NoMemory>
    ensures size { IfOk result (λ walk. length walk.marks.items ≡ nodes) }
    ensures done { IfOk result (λ walk. (next : ℕ → List ℕ) → IsDone next walk) }
{
    let mut marks = Vec::new(alloc);
    for _node in 0..nodes {
        marks.push(Mark::Unknown)?;
    }
    Ok(Walk {
        marks,
        path: Vec::new(alloc),
        known: 0,
    })
}

/// Walks from each node.
fn visit_all<W: Ways>(walk: &mut Walk, ways: &W) -> Result<(), NoMemory>
    requires size { W.size ways.now ≡ length walk.old.marks.items }
    requires few { length walk.old.marks.items < 2 ^ 32 }
    requires done { IsDone (W.next ways.now) walk.old }
    ensures size { OnOk result (length walk.new.marks.items ≡ length walk.old.marks.items) }
    ensures done { OnOk result (IsDone (W.next ways.now) walk.new) }
    ensures met { OnOk result ((a : ℕ) (m : Mark) → slice_get walk.new.marks.items a ≡ Some m → is_unknown m ≡ false) }
{
    for node in 0..ways.nodes() {
        visit(walk, ways, node)?;
    }
    Ok(())
}

/// The height that a mark tells.
fn height(mark: Mark) -> Option<u32>
    ensures { result ≡ height_of mark }
{
    match mark {
        Mark::Height(height) => Some(height),
        Mark::Unknown | Mark::Open | Mark::Endless => None,
    }
}

/// For each node how many nodes its longest way has, itself among them; `None` where some way of it goes in a circle, or
/// leads into one. In the time of the number of nodes and edges.
pub fn heights<W: Ways>(alloc: Global, ways: &W) -> Result<Vec<Option<u32>>, NoMemory>
    ensures size { IfOk result (λ heights. length heights.items ≡ W.size ways.now) }
    ensures heights { IfOk result (λ heights. AreHeights (W.next ways.now) heights.items) }
{
    let mut walk = begin(alloc, ways.nodes())?;
    visit_all(&mut walk, ways)?;
    let mut heights = Vec::new(alloc);
    for mark in &walk.marks {
        heights.push(height(*mark))?;
    }
    Ok(heights)
}
