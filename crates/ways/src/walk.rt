//! A walk that goes down a way until it ends or meets itself.

ghost use Rattle.std.specs.Prelude.{◌≡◌, ◌<◌, ◌≤◌, ◌^◌, [], IfOk, OnOk, Some, false, not, count_by, length, slice_get};
ghost use Rattle.ways.specs.Walk.{is_unknown, AreMet, AreEnded, Walks, GoesOn, IsDone, StaysMet};
ghost use Rattle.ways.specs.Looked.{Looks};

use crate::graph::Ways;
use plain_types::fault::NoMemory;

/// What is known of a node.
#[derive(Clone, Copy, Debug, PartialEq, Eq)]
pub enum Mark {
    Unknown,
    /// It is on the path that is walked.
    Open,
    /// Its longest way has so many nodes.
    Height(u32),
    /// Some way of it doesn't end.
    Endless,
}

/// A node of the path: how many of its edges were taken, and the longest way behind these.
#[derive(Clone, Copy, Debug)]
pub struct Place {
    pub node: u32,
    pub taken: usize,
    pub height: u32,
}

/// What is known of each node, the path to the place that is looked at, and how many heights are known.
#[derive(Debug, Drop)]
pub struct Walk {
    pub marks: Vec<Mark>,
    pub path: Vec<Place>,
    pub known: u32,
}

/// What the next edges of a place lead to.
#[derive(Clone, Copy, Debug)]
pub enum Looked {
    /// By this edge to a node that wasn't met, with the longest way behind the edges before.
    Fresh { edge: usize, node: u32, height: u32 },
    /// To a way that doesn't end.
    Circle,
    /// To nodes whose ways are known, the longest of which this is.
    Done { height: u32 },
}

/// Looks along the edges of a place.
fn look<W: Ways>(walk: &Walk, ways: &W, place: Place) -> Looked
    requires size { W.size ways.now ≡ length walk.now.marks.items }
    requires inside { place.node < length walk.now.marks.items }
    requires taken { place.taken ≤ length (W.next ways.now place.node) }
    ensures { Looks (W.next ways.now) walk.now.marks.items place result }
{
    let mut height = place.height;
    for edge in place.taken..ways.degree(place.node) {
        let node = ways.step(place.node, edge);
        match walk.marks[node as usize] {
            Mark::Height(other) => height = height.max(other),
            Mark::Unknown => return Looked::Fresh { edge, node, height },
            Mark::Open | Mark::Endless => return Looked::Circle,
        }
    }
    Looked::Done { height }
}

/// Tells of all nodes of a path that some way of them doesn't end.
fn give_up(marks: &mut [Mark], path: &[Place])
    requires { AreMet marks.old path.now }
    ensures size { length marks.new ≡ length marks.old }
    ensures marks { AreEnded path.now marks.old marks.new }
    ensures count { count_by is_unknown marks.new ≡ count_by is_unknown marks.old }
{
    for place in path {
        marks[place.node as usize] = Mark::Endless;
    }
}

/// Leaves the path: some way of each of its nodes doesn't end.
fn leave(walk: &mut Walk)
    requires { AreMet walk.old.marks.items walk.old.path.items }
    ensures size { length walk.new.marks.items ≡ length walk.old.marks.items }
    ensures marks { AreEnded walk.old.path.items walk.old.marks.items walk.new.marks.items }
    ensures count { count_by is_unknown walk.new.marks.items ≡ count_by is_unknown walk.old.marks.items }
    ensures path { walk.new.path.items ≡ [] }
    ensures known { walk.new.known ≡ walk.old.known }
{
    give_up(&mut walk.marks, &walk.path);
    walk.path.clear();
}

/// Goes on from the last place of the path. Tells the place that is looked at next, and `None` where none is left.
fn go_on<W: Ways>(walk: &mut Walk, ways: &W, place: Place) -> Result<Option<Place>, NoMemory>
    requires size { W.size ways.now ≡ length walk.old.marks.items }
    requires few { length walk.old.marks.items < 2 ^ 32 }
    requires walks { Walks (W.next ways.now) walk.old (Some place) }
    ensures { IfOk result (λ after. GoesOn (W.next ways.now) walk.old walk.new (Some place) after) }
{
    match look(walk, ways, place) {
        Looked::Fresh { edge, node, height } => {
            walk.path.push(Place {
                node: place.node,
                taken: edge,
                height,
            })?;
            walk.marks[node as usize] = Mark::Open;
            Ok(Some(Place {
                node,
                taken: 0,
                height: 0,
            }))
        }
        Looked::Circle => {
            walk.path.push(place)?;
            leave(walk);
            Ok(None)
        }
        Looked::Done { height } => {
            walk.marks[place.node as usize] = Mark::Height(height + 1);
            walk.known += 1;
            Ok(walk.path.pop())
        }
    }
}

fn was_met(mark: Mark) -> bool
    ensures { result ≡ not (is_unknown mark) }
{
    match mark {
        Mark::Unknown => false,
        Mark::Open | Mark::Height(_) | Mark::Endless => true,
    }
}

/// Walks all ways of a node, unless it was met.
pub fn visit<W: Ways>(walk: &mut Walk, ways: &W, root: u32) -> Result<(), NoMemory>
    requires size { W.size ways.now ≡ length walk.old.marks.items }
    requires few { length walk.old.marks.items < 2 ^ 32 }
    requires inside { root < length walk.old.marks.items }
    requires done { IsDone (W.next ways.now) walk.old }
    ensures size { OnOk result (length walk.new.marks.items ≡ length walk.old.marks.items) }
    ensures done { OnOk result (IsDone (W.next ways.now) walk.new) }
    ensures met { OnOk result (StaysMet walk.old.marks.items walk.new.marks.items) }
    ensures root { OnOk result ((m : Mark) → slice_get walk.new.marks.items root ≡ Some m → is_unknown m ≡ false) }
{
    if was_met(walk.marks[root as usize]) {
        return Ok(());
    }
    walk.marks[root as usize] = Mark::Open;
    let mut current = Some(Place {
        node: root,
        taken: 0,
        height: 0,
    });
    while let Some(place) = current {
        current = go_on(walk, ways, place)?;
    }
    Ok(())
}
