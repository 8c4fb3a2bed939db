//! How the exception clauses of a method may lie (ECMA-335 II.19, I.12.4.2).
#![tactic(auto)]

ghost use Rattle.std.specs.Prelude.{◌≡◌};
ghost use Rattle.classes.specs.Clauses as lie;
ghost use Rattle.classes.specs.Listed.{is_between};
ghost use Rattle.clause_regions.specs.Lying.{region_of, code_clause, four_nest, four_keep};

/// Places of code from one up to another.
#[derive(Clone, Copy)]
pub struct Region {
    pub from: u32,
    pub to: u32,
}

/// The regions of a clause.
#[derive(Clone, Copy)]
pub struct Regions {
    pub attempt: Region,
    pub handler: Region,
}

/// The place lies in the region.
pub fn is_within(region: Region, at: u32) -> bool
    ensures { result ≡ is_between region.from region.to at }
{
    region.from <= at && at < region.to
}

/// The second region lies in the first.
fn holds(outer: Region, inner: Region) -> bool
    ensures { result ≡ lie.holds (region_of outer) (region_of inner) }
{
    outer.from <= inner.from && inner.to <= outer.to
}

fn overlap(a: Region, b: Region) -> bool
    ensures { result ≡ lie.overlap (region_of a) (region_of b) }
{
    a.from < b.to && b.from < a.to
}

fn is_same(a: Region, b: Region) -> bool
    ensures { result ≡ lie.same_region (region_of a) (region_of b) }
{
    a.from == b.from && a.to == b.to
}

/// Regions that overlap lie one in the other.
fn nest(a: Region, b: Region) -> bool
    ensures { result ≡ lie.nest (region_of a) (region_of b) }
{
    let meet = overlap(a, b);
    let around = holds(a, b);
    let within = holds(b, a);
    !meet || (around || within)
}

/// A region that holds one region of a clause holds the other.
fn keeps_whole(outer: Region, clause: Regions) -> bool
    ensures { result ≡ lie.keeps_whole (region_of outer) (code_clause clause) }
{
    let attempt = holds(outer, clause.attempt);
    let handler = holds(outer, clause.handler);
    (!attempt || handler) && (!handler || attempt)
}

/// The same of a try, but that it may equal the other clause's try.
fn try_keeps_whole(attempt: Region, clause: Regions) -> bool
    ensures { result ≡ lie.try_keeps_whole (region_of attempt) (code_clause clause) }
{
    let same = is_same(attempt, clause.attempt);
    let whole = keeps_whole(attempt, clause);
    same || whole
}

fn is_in(outer: Region, clause: Regions) -> bool
    ensures { result ≡ lie.is_in (region_of outer) (code_clause clause) }
{
    let attempt = holds(outer, clause.attempt);
    let handler = holds(outer, clause.handler);
    attempt && handler
}

/// The first clause is an inner one of the second.
fn is_inside(inner: Regions, outer: Regions) -> bool
    ensures { result ≡ lie.is_inside (code_clause inner) (code_clause outer) }
{
    let same = is_same(outer.attempt, inner.attempt);
    let in_try = is_in(outer.attempt, inner);
    let in_handler = is_in(outer.handler, inner);
    (!same && in_try) || in_handler
}

fn all_nest(b: Regions, c: Regions) -> bool
    ensures { result ≡ four_nest (code_clause b) (code_clause c) }
{
    let tries = nest(b.attempt, c.attempt);
    let crossed = nest(b.attempt, c.handler);
    let back = nest(b.handler, c.attempt);
    let handlers = nest(b.handler, c.handler);
    tries && crossed && back && handlers
}

fn all_keep(b: Regions, c: Regions) -> bool
    ensures { result ≡ four_keep (code_clause b) (code_clause c) }
{
    let tries = try_keeps_whole(b.attempt, c);
    let handlers = keeps_whole(b.handler, c);
    let tries_back = try_keeps_whole(c.attempt, b);
    let handlers_back = keeps_whole(c.handler, b);
    tries && handlers && tries_back && handlers_back
}

/// A clause lies well against one behind it.
pub fn lies_well(b: Regions, c: Regions) -> bool
    ensures { result ≡ lie.lies_well (code_clause b) (code_clause c) }
{
    let nested = all_nest(b, c);
    if !nested {
        return false;
    }
    let kept = all_keep(b, c);
    if !kept {
        return false;
    }
    let inside = is_inside(c, b);
    if inside {
        return false;
    }
    // two handlers that begin at one place would be entered together
    b.handler.from != c.handler.from
}

/// No region is empty, and the try and its handler don't overlap.
pub fn is_proper(clause: Regions) -> bool
    ensures { result ≡ lie.is_proper (code_clause clause) }
{
    let meet = overlap(clause.attempt, clause.handler);
    clause.attempt.from < clause.attempt.to && (clause.handler.from < clause.handler.to && !meet)
}
