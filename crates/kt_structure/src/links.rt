//! The units whose losses come to a unit.
//! The rule: docs/FINANCIAL_MODULE.md, "Levels".
ghost use Rattle.std.specs.Prelude.{◌≡◌, ◌+◌, ◌++◌, ◌*◌, ◌^◌, ℕ, true, [], nat_eq, length, map, take, IfOk, OnOk};
ghost use Rattle.std.specs.List.{cons_option, filter, filter_map};
ghost use Rattle.kt_rec.specs.Rising.{rising};
ghost use Rattle.kt_structure.specs.Plan.{end_link, end_up, link_key, link_to, link_up, linked, links_up};
ghost use Rattle.kt_keys.specs.UnitTable.{value_of};

use kt_fmtree::rising;
use kt_index::{ByKey, Keyed, pair_key, rows_near};
use kt_keys::UnitTable;
use std::alloc::{AllocError, Global};

/// The losses of a unit come to a unit of a level.
#[derive(Clone, Copy, Drop)]
pub(crate) struct Link {
    pub level: u32,
    pub unit: u32,
    pub child: u32,
}

impl Keyed for Link {
    ghost use Rattle.std.specs.Prelude.{◌*◌, ◌+◌, ◌^◌};

    ghost key_of = { λ row. row.level * 2 ^ 32 + row.unit };

    fn key(&self) -> u64 {
        pair_key(self.level, self.unit)
    }
}

/// The links of ids to themselves, from which they climb.
fn own_links(alloc: Global, ids: &[u32]) -> Result<Vec<Link>, AllocError>
    ensures value { IfOk result (λ ends. ends.items ≡ map (λ id. link_to 0 id id) ids.now) }
{
    ids.iter()
        .map(|id| Link {
            level: 0,
            unit: *id,
            child: *id,
        })
        .collect(alloc)
}

/// Puts the link of an id one level up behind others, and that of the unit between behind the links between units.
fn push_up(
    next: &UnitTable<u32>,
    level: u32,
    end: Link,
    links: &mut Vec<Link>,
    ends: &mut Vec<Link>,
) -> Result<(), AllocError>
    ensures links { OnOk result (links.new.items ≡ links.old.items ++ cons_option (link_up (value_of next.now) level end) []) }
    ensures ends { OnOk result (ends.new.items ≡ ends.old.items ++ cons_option (end_up (value_of next.now) level end) []) }
{
    match next.of(level, end.unit) {
        None => Ok(()),
        Some(unit) => {
            links.push(Link {
                level,
                unit,
                child: end.unit,
            })?;
            ends.push(Link {
                level: 0,
                unit,
                child: end.child,
            })?;
            Ok(())
        }
    }
}

/// The links of ids one level up; those of the units between are put behind others.
fn ends_up(
    alloc: Global,
    next: &UnitTable<u32>,
    level: u32,
    ends: &[Link],
    links: &mut Vec<Link>,
) -> Result<Vec<Link>, AllocError>
    ensures links { OnOk result (links.new.items ≡ links.old.items ++ filter_map (link_up (value_of next.now) level) ends.now) }
    ensures value { IfOk result (λ higher. higher.items ≡ filter_map (end_up (value_of next.now) level) ends.now) }
{
    let mut higher = Vec::with_capacity(alloc, ends.len())?;
    for end in ends {
        push_up(next, level, *end, links, &mut higher)?;
    }
    Ok(higher)
}

/// The links from ids up to their tops, level by level, and the links of the ids to the tops.
pub(crate) fn climb(
    alloc: Global,
    next: &UnitTable<u32>,
    top: u32,
    ids: &[u32],
) -> Result<(Vec<Link>, Vec<Link>), AllocError>
    ensures links { IfOk result (λ made. made.0.items ≡ links_up (value_of next.now) ids.now top) }
    ensures ends { IfOk result (λ made. made.1.items ≡ filter_map (end_link (value_of next.now) top) ids.now) }
{
    let mut links = Vec::with_capacity(alloc, ids.len().saturating_mul(top as usize))?;
    let mut ends = own_links(alloc, ids)?;
    for below in 0..top {
        let higher = ends_up(alloc, next, below + 1, &ends, &mut links)?;
        ends = higher;
    }
    Ok((links, ends))
}

/// Links by the units of levels that they lead to.
pub(crate) fn by_key(rows: Vec<Link>) -> Result<ByKey<Link>, AllocError>
    ensures kept { IfOk result (λ links. (key : ℕ) → filter (λ row. nat_eq (link_key row) key) links ≡ filter (λ row. nat_eq (link_key row) key) rows.items) }
{
    ByKey::of_rows(rows)
}

/// The links to a unit of a level. They are looked for first at a place, which is then that behind them: there those to the next
/// unit stand.
fn links_to<'a>(links: &'a ByKey<Link>, level: u32, unit: u32, near: &mut usize) -> &'a [Link]
    ensures value { result.now ≡ filter (λ row. nat_eq (link_key row) (level * 2 ^ 32 + unit)) links.now }
{
    let found = rows_near(links.as_slice(), pair_key(level, unit), near);
    *near = near.saturating_add(found.len());
    found
}

/// The children of links.
fn children_of(alloc: Global, links: &[Link]) -> Result<Vec<u32>, AllocError>
    ensures value { IfOk result (λ ids. ids.items ≡ map (λ row. row.child) links.now) }
{
    links.iter().map(|link| link.child).collect(alloc)
}

/// Puts the children of links behind others, each once, as far as they rise; whether all do.
fn push_while_rising(links: &[Link], below: &mut Vec<u32>) -> Result<bool, AllocError>
    ensures all { IfOk result (λ all. all ≡ true → below.new.items ≡ below.old.items ++ rising (map (λ row. row.child) links.now)) }
    ensures behind { OnOk result (take (length below.old.items) below.new.items ≡ below.old.items) }
{
    // No child so far is as great as this, and one is the number before it.
    let mut floor: u64 = 0;
    for link in links {
        let child = u64::from(link.child);
        if child + 1 < floor {
            return Ok(false);
        }
        if floor <= child {
            below.push(link.child)?;
            floor = child + 1;
        }
    }
    Ok(true)
}

/// The children of links, rising.
fn risen(alloc: Global, links: &[Link]) -> Result<Vec<u32>, AllocError>
    ensures value { IfOk result (λ ids. ids.items ≡ rising (map (λ row. row.child) links.now)) }
{
    let ids = children_of(alloc, links)?;
    rising(ids)
}

/// Puts the children of links, rising, behind others.
fn push_children(alloc: Global, links: &[Link], below: &mut Vec<u32>) -> Result<(), AllocError>
    ensures ok { OnOk result (below.new.items ≡ below.old.items ++ rising (map (λ row. row.child) links.now)) }
{
    let before = below.len();
    if push_while_rising(links, below)? {
        return Ok(());
    }
    below.truncate(before);
    let ids = risen(alloc, links)?;
    below.extend_from_slice(&ids)
}

/// Puts the units whose losses come to a unit of a level, rising, behind others, and tells how many they are. Their links are
/// looked for first at a place, which is then that behind them.
pub(crate) fn push_linked(
    alloc: Global,
    links: &ByKey<Link>,
    level: u32,
    unit: u32,
    near: &mut usize,
    below: &mut Vec<u32>,
) -> Result<usize, AllocError>
    ensures ok { OnOk result (below.new.items ≡ below.old.items ++ linked links.now level unit) }
    ensures count { IfOk result (λ count. count ≡ length (linked links.now level unit)) }
{
    let before = below.len();
    push_children(alloc, links_to(links, level, unit, near), below)?;
    Ok(below.len() - before)
}
