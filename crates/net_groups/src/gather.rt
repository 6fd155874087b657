//! Groups of labels.

ghost use Rattle.std.specs.Prelude.{◌≡◌, ◌<◌, ℕ, [], Some, IfOk, length, replicate};
ghost use Rattle.net_groups.specs.Labels.{label_at, AreGathered};

use crate::group::Group;
use std::alloc::{AllocError, Global};

/// Groups without members.
fn empty_groups(alloc: Global, count: usize) -> Result<Vec<Group>, AllocError>
    ensures { IfOk result (λ groups. groups.items ≡ replicate count []) }
{
    let mut groups = Vec::with_capacity(alloc, count)?;
    for _ in 0..count {
        groups.push(Group::of(Vec::new(alloc)))?;
    }
    Ok(groups)
}

/// The ids of the places of each label, in the order of places.
pub(crate) fn gather(
    alloc: Global,
    ids: &[u32],
    labels: &[Option<u32>],
    count: u32,
) -> Result<Vec<Group>, AllocError>
    requires places { length labels.now ≡ length ids.now }
    requires below { (i x : ℕ) → label_at labels.now i ≡ Some x → x < count }
    ensures { IfOk result (λ groups. AreGathered count labels.now ids.now groups.items) }
{
    let mut groups = empty_groups(alloc, count as usize)?;
    for place in 0..ids.len() {
        if let Some(label) = labels[place] {
            let group = &mut groups[label as usize];
            group.members.push(ids[place])?;
        }
    }
    Ok(groups)
}
