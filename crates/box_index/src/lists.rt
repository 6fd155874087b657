//! Lists of entries by rising id.

ghost use Rattle.std.specs.Prelude.{◌≡◌, ◌<◌, ◌≤◌, true, false, length, vec_len, vec_capacity};
ghost use Rattle.std.specs.List.{AllWithin};
ghost use Rattle.box_index.specs.Tiles.{IsRising, IsAbsent, placed, without};

use crate::entry::Entry;

/// How many entries have lesser ids. Entries mostly come by rising ids, so the last one is asked first.
fn place_of(entries: &[Entry], id: u32) -> usize
    requires { IsRising entries.now }
    ensures within { result ≤ length entries.now }
    ensures below { AllWithin (λ e. e.id < id) entries.now 0 result }
    ensures from { AllWithin (λ e. id ≤ e.id) entries.now result (length entries.now) }
{
    let count = entries.len();
    if count == 0 || entries[count - 1].id < id {
        return count;
    }
    entries.partition_point(|e| e.id < id)
}

/// Whether an entry has this id.
pub(crate) fn has(entries: &[Entry], id: u32) -> bool
    requires { IsRising entries.now }
    ensures there { result ≡ true → IsAbsent id entries.now → ⊥ }
    ensures absent { result ≡ false → IsAbsent id entries.now }
{
    let place = place_of(entries, id);
    place < entries.len() && entries[place].id == id
}

/// Puts an entry into its place. There is room for it.
pub(crate) fn put(entries: &mut Vec<Entry>, entry: Entry)
    requires rising { IsRising entries.old.items }
    requires absent { IsAbsent entry.id entries.old.items }
    requires capacity { vec_len entries.old < vec_capacity entries.old }
    ensures { entries.new.items ≡ placed entry entries.old.items }
{
    let place = place_of(entries, entry.id);
    if place == entries.len() {
        entries.push_reserved(entry);
        return;
    }
    let _ = entries.insert(place, entry);
}

/// Takes out the entry of this id, if there is one.
pub(crate) fn take_out(entries: &mut Vec<Entry>, id: u32)
    requires { IsRising entries.old.items }
    ensures { entries.new.items ≡ without id entries.old.items }
{
    let place = place_of(entries, id);
    if place < entries.len() && entries[place].id == id {
        let _ = entries.remove(place);
    }
}
