//! Laws about requests that wait. Each function does nothing; its contract is the law, which a caller then knows.
ghost use Rattle.std.specs.Prelude.{◌+◌, ◌-◌, ◌<◌, ◌∷◌, ◌≡◌, ◌≤◌, ◌↔◌, ◌⊎◌, List, []};
ghost use Rattle.std.specs.Prelude.{false, length, slice_index_or, true, ℕ};
ghost use Rattle.mmc_bus.specs.Lending.{IsRewritten};
ghost use Rattle.mmc_card.specs.Sectors.{pieces};
ghost use Rattle.mmc_queue.specs.declared.entry.Entry.{Entry};
ghost use Rattle.mmc_queue.specs.declared.group.Group.{Group};
ghost use Rattle.mmc_requests.specs.declared.kind.Kind.TheVariants.{Read, Write};
ghost use Rattle.mmc_queue.specs.declared.request.Request.{Request};
ghost use Rattle.mmc_queue.specs.declared.extent.Extent.{Extent};
ghost use Rattle.mmc_queue.specs.Group.{FormExtent, IsFair, IsJoined, IsOneOf};
ghost use Rattle.mmc_queue.specs.Lent.{AreLent, blocks_of, with_lent, write_blocks_of};
ghost use Rattle.mmc_queue.specs.Requests.{ShareSector, bytes_of, conflicts, count_of, is_read, start_of};
ghost use Rattle.mmc_queue.specs.Rule.{IsGroup, extent_of};
ghost use Rattle.mmc_queue.specs.Waiting.{AreSound, Ascend, IsSound};
ghost use Rattle.mmc_requests.specs.declared.limits.TheConstants.{MAX_COUNT};

/// Of two requests that conflict either conflicts with the other.
pub fn conflict_is_symmetric()
    ensures { (a b : Request) → conflicts a b ≡ conflicts b a }
{}

/// Two requests conflict just where a sector lies in both of them, and one of them isn't a read. A request of no sectors
/// conflicts with none.
pub fn a_conflict_is_a_common_sector()
    ensures { (a b : Request) → (conflicts a b ≡ true) ↔ (ShareSector a b × ((is_read a ≡ false) ⊎ (is_read b ≡ false))) }
{}

/// A group by the rule is fair, whatever its limit of sectors, up to `MAX_COUNT`.
pub fn a_group_is_fair()
    ensures { (most : ℕ) (waits members : List Entry) (extent : Extent) (left : List Entry) → most ≤ MAX_COUNT
        → Ascend 0 waits → AreSound waits → IsGroup most waits members extent left → IsFair waits members extent left }
{}

/// A request alone is joined.
pub fn one_is_joined()
    ensures { (e : Entry) → IsSound e → IsJoined (e ∷ []) (extent_of e.request) }
{}

/// Requests that are joined are an extent.
pub fn a_group_is_one_extent()
    ensures { (members : List Entry) (extent : Extent) → IsJoined members extent → FormExtent members extent }
{}

/// A group of reads lends a block of its buffers for each sector of its extent, and a group of writes one of their bytes.
pub fn a_group_lends_each_sector_of_its_extent()
    ensures reads { (group : Group) → IsJoined group.members.items group.extent → group.extent.kind ≡ Read
        → length (blocks_of group) ≡ group.extent.end - group.extent.start }
    ensures writes { (group : Group) → IsJoined group.members.items group.extent → group.extent.kind ≡ Write
        → length (write_blocks_of group) ≡ group.extent.end - group.extent.start }
{}

/// The block that is lent for a sector of a member's is that member's own: for the sector that stands `i` after its
/// first, block `i` of its buffer, or of the bytes that it writes.
pub fn a_group_lends_the_blocks_of_its_members()
    ensures reads { (group : Group) (e : Entry) (i : ℕ)
        → IsJoined group.members.items group.extent → group.extent.kind ≡ Read
        → IsOneOf group.members.items e → i < count_of e.request
        → slice_index_or (blocks_of group) (start_of e.request + i - group.extent.start) []
        ≡ slice_index_or (pieces (count_of e.request) e.buffer) i [] }
    ensures writes { (group : Group) (e : Entry) (i : ℕ)
        → IsJoined group.members.items group.extent → group.extent.kind ≡ Write
        → IsOneOf group.members.items e → i < count_of e.request
        → slice_index_or (write_blocks_of group) (start_of e.request + i - group.extent.start) []
        ≡ slice_index_or (pieces (count_of e.request) (bytes_of e.request)) i [] }
{}

/// A group whose blocks were lent has the same extent and the same requests, with as much room each, and is joined if it
/// was.
pub fn a_lent_group_keeps_its_requests()
    ensures extent { (old new : Group) → IsRewritten blocks_of with_lent old new → new.extent ≡ old.extent }
    ensures requests { (old new : Group) → IsRewritten blocks_of with_lent old new
        → AreLent old.members.items new.members.items }
    ensures joined { (old new : Group) → IsRewritten blocks_of with_lent old new
        → IsJoined old.members.items old.extent → IsJoined new.members.items new.extent }
{}
