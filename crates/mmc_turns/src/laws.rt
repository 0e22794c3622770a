//! Laws about slots and the sector machine. Each function does nothing; its contract is the law, which a caller then knows.
ghost use Rattle.mmc_turns.specs.Serving.{BlocksAreTheirs, EndAgrees, ServedStay, StartAgrees};
ghost use Rattle.mmc_turns.specs.Steps.{CancellationAgrees, SubmissionAgrees};

use mmc_block::laws::{
    a_group_changes_what_its_members_do, a_group_served_at_once_is_a_start_and_a_turn,
};
use mmc_queue::laws::{
    a_group_is_one_extent, a_group_lends_each_sector_of_its_extent,
    a_group_lends_the_blocks_of_its_members,
};

/// A request that is accepted waits in the machine too.
pub fn a_submission_agrees()
    ensures { SubmissionAgrees }
{}

/// One that is given back leaves the machine too.
pub fn a_cancellation_agrees()
    ensures { CancellationAgrees }
{}

/// What goes into service does so in the machine too.
pub fn a_start_agrees()
    ensures { StartAgrees }
{
    a_group_served_at_once_is_a_start_and_a_turn();
}

/// Those in service stay the same while others are accepted and given back.
pub fn those_in_service_stay()
    ensures { ServedStay }
{}

/// Blocks among which each member has its own at its place are those of its group.
pub fn blocks_at_their_places_are_a_groups()
    ensures { BlocksAreTheirs }
{
    a_group_is_one_extent();
    a_group_lends_each_sector_of_its_extent();
    a_group_lends_the_blocks_of_its_members();
}

/// What became of requests in service is a turn of the machine too.
pub fn an_end_agrees()
    ensures { EndAgrees }
{
    a_group_served_at_once_is_a_start_and_a_turn();
    a_group_changes_what_its_members_do();
}
