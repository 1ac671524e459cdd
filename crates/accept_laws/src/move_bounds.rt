//! How far the moves of each step of the group's machine go.

ghost use Rattle.accept_laws.specs.Walks.{StepsWalk};

/// The moves of a step take up views within those that it begins with, or the next one of a server
/// that suspects; a choice has a horizon within those of its joins; what is appended is the asked
/// entry; a Fetch asks for the record behind those that are staged, a Formed tells the sender's LB,
/// and a Give has a record, and none that the sender doesn't hold.
pub fn step_walks()
    ensures moves { StepsWalk }
{}
