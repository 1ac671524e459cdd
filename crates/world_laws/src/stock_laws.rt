//! What holds of the records that servers keep and send.

ghost use Rattle.world_laws.specs.StockLaws.{BootsAreRight, DeedsKeep, DeliveriesKeep};
ghost use Rattle.world_laws.specs.StockLaws.{FallsAreRight, LogsAreRight, OthersStay};
ghost use Rattle.world_laws.specs.StockLaws.{StartsRight, StocksStay};
ghost use Rattle.world_laws.specs.Sent.{DeedsSend, DeliveriesSend};
ghost use Rattle.world_laws.specs.Trees.{TreesAreHeld};

/// The log of each server is of its view's list, up to its top, with the changes that the list
/// gives to its records; and a server serves no more records than it has.
pub fn logs_are_right()
    ensures right { LogsAreRight }
{}

/// Whatever happens to the group, the records of a server that stays as it is, of its saved log and
/// of the messages that were sent stay those of their views' lists.
pub fn stocks_stay()
    ensures stay { StocksStay }
{}

/// A step leaves its server with records of its views' lists, in memory and saved, where those that
/// came with a message are of the message's view; and it leaves the other servers as they are.
pub fn steps_keep_stocks()
    ensures deeds { DeedsKeep }
    ensures deliveries { DeliveriesKeep }
    ensures others { OthersStay }
{}

/// A server that falls has no record in memory; one that loses power saves those of its log; and
/// one that boots has those of its saved log.
pub fn marks_keep_logs()
    ensures falls { FallsAreRight }
    ensures boots { BootsAreRight }
{}

/// What a step sends carries records of its view's list, with the changes that the list gives them,
/// where a message has such as its server's log has, or as the step appends.
pub fn sends_are_right()
    ensures deeds { DeedsSend }
    ensures deliveries { DeliveriesSend }
{}

/// At first no server has a record, in memory or saved.
pub fn starts_are_right()
    ensures start { StartsRight }
{}

/// The tree of a data server can be read in the records of its log over its disk: at CP where it is
/// settled, and at each number of updates from how far the disk may be up to top.
pub fn trees_are_held()
    ensures held { TreesAreHeld }
{}
