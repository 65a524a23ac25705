//! What the promise of a session says to a later one.
ghost use Rattle.command_server.specs.Staying.{AcknowledgedStay};

/// However a session ended, and whatever a power cut left of its disk: what is mounted from it is the tree after the first of the accepted
/// commands, among them all that were acknowledged.
pub fn acknowledged_stay()
    ensures { AcknowledgedStay }
{}
