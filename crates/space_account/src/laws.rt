//! What holds of charges.
ghost use Rattle.space_account.specs.Laws.{ChargesEachPlace};

/// A write of at least one byte into a node of the tree is charged a block for each place that it touches, and eight.
pub fn charges_each_place()
    ensures { ChargesEachPlace }
{}
