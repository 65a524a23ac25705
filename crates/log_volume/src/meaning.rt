//! Laws of what an image stands for. Whatever carries images from one state to the next rests on these alone.
ghost use Rattle.log_volume.specs.Laws.{OneMeaning, KeptMeaning, ImagesStand, NextStands, FreshStands, FindsNothing};

/// An image stands for one tree and one use of the log at most.
pub fn one_meaning()
    ensures { OneMeaning }
{}

/// An image with the same root and the same live blocks stands for the same.
pub fn kept_meaning()
    ensures { KeptMeaning }
{}

/// Where no live block is unsynced, nor the selector and the root that it names, each image stands for what the contents stand for.
pub fn images_stand()
    ensures { ImagesStand }
{}

/// With a record behind the log and a root that counts it, an image stands for the tree after one command more.
pub fn next_stands()
    ensures { NextStands }
{}

/// An image in which a mount finds something stands for nothing.
pub fn found_stands_for_nothing()
    ensures { FindsNothing }
{}

/// A volume as a format leaves it stands for the root directory alone.
pub fn fresh_stands()
    ensures { FreshStands }
{}
