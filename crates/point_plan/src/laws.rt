//! Laws of plans.
ghost use Rattle.point_plan.specs.Laws.{MadeIsPlanned};
ghost use Rattle.point_plan.specs.Rested.{CoherenceStays, PointRests};

use point_model::at_rest;
use point_space::after_metadata_is;
use state_laws::always_coherent;
use volume_model::points_exist;

/// What the steps of planning give is the plan of a point, in each image that carries it over the image of the last point.
pub fn made_is_planned()
    ensures { MadeIsPlanned }
{}

/// The state after a point of a coherent state is coherent.
pub fn coherence_stays()
    ensures { CoherenceStays }
{
    always_coherent();
    points_exist();
}

/// An image that stands for what is stored after a point holds the machine after it, with nothing staged.
pub fn point_rests()
    ensures { PointRests }
{
    coherence_stays();
    at_rest();
    after_metadata_is();
}
