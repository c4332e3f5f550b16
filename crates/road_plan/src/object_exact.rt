//! The order of objects distinguishes them.

use crate::object::Object;
use lattice_core::exact::Exact;

impl Exact for Object {
    ghost use Rattle.road_plan.specs.Instances.ObjectOrder.{object_exact};

    ghost exact = { object_exact };
}
