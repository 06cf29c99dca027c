//! What numbers tell.
ghost use Rattle.sn_homes.specs.Laws.{DeletedLeave, NumbersTellObjects, PlacesStayLeft};

/// The object with the number that an object got is that object.
///
/// Proved: The number by which an object is shown denotes that object and no other.
pub fn numbers_tell_objects()
    ensures { NumbersTellObjects }
{}

/// A deleted snapshot leaves a place that nothing gets again.
///
/// Proved: The place of a deleted snapshot stays empty, whatever is met or deleted later.
pub fn places_stay_left()
    ensures deleted { DeletedLeave }
    ensures stay { PlacesStayLeft }
{}
