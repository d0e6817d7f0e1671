//! What it means that a desk stands for events.
ghost use Rattle.gq_desk.specs.Laws as spec;

/// A new desk stands for no events.
pub fn new_desks_stand_for_none()
    ensures { spec.NewDesksStandForNone }
{}

/// A step leads from the events that a desk stands for to one more.
pub fn steps_lead_on()
    ensures { spec.StepsLeadOn }
{}

/// The numbers of jobs stay below those of events, so that a desk which was driven can be driven on.
pub fn numbers_stay_low()
    ensures { spec.NumbersStayLow }
{}
