// What holds of every property that an accepted text writes: its limits, and that its table is lawful.
#![tactic(auto)]

ghost use Rattle.limits.specs.Theorems.{AcceptedWithin, WithinLawful};

// Every property that an accepted text writes is within the limits.
pub fn accepted_properties_are_within_limits()
    ensures { AcceptedWithin }
{}

// The table of a property within the limits is lawful.
pub fn tables_within_limits_are_lawful()
    ensures { WithinLawful }
{}
