// Worked readings, as a theorem.
ghost use Rattle.kinds.specs.Cases.{LabelCases, NumberCases};

// What some bytes are read as.
#[tactic(auto, unfolding(crate::specs::Numbers::groups_read, crate::specs::Numbers::form, crate::specs::Numbers::encode, crate::specs::Labels::label_read))]
pub fn worked_readings_hold()
    ensures numbers { NumberCases }
    ensures labels { LabelCases }
{}
