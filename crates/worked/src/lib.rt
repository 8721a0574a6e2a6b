// The worked days as one theorem: from the bytes of texts and journals to the outcomes and what is printed of them.
#![tactic(auto)]

ghost use Rattle.worked.specs.Days.{WorkedDays};

// The texts are accepted as these properties, the journals record these events, the properties' tables have these days of them, and each whole day has this outcome and this report.
pub fn worked_days_hold()
    ensures { WorkedDays }
{}
