ghost use Rattle.rowan_cases.specs.Cases.{CasesHold};

// Every case of the table is answered as the table says.
pub fn cases_hold()
    ensures { CasesHold }
{}
