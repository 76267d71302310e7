// What requests imply, by their definitions. Each fact is the contract of a function, which asks for its proof.
ghost use Rattle.requests.specs.Laws.{ChangesStandAlone, LeasesComeBack, ChecksSeeBoth};

// A change is accepted exactly where its three calls are, and then changes its pair alone; any other changes nothing.
pub fn changes_stand_alone()
    ensures { ChangesStandAlone }
{}

// No request leaves a lease out that was not out before, nor takes one back that was.
pub fn leases_come_back()
    ensures { LeasesComeBack }
{}

// An access check is judged under the conditions that sensors and clock tell, and no others.
pub fn checks_see_both()
    ensures { ChecksSeeBoth }
{}
