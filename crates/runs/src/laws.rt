// What holds of every run from every draft that may open. Each fact is the contract of a function, which asks for its proof.
ghost use Rattle.runs.specs.Law.{Law};
ghost use Rattle.runs.specs.Laws.{EveryRun, RulesKept, Counts, UnderLease, NoneAfterwards, Uses, Order, ByHistory, RefusalsDeserved};

// Answers and final state are those of the rules.
pub fn answers_follow_the_rules()
    ensures { EveryRun RulesKept }
{}

// A pair's count at the end and its revocations are its count at the opening and its assignments.
pub fn counts_add_up()
    ensures { EveryRun Counts }
{}

// Every accepted change came under the lease of its unit, which was out to its user.
pub fn changes_came_under_lease()
    ensures { EveryRun UnderLease }
{}

// At the end nothing is assigned, held or active that may never be.
pub fn nothing_forbidden_remains()
    ensures { EveryRun NoneAfterwards }
{}

// Access checks are granted where there is a path, and denied where there is none; every path is rightful.
pub fn uses_had_a_path()
    ensures { EveryRun Uses }
{}

// In which order the calls of different units come makes no difference, where no answer is 25.
pub fn order_among_units_is_free()
    ensures { EveryRun Order }
{}

// Leases out, living sessions and active roles are what the history tells.
pub fn history_tells_the_state()
    ensures { EveryRun ByHistory }
{}

// Every refusal names the reason of the lowest number that applied; where none is named, none applied.
pub fn refusals_were_deserved()
    ensures { EveryRun RefusalsDeserved }
{}

// All of these together.
pub fn law_of_runs()
    ensures { EveryRun Law }
{}
