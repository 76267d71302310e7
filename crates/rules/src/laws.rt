// What the rules imply for a single call. Each fact is the contract of a function, which asks for its proof.
ghost use Rattle.rules.specs.Access.{GrantedByPath};
ghost use Rattle.rules.specs.Reasons.{AnswersDeserved};
ghost use Rattle.rules.specs.Sound.{StaysSound, OneColumnTells};

// An access check is granted exactly where there is an authorization path.
pub fn granted_by_a_path()
    ensures { GrantedByPath }
{}

// To see whether an assignment lets a role reach a permission barred to it, one device role is enough.
pub fn one_column_tells()
    ensures { OneColumnTells }
{}

// Every refusal names a reason that applies, and none of a lower number does; where none is named, none applies.
pub fn answers_are_deserved()
    ensures { AnswersDeserved }
{}

// The pairs of every opening are sound, and no call changes that.
pub fn pairs_stay_sound()
    ensures { StaysSound }
{}
