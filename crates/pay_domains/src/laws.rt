//! Laws of domains. Each function is empty: what it ensures is the law.

ghost use Rattle.pay_domains.specs.DomainLaws.{NormalIsDomain, CanonicalIsUnique, DomainIsNormal, OperatorsAreSound, SignsAndUnionsAreSound};
ghost use Rattle.pay_domains.specs.DomainLaws.{ResultsStayWithin, QueriesAreRight};

/// Pieces that rise with a raw between neighbours are the only such list that holds what they hold.
pub fn canonical_is_unique()
    ensures { CanonicalIsUnique }
{}

/// The domain of pieces rises with a raw between neighbours and has at most sixteen pieces. It holds all that the pieces hold, and nothing else
/// where joining them leaves at most sixteen.
pub fn normal_is_domain()
    ensures { NormalIsDomain }
{}

/// The domain of a domain's own pieces is that domain.
pub fn domain_is_normal()
    ensures { DomainIsNormal }
{}

/// What an operator gives for two raws of its operands is a raw of its result, or its fault is flagged.
pub fn operators_are_sound()
    ensures { OperatorsAreSound }
{}

/// The raws with the other sign, the raws without their sign, the raws of either of two domains and those of both are raws of the results.
pub fn signs_and_unions_are_sound()
    ensures { SignsAndUnionsAreSound }
{}

/// The raws that an operator gives lie within the limit of a number, and so do those of the signs, unions and intersections of domains that do.
pub fn results_stay_within()
    ensures { ResultsStayWithin }
{}

/// What is asked of a domain is what its raws show: whether a raw is held, the one raw that it has alone, whether no two raws are neighbours, the
/// greatest raw under a limit and the least over one.
pub fn queries_are_right()
    ensures { QueriesAreRight }
{}
