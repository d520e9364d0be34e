// Laws of the generator's lines, and of their replies.
ghost use Rattle.line_generator.specs.{Orders.RepliesInAnyOrder, Orders.SummaryInAnyOrder, Summary.RankStandsBetween};

/// Every order of the generator's lines that keeps each session's own gives the same replies but for their ranks, and so
/// the same summary, where no device failed.
pub fn orders_answer_alike()
    ensures replies { RepliesInAnyOrder }
    ensures summary { SummaryInAnyOrder }
{}

/// A reply line without its rank is the reply line but for ` @` and the rank.
pub fn rank_stands_between()
    ensures { RankStandsBetween }
{}
