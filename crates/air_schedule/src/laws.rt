//! Laws of the definitions, each the contract of a function that does nothing.

ghost use Rattle.air_schedule.specs.Text.{NoFirstBadLine, OneFirstBadLine, OneSchedule};

/// Each text is the text of at most one schedule.
pub fn one_schedule()
    ensures { OneSchedule }
{}

/// Each text has at most one first bad line, and the text of a schedule has none.
pub fn one_first_bad_line()
    ensures one { OneFirstBadLine }
    ensures none { NoFirstBadLine }
{}
