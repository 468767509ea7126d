// Functions that carry the promises on runs, checks and whole days: each is proved because a contract here names it.
ghost use Rattle.calculus.specs.Days.{CallsLead, LeadsOnly, AccountFits, DayRight};
ghost use Rattle.calculus.specs.Promises.{PlanRight, NoneRight, JumpFound, LinesRight, LinesSound, LogSound, AcceptedRight};
ghost use Rattle.calculus.specs.Promises.{SpentRight, MovesBounded, FigureEnough};

// One run or one check.
pub fn promises_stand()
    ensures plan_right { PlanRight }
    ensures none_right { NoneRight }
    ensures jump_found { JumpFound }
    ensures lines_right { LinesRight }
    ensures lines_sound { LinesSound }
    ensures log_sound { LogSound }
    ensures accepted_right { AcceptedRight }
    ensures spent_right { SpentRight }
    ensures moves_bounded { MovesBounded }
    ensures figure_enough { FigureEnough }
{}

// Any list of calls on a settled ticket.
pub fn days_stand()
    ensures calls_lead { CallsLead }
    ensures leads_only { LeadsOnly }
    ensures account_fits { AccountFits }
    ensures day_right { DayRight }
{}
