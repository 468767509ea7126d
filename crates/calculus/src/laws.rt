// Functions that carry the laws of the definitions: each is proved because a contract here names it.
ghost use Rattle.calculus.specs.Laws.{FloorRoundsDown, CeilingRoundsUp, DividesBoth, Greatest, CommonDivides, CommonGreatest};
ghost use Rattle.calculus.specs.Laws.{ReducedDivides, ReducedSame, ReducedPlain, DoubleDecides, DoubleSame};
ghost use Rattle.calculus.specs.Laws.{WithinEach, MeetsEach, MeetsTogether, MeetsFirst, MeetsPart};
ghost use Rattle.calculus.specs.Laws.{Numbered, EachListed, CarriedListed, SmallestFirst, TestsRise, ReturnUndoes};
ghost use Rattle.calculus.specs.CheckLaws.{AcceptsRight, MisfitIs, FirstWrong, OpenIs};
ghost use Rattle.calculus.specs.MoveLaws.{BetterIsLast, FirstConflict, FirstPair, LeastNumber, PlusIsSum, DecisionFixes};
ghost use Rattle.calculus.specs.MoveLaws.{OneOfThree, ThreeMove, NeverTwo};
ghost use Rattle.calculus.specs.RunLaws.{EndedStays, RestStays, SameMachines, LargerBudget, SoonDue, RunRests, RunAnswers};
ghost use Rattle.calculus.specs.RunLaws.{MovesWithin, SpentIsBudget, StartWrites, StepAppends, LogAfter, LogSame, AppendWrites};
ghost use Rattle.calculus.specs.RunLaws.{ThreeAdvise, ThreeAdvised, SteadyStays, TurnedTwice, ChoiceOpen, ChoiceFirst};
ghost use Rattle.calculus.specs.RunLaws.{MoreTestsRise, OnlyMovesTell, AdviceAfter};
ghost use Rattle.calculus.specs.Worked.{Reduces, Doubles, Rounds, EndsIncluded, MetToTheEnd, RefusalsListed};
ghost use Rattle.calculus.specs.WorkedRuns.{NoUnknowns, OneDecision, OnePropagation, NoneAtOnce, NoneFrames, NoneWithoutRoom};
ghost use Rattle.calculus.specs.WorkedRuns.{TwoBackjumps, TooWide, SetAsideOnce, PartnerAdded, Checks, Breaks};
ghost use Rattle.calculus.specs.WorkedRuns.{RowLineAgain, RowWithoutRoom, TermComesAndGoes, PartnerNotNeeded};
ghost use Rattle.calculus.specs.WorkedRuns.{NoneAfterBackjump, DecisionDropped, ReducedByTwo};

// Rounding, the common divisor, and what a reduced form keeps.
pub fn arithmetic_stands()
    ensures floor { FloorRoundsDown }
    ensures ceiling { CeilingRoundsUp }
    ensures divides { DividesBoth }
    ensures greatest { Greatest }
    ensures common_divides { CommonDivides }
    ensures common_greatest { CommonGreatest }
    ensures reduced_divides { ReducedDivides }
    ensures reduced_same { ReducedSame }
    ensures reduced_plain { ReducedPlain }
    ensures double_decides { DoubleDecides }
    ensures double_same { DoubleSame }
{}

// What it is to lie within the ranges and to meet rows, place by place and part by part.
pub fn meeting_stands()
    ensures within_each { WithinEach }
    ensures meets_each { MeetsEach }
    ensures meets_together { MeetsTogether }
    ensures meets_first { MeetsFirst }
    ensures meets_part { MeetsPart }
{}

// The table of refusals.
pub fn table_stands()
    ensures numbered { Numbered }
    ensures each_listed { EachListed }
    ensures carried_listed { CarriedListed }
{}

// The account of a day.
pub fn account_stands()
    ensures smallest_first { SmallestFirst }
    ensures tests_rise { TestsRise }
    ensures return_undoes { ReturnUndoes }
{}

// What a look finds and what a move is.
pub fn moves_stand()
    ensures better_is_last { BetterIsLast }
    ensures first_conflict { FirstConflict }
    ensures first_pair { FirstPair }
    ensures least_number { LeastNumber }
    ensures plus_is_sum { PlusIsSum }
    ensures decision_fixes { DecisionFixes }
    ensures one_of_three { OneOfThree }
    ensures three_move { ThreeMove }
    ensures never_two { NeverTwo }
{}

// Whole runs: where they rest, what a larger budget changes, what they end in and leave.
pub fn runs_stand()
    ensures ended_stays { EndedStays }
    ensures rest_stays { RestStays }
    ensures same_machines { SameMachines }
    ensures larger_budget { LargerBudget }
    ensures soon_due { SoonDue }
    ensures run_rests { RunRests }
    ensures run_answers { RunAnswers }
    ensures moves_within { MovesWithin }
    ensures spent_is_budget { SpentIsBudget }
    ensures start_writes { StartWrites }
    ensures step_appends { StepAppends }
    ensures log_after { LogAfter }
    ensures log_same { LogSame }
    ensures append_writes { AppendWrites }
    ensures more_tests_rise { MoreTestsRise }
{}

// What a check answers.
pub fn checks_stand()
    ensures accepts_right { AcceptsRight }
    ensures misfit_is { MisfitIs }
    ensures first_wrong { FirstWrong }
    ensures open_is { OpenIs }
{}

// Advisers, and what a run leaves of one.
pub fn advisers_stand()
    ensures three_advise { ThreeAdvise }
    ensures three_advised { ThreeAdvised }
    ensures steady_stays { SteadyStays }
    ensures turned_twice { TurnedTwice }
    ensures choice_open { ChoiceOpen }
    ensures choice_first { ChoiceFirst }
    ensures only_moves_tell { OnlyMovesTell }
    ensures advice_after { AdviceAfter }
{}

// The worked cases on reduced forms, doubles and rounding.
pub fn worked_cases_stand()
    ensures reduces { Reduces }
    ensures doubles { Doubles }
    ensures rounds { Rounds }
    ensures ends_included { EndsIncluded }
{}

// The worked runs, checks and texts, the worked cases on rows and ranges, and the refusals listed, all computed from the definitions.
pub fn worked_runs_stand()
    ensures no_unknowns { NoUnknowns }
    ensures one_decision { OneDecision }
    ensures one_propagation { OnePropagation }
    ensures none_at_once { NoneAtOnce }
    ensures none_frames { NoneFrames }
    ensures none_without_room { NoneWithoutRoom }
    ensures two_backjumps { TwoBackjumps }
    ensures too_wide { TooWide }
    ensures set_aside_once { SetAsideOnce }
    ensures partner_added { PartnerAdded }
    ensures row_line_again { RowLineAgain }
    ensures row_without_room { RowWithoutRoom }
    ensures term_comes_and_goes { TermComesAndGoes }
    ensures partner_not_needed { PartnerNotNeeded }
    ensures none_after_backjump { NoneAfterBackjump }
    ensures decision_dropped { DecisionDropped }
    ensures reduced_by_two { ReducedByTwo }
    ensures checks { Checks }
    ensures breaks { Breaks }
    ensures reduces { Reduces }
    ensures doubles { Doubles }
    ensures rounds { Rounds }
    ensures ends_included { EndsIncluded }
    ensures met_to_the_end { MetToTheEnd }
    ensures refusals_listed { RefusalsListed }
{}
