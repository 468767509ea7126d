// A function that carries the laws of a day script: each is proved because its contract names it.
ghost use Rattle.day.specs.Laws.{RefusedStays, MisplacedStays, LinesWhole, LinesKeep, BeginsAlike, StopsAlike};

pub fn day_stands()
    ensures refused_stays { RefusedStays }
    ensures misplaced_stays { MisplacedStays }
    ensures lines_whole { LinesWhole }
    ensures lines_keep { LinesKeep }
    ensures begins_alike { BeginsAlike }
    ensures stops_alike { StopsAlike }
{}
