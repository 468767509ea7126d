// A function that carries the laws of reading and wording: each is proved because its contract names it.
ghost use Rattle.script.specs.Laws.{WordsWhole, WordsKeep, ReadsBack, StaysOutside, RowReadsBack, Worked};

#[tactic(auto, using(crate::proofs::Parting::words_whole, crate::proofs::Parting::words_keep, crate::proofs::Back::reads_back, crate::proofs::Back::stays_outside, crate::proofs::Again::row_reads_back))]
pub fn reading_stands()
    ensures words_whole { WordsWhole }
    ensures words_keep { WordsKeep }
    ensures reads_back { ReadsBack }
    ensures stays_outside { StaysOutside }
    ensures row_reads_back { RowReadsBack }
    ensures worked { Worked }
{}
