// Labels: an answer's number, for the lines of `solve` and the records for C.
ghost use Rattle.std.specs.Prelude.{◌≡◌};
ghost use Rattle.rules.specs.Answers.{meaning, refusal_meaning};
ghost use Rattle.report.specs.ReportLines.{Labels, is_entry_label};

use rules::{Answer, Refusal};

// An outcome or a refusal, by its number; refusal 2 by its frame. The numbers are document 01's, which lines and records show.
#[derive(Clone, Copy)]
pub enum Label {
    Outcome(u8),
    Refusal(u8),
    Malformed(u64),
}

impl Label {
    // Was the call refused at entry?
    #[tactic(auto, using(std::proofs::lemmas::Bool::Decides::nat_tests), unfolding(crate::specs::ReportLines::is_entry_label))]
    pub(crate) fn is_entry_refusal(self) -> bool
        ensures { result ≡ is_entry_label self }
    {
        matches!(self, Label::Malformed(_) | Label::Refusal(0..=3))
    }
}

// The one table of numbers.
impl From<Answer> for Label {
    ghost from_gives = { λ answer label. Labels (meaning answer) label };

    #[tactic(auto, using(crate::proofs::Showing::labels), unfolding(rules::specs::Answers::meaning))]
    fn from(answer: Answer) -> Label {
        match answer {
            Answer::Ended => Label::Outcome(0),
            Answer::Calling(_, _, _, _) => Label::Outcome(1),
            Answer::DelegateCalling(_, _, _, _) => Label::Outcome(2),
            Answer::Paused => Label::Outcome(3),
            Answer::Refused(refusal) => Label::from(refusal),
            Answer::MarkedSink => Label::Refusal(18),
            Answer::ShortBuffer => Label::Refusal(19),
        }
    }
}

impl From<Refusal> for Label {
    ghost from_gives = { λ refusal label. Labels (refusal_meaning refusal) label };

    #[tactic(auto, using(crate::proofs::Showing::labels), unfolding(rules::specs::Answers::refusal_meaning))]
    fn from(refusal: Refusal) -> Label {
        match refusal {
            Refusal::BadLength => Label::Refusal(1),
            Refusal::MalformedFrame(frame) => Label::Malformed(frame),
            Refusal::BadState => Label::Refusal(3),
            Refusal::NoInstruction => Label::Refusal(4),
            Refusal::UncoveredOpcode => Label::Refusal(5),
            Refusal::BadOperand => Label::Refusal(6),
            Refusal::NotInField => Label::Refusal(7),
            Refusal::NotSmall => Label::Refusal(8),
            Refusal::AssertFailed => Label::Refusal(9),
            Refusal::RangeCheckFailed => Label::Refusal(10),
            Refusal::CellAbsent => Label::Refusal(11),
            Refusal::SpanPastRegion => Label::Refusal(12),
            Refusal::TapeFault => Label::Refusal(13),
            Refusal::StoreFault => Label::Refusal(14),
            Refusal::ProphetStore => Label::Refusal(15),
            Refusal::NoCapacity => Label::Refusal(16),
            Refusal::ClockEnd => Label::Refusal(17),
        }
    }
}
