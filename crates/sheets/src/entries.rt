// The faults of one record. An `Option` and not a `Result`, as the definitions have it: a fault is what is looked for. Hits and misses
// have an arm each, since the comparison is all that the arms say.
ghost use Rattle.std.specs.Prelude.{◌≡◌, not};
ghost use Rattle.records.specs.Entries.{end, head};
ghost use Rattle.records.specs.Reading.{says};
ghost use Rattle.curves.specs.Windows.{window_of};
ghost use Rattle.sheets.specs.Clean.{vouched};
ghost use Rattle.sheets.specs.Inner.{clean_fault, point_fault};
ghost use Rattle.sheets.specs.Tests.{first_fault, going, is_a_wrong_end, is_elsewhere, is_not_the_head, points_of};

use crate::fault::Fault;
use crate::judging::judge::Judge;
use crate::progress::Progress;
use curves::curve::Curve;
use curves::line::Line;
use curves::line_window;
use curves::window::Window;
use records::clean::CleanStretch;
use records::heading::Heading;
use records::point::Point;
use records::reading::read_count;
use records::record::Record;
use search::vouching::vouches;

impl<C: Curve> Judge<'_, C> {
    /// Whether a stretch starts at the next index, has points, and does not pass the end of the block.
    fn is_in_place(&self, next: u32, from: u32, points: u32) -> bool
        ensures is_not_elsewhere { not result ≡ is_elsewhere next self.now.stop from points }
    {
        from == next && points >= 1 && from as u64 + points as u64 <= self.stop as u64
    }

    /// Whether an end comes where the block is covered, counts the records, and has nothing behind it.
    fn is_right_end(&self, progress: Progress, behind: usize, count: u32) -> bool
        ensures is_not_a_wrong_end { not result ≡ is_a_wrong_end progress.next self.now.stop progress.records behind (end count) }
    {
        progress.next == self.stop && count == progress.records && behind == 0
    }

    /// Whether a head is the one for this survey, block, modulus and threshold.
    fn is_the_head(&self, heading: Heading) -> bool
        ensures is_not_another { not result ≡ is_not_the_head (C.meaning self.now.curve.now) self.now.assignment (head heading) }
    {
        heading
            == Heading {
                survey: self.assignment.survey,
                block: self.assignment.block,
                modulus: self.curve.modulus().get(),
                threshold: self.assignment.threshold,
            }
    }

    /// Whether the numbers vouch for the points of a line that covers their stretch. The window's threshold is cut at the modulus, that of a
    /// clean record is not, and both give the same answer.
    #[tactic(auto, using(crate::proofs::Uncut::vouching_uncut))]
    fn is_vouched(&self, stretch: CleanStretch, line: Line, window: Window) -> bool
        requires the_line_there { line ≡ (C.meaning self.now.curve.now).line stretch.from stretch.points }
        requires the_window_of_the_line { window ≡ window_of (C.meaning self.now.curve.now).modulus line self.now.assignment.threshold }
        ensures is_the_test_of_the_numbers { result ≡ vouched (C.meaning self.now.curve.now) self.now.assignment.threshold stretch.from stretch.points stretch.evidence }
    {
        vouches(
            self.curve.modulus(),
            line.slope,
            window.offset,
            window.threshold,
            u64::from(stretch.points),
            stretch.evidence,
        )
    }

    /// The first fault of a clean record, if it has one.
    fn clean_fault(&self, next: u32, stretch: CleanStretch) -> Option<Fault>
        ensures is_the_first_of_three { result ≡ clean_fault (C.meaning self.now.curve.now) self.now.assignment.threshold next self.now.stop stretch }
    {
        if !self.is_in_place(next, stretch.from, stretch.points) {
            return Some(Fault::Place);
        }
        let Some((line, window)) = line_window(
            self.curve,
            stretch.from,
            stretch.points,
            self.assignment.threshold,
        ) else {
            return Some(Fault::Place);
        };
        if line.reach < stretch.points {
            return Some(Fault::Reach);
        }
        (!self.is_vouched(stretch, line, window)).then_some(Fault::Numbers)
    }

    /// The first fault of a hit or a miss in its place and value, if it has one there.
    fn point_fault(&self, next: u32, point: Point) -> Option<Fault>
        ensures is_the_first_of_two { result ≡ point_fault (C.meaning self.now.curve.now) next self.now.stop point }
    {
        if !self.is_in_place(next, point.index, 1) {
            return Some(Fault::Place);
        }
        (self.curve.value(point.index) != Some(point.value)).then_some(Fault::Value)
    }

    /// The first fault of a record behind the head, if it has one.
    pub(crate) fn fault_of(
        &self,
        progress: Progress,
        behind: usize,
        record: Record<'_>,
    ) -> Option<Fault>
        ensures is_its_first_fault { result ≡ first_fault (C.meaning self.now.curve.now) self.now.assignment (going progress.next progress.records) behind (says «record».entry) }
    {
        let threshold = self.assignment.threshold;
        match record {
            Record::Head(_) => Some(Fault::Head),
            Record::Clean(body) => self.clean_fault(progress.next, CleanStretch::read(body)),
            Record::Hit(body) => {
                let point = Point::read(body);
                self.point_fault(progress.next, point)
                    .or((point.value >= threshold).then_some(Fault::Closeness))
            }
            Record::Miss(body) => {
                let point = Point::read(body);
                self.point_fault(progress.next, point)
                    .or((point.value < threshold).then_some(Fault::Closeness))
            }
            Record::End(body) => {
                let is_right = self.is_right_end(progress, behind, read_count(body));
                (!is_right).then_some(Fault::End)
            }
        }
    }

    /// Whether a record is the head that is due.
    pub(crate) fn opens(&self, record: Record<'_>) -> bool
        ensures is_not_another { not result ≡ is_not_the_head (C.meaning self.now.curve.now) self.now.assignment (says «record».entry) }
    {
        match record {
            Record::Head(body) => self.is_the_head(Heading::read(body)),
            Record::Clean(_) | Record::Hit(_) | Record::Miss(_) | Record::End(_) => false,
        }
    }
}

/// How many indices a record covers.
pub(crate) fn points_of(record: Record<'_>) -> u32
    ensures are_those_it_covers { result ≡ points_of (says «record».entry) }
{
    match record {
        Record::Clean(body) => CleanStretch::read(body).points,
        Record::Hit(_) | Record::Miss(_) => 1,
        Record::Head(_) | Record::End(_) => 0,
    }
}
