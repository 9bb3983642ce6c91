// The walk of a scan from one start: forward over the elements, and back where one finds no end.
ghost use Rattle.std.specs.Prelude.{◌≡◌, ◌<◌, ◌≤◌, length, take};
ghost use Rattle.scan.specs.Answers.{eight, placed};
ghost use Rattle.scan.specs.Left.{WalksBack, ends, places, scan_from};
ghost use Rattle.scan.specs.Rows.{Parted};

use crate::answer::{Placed, ScanRefusal, Scanned, Verdict};
use crate::row::Row;
use crate::search::Search;
use crate::step::{Move, step};
use symbols::kind::Kind;

// The ends of the first `count` rows, and 0 beyond.
fn row_ends(rows: &[Row; 8], count: usize) -> [usize; 8]
    requires { count ≤ 8 }
    ensures { result ≡ eight (take count (ends rows.now)) }
{
    let mut all = [0usize; 8];
    for (i, row) in rows[..count].iter().enumerate() {
        all[i] = row.end;
    }
    all
}

// The placing that the rows hold.
fn placing(start: usize, rows: &[Row; 8], count: usize) -> Placed
    requires { count ≤ 8 }
    ensures { result ≡ placed (places start rows.now count) }
{
    Placed {
        start,
        count,
        ends: row_ends(rows, count),
    }
}

impl<K: Kind> Search<'_, K> {
    // Walks back from the row `from` to the nearest one before it that can move its end on: that row and its end, if there is one.
    fn retreat(
        &self,
        rows: &mut [Row; 8],
        from: usize,
        left: usize,
    ) -> Result<Option<(usize, usize)>, ScanRefusal>
        requires { (from < length self.now.elements.now) × (Parted (length self.now.subject.now) rows.old from) }
        ensures { WalksBack K.Kind.equal (K.Kind.acts self.now.kind.now) self.now.subject.now self.now.elements.now rows.old from left rows.new result }
    {
        for i in (0..from).rev() {
            match step(false, left, self.advance(&mut rows[i], self.elements[i])) {
                Move::Forward(end) => return Ok(Some((i, end))),
                Move::Back => {}
                Move::Done => unreachable!(),
                Move::Spent => return Err(ScanRefusal::Spent),
            }
        }
        Ok(None)
    }

    // Scans from one start alone, within so many trials.
    pub(crate) fn from_start(
        &self,
        rows: &mut [Row; 8],
        start: usize,
        trials: usize,
    ) -> Result<Scanned, ScanRefusal>
        requires { start ≤ length self.now.subject.now }
        ensures { result ≡ scan_from K.Kind.equal (K.Kind.acts self.now.kind.now) self.now.subject.now self.now.constants.now self.now.elements.now start trials }
    {
        let count = self.elements.len();
        let mut left = trials;
        let mut i: usize = 0;
        let mut begin = start;
        loop {
            let last = i + 1 == count;
            let element = self.elements[i];
            let other = self.compared(element, rows);
            match step(
                last,
                left,
                self.enter(&mut rows[i], element, other, last, begin),
            ) {
                Move::Forward(end) => {
                    begin = end;
                    i += 1;
                    left -= 1;
                }
                Move::Back => {
                    let Some((j, end)) = self.retreat(rows, i, left)? else {
                        return Ok(Scanned {
                            verdict: Verdict::Failure,
                            trials: trials - left,
                        });
                    };
                    begin = end;
                    i = j + 1;
                    left -= 1;
                }
                Move::Done => {
                    return Ok(Scanned {
                        verdict: Verdict::Success(placing(start, rows, count)),
                        trials: trials - (left - 1),
                    });
                }
                Move::Spent => return Err(ScanRefusal::Spent),
            }
        }
    }
}
