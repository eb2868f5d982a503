// A reader of the published number.
//
// What `left_right` tells of a number can't be kept, so a told number is a floor here: `read`, which may wait, looks again until the number is
// no less. In a run it doesn't wait, since a number is told once it was shown. No number comes behind the last, so a reader that read it looks
// no more, and in a run without changes a packet reads no shared word.
ghost use Rattle.std.specs.Prelude.{◌≡◌, ◌≤◌};
ghost use Rattle.left_right.specs.Sides.{view};
ghost use Rattle.npf_publish.specs.NumberRange.{IsInRange};

use crate::number_range::NumberRange;
use crate::protocol::{LookStep, PublishRule, Published, SeatView};
use crate::told::Told;
use core::mem::replace_with;
use left_right::reader::Reader;
use std::sync::Wait;

/// A reader of the published number, for one thread.
#[derive(Drop)]
pub struct ConfReader {
    pub(crate) reader: Reader<Published, SeatView, PublishRule>,
    // The last number that it was shown.
    pub(crate) seen: u64,
    // The greatest number that it was told, or the first one.
    pub(crate) told: u64,
    pub(crate) range: NumberRange,
    ghost knows: { ((view reader.place).seen ≡ seen) × ((view reader.place).last ≡ range.last) },
    pub ghost seen_within: { IsInRange seen range },
    pub ghost told_within: { IsInRange told range },
}

impl ConfReader {
    ghost use Rattle.std.specs.Prelude.{◌<◌, IfSome, IfNone, max};
    ghost use Rattle.npf_publish.specs.ConfReader.{reader_range, looks_made, least_number, Reads, SeesNone};
    ghost use Rattle.npf_publish.specs.Told.{told_number};

    /// The number that is published now, in the publisher's range and no less than what this reader read before or was told. Once it was
    /// shown the last number it reads that one without a look. Before that it waits only for a number that it was told, and for ever once
    /// its publisher is closed.
    pub fn read<R: Wait>(&mut self, rt: &R) -> u64
        ensures { Reads self.old self.new result }
    {
        // No number comes behind the last one, so what is shown need not be read again.
        if self.seen == self.range.last {
            return self.seen;
        }
        replace_with(self, rt, |reader, rt| reader.read_next(rt))
    }

    fn read_next<R: Wait>(self, rt: &R) -> (ConfReader, u64)
        ensures { Reads self result.0 result.1 }
    {
        let mut reader = self;
        for _ in rt.forever() {
            let (next, number) = reader.look();
            if let Some(number) = number {
                return (next, number);
            }
            reader = next;
        }
        unreachable!()
    }

    // One look. None where the publisher is closed and no look was made, or what it shows is below what the reader was told.
    pub(crate) fn look(self) -> (ConfReader, Option<u64>)
        ensures read { IfSome result.1 (Reads self result.0) }
        ensures looks { IfSome result.1 (λ _. looks_made self < looks_made result.0) }
        ensures none { IfNone result.1 (SeesNone self result.0) }
    {
        let ConfReader {
            reader,
            mut seen,
            told,
            range,
        } = self;
        let (reader, number) = match reader.enter_as::<LookStep>() {
            Ok(reading) => {
                let number = reading.get().number;
                (reading.leave(), Some(number))
            }
            Err(same) => (same, None),
        };
        if let Some(number) = number {
            seen = number;
        }
        (
            ConfReader {
                reader,
                seen,
                told,
                range,
            },
            number.filter(|number| told <= *number),
        )
    }

    /// Tells the reader a number of its publisher: from then on it reads none below.
    pub fn learn(&mut self, told: &Told)
        requires { told_number told.now ≤ (reader_range self.old).last }
        ensures range { reader_range self.new ≡ reader_range self.old }
        ensures least { least_number self.new ≡ max (least_number self.old) (told_number told.now) }
    {
        self.told = self.told.max(told.number);
    }
}
