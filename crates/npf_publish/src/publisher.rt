// The one that publishes.
//
// Relied on are the ruled reads and steps of `left_right` (`Reader::enter_as`, `Writer::publish_as`): each takes effect at one step and keeps a
// rule over the value that is shown and what each seat knows. The publishing step is always Ok, as taking in a number can't fail. That a
// publisher's wait for its readers ends, no contract says. The last number stands beside the one that is shown, as a rule is a type and can't
// name a number of a run. A place that `left_right` refuses is out of memory, since that crate names no cause.
ghost use Rattle.std.specs.Prelude.{◌≡◌, ◌≤◌, [], drop};
ghost use Rattle.left_right.specs.Sides.{view};
ghost use Rattle.npf_publish.specs.NumberRange.{IsInRange};

use crate::conf_reader::ConfReader;
use crate::number_range::NumberRange;
use crate::protocol::{Combined, Copied, FirstLook, LookStep, PublishRule, Published, SeatView};
use crate::told::Told;
use core::mem::replace_with;
use left_right::writer::Writer;
use npf_types::NoMemory;
use std::alloc::Global;
use std::sync::Wait;

/// The one that publishes. It isn't dropped but closed, since its readers may have to let go of what they read.
pub struct Publisher {
    writer: Writer<Published, u64, SeatView, PublishRule>,
    number: u64,
    range: NumberRange,
    ghost shows: { (writer.desk.shown.value.number ≡ number) × (writer.desk.shown.value.last ≡ range.last) },
    ghost shows_all: { drop writer.behind writer.log.items ≡ [] },
    ghost knows: { ((view writer.desk.place).seen ≡ number) × ((view writer.desk.place).last ≡ range.last) },
    pub ghost within: { IsInRange number range },
}

impl Publisher {
    ghost use Rattle.std.specs.Prelude.{◌<◌, ◌+◌, All, IfOk, OnOk, OnErr, vec_len};
    ghost use Rattle.npf_publish.specs.ConfReader.{IsNewReader};
    ghost use Rattle.npf_publish.specs.Publisher.{published_number, publisher_range};
    ghost use Rattle.npf_publish.specs.Told.{told_number};

    /// A publisher of the numbers from `first` to `last` that has published `first`, and so many readers of it, 1 to 64, which can
    /// go to other threads. Want of memory is also answered where `left_right` refuses a place to a reader.
    pub fn new<R: Wait>(
        rt: &R,
        alloc: Global,
        readers: u32,
        first: u64,
        last: u64,
    ) -> Result<(Publisher, Vec<ConfReader>), NoMemory>
        requires readers { (0 < readers) × (readers ≤ 64) }
        requires range { first ≤ last }
        ensures number { IfOk result (λ made. published_number made.0 ≡ first) }
        ensures range { IfOk result (λ made. publisher_range made.0 ≡ record { first = first; last = last }) }
        ensures count { IfOk result (λ made. vec_len made.1 ≡ readers) }
        ensures readers { IfOk result (λ made. All (IsNewReader (record { first = first; last = last })) made.1.items) }
    {
        let mut made = Vec::with_capacity(alloc, readers as usize)?;
        let range = NumberRange { first, last };
        let mut publisher = Publisher::start(rt, alloc, readers, range)?;
        for _ in 0..readers {
            match publisher.reader() {
                Ok(reader) => made.push_reserved(reader),
                Err(NoMemory) => {
                    publisher.close(rt);
                    return Err(NoMemory);
                }
            }
        }
        Ok((publisher, made))
    }

    // A publisher without readers, with room for so many.
    fn start<R: Wait>(
        rt: &R,
        alloc: Global,
        readers: u32,
        range: NumberRange,
    ) -> Result<Publisher, NoMemory>
        requires readers { (0 < readers) × (readers ≤ 64) }
        requires range { range.first ≤ range.last }
        ensures number { IfOk result (λ publisher. published_number publisher ≡ range.first) }
        ensures range { IfOk result (λ publisher. publisher_range publisher ≡ range) }
    {
        let shown = Published {
            number: range.first,
            last: range.last,
        };
        let writer = Writer::new(alloc, shown, shown, readers as usize)?;
        let (writer, _shown) = writer.publish_as::<FirstLook, R>(rt);
        Ok(Publisher {
            writer,
            number: range.first,
            range,
        })
    }

    // One more reader, before a second number is published.
    fn reader(&mut self) -> Result<ConfReader, NoMemory>
        requires { published_number self.old ≡ (publisher_range self.old).first }
        ensures number { published_number self.new ≡ published_number self.old }
        ensures range { publisher_range self.new ≡ publisher_range self.old }
        ensures reader { IfOk result (IsNewReader (publisher_range self.old)) }
    {
        let mut reader = self.writer.factory().reader()?;
        reader.learn::<Combined>(self.writer.tell::<Copied>());
        Ok(ConfReader {
            reader,
            seen: self.number,
            told: self.number,
            range: self.range,
        })
    }

    /// Publishes the next number. Where memory runs out nothing is published.
    pub fn publish<R: Wait>(&mut self, rt: &R) -> Result<Told, NoMemory>
        requires { published_number self.old < (publisher_range self.old).last }
        ensures range { publisher_range self.new ≡ publisher_range self.old }
        ensures next { OnOk result (published_number self.new ≡ published_number self.old + 1) }
        ensures told { IfOk result (λ told. told_number told ≡ published_number self.new) }
        ensures stays { OnErr result (published_number self.new ≡ published_number self.old) }
    {
        replace_with(self, rt, |publisher, rt| publisher.published_next(rt))
    }

    fn published_next<R: Wait>(self, rt: &R) -> (Publisher, Result<Told, NoMemory>)
        requires { published_number self < (publisher_range self).last }
        ensures range { publisher_range result.0 ≡ publisher_range self }
        ensures next { OnOk result.1 (published_number result.0 ≡ published_number self + 1) }
        ensures told { IfOk result.1 (λ told. told_number told ≡ published_number result.0) }
        ensures stays { OnErr result.1 (published_number result.0 ≡ published_number self) }
    {
        let Publisher {
            mut writer,
            number,
            range,
        } = self;
        let next = number + 1;
        if writer.append(next).is_err() {
            let same = Publisher {
                writer,
                number,
                range,
            };
            return (same, Err(NoMemory));
        }
        let (writer, _shown) = writer.publish_as::<LookStep, R>(rt);
        let publisher = Publisher {
            writer,
            number: next,
            range,
        };
        (publisher, Ok(Told { number: next }))
    }

    /// Ends the publisher. Readers that read from then on wait forever, so end their threads first.
    pub fn close<R: Wait>(self, rt: &R) {
        let Publisher {
            writer,
            number: _,
            range: _,
        } = self;
        writer.take(rt);
    }
}
