//! The loop over the records of an input.

ghost use Rattle.std.specs.Prelude.{◌≡◌, [], Contains, IfErr, IfOk, MatchBool, Ok, OnErr, OnOk, true};
ghost use Rattle.std.specs.Io.KnownBytes.{IsAtEnd};
ghost use Rattle.olr_messages.specs.Messages.{IsCutOff, IsOver, ReadsLine, left_of};
ghost use Rattle.olr_app.specs.Writing.{HasStopped};
ghost use Rattle.olr_request.specs.declared.fault.Fault.TheVariants as fault;
ghost use Rattle.olr_batch.specs.Run.{AreAnswered, IsStopped};
ghost use Rattle.olr_batch.specs.Steps.{IsLast, IsPassedOn, IsStepStopped, IsWrittenNext};
ghost use Rattle.olr_batch.specs.Steps.{MayAsk};

use crate::record::write_record;
use crate::reply::RecordsOnMap;
use olr_app::{Fault, MapForRequests, Sink, Source, put_whole};
use olr_base::{Failed, NoMemory};
use olr_messages::Messages;
use olr_road::Map;
use olr_words::{LastQuestion, Records};
use std::alloc::Global;

/// How many bytes a line takes at most that has a fault in place of an answer. Its key and the words
/// in its fault are parts of a record of 65,536 bytes, of which each is escaped by six at most.
/// Beside them are at most 256.
const ROOM: usize = 6 * 65_536 + 256;

/// What answers the records of an input, one after the other.
#[derive(Drop)]
struct Answering {
    alloc: Global,
    messages: Messages,
    line: Vec<u8>,
}

/// Has the sink pass on what it took, unless a whole record is at hand.
fn pass_on_unless<O: Sink>(is_at_hand: bool, out: &mut O) -> Result<(), Fault>
    ensures passed_on { OnOk result
        (IsPassedOn O.taken O.failed O.flush_gives is_at_hand out.old out.new) }
    ensures fault { IfErr result (λ why. (why ≡ fault.WriteFailed)
        × HasStopped O.taken O.failed O.put_gives O.flush_gives [] out.old out.new) }
{
    if is_at_hand {
        return Ok(());
    }
    let Ok(()) = out.flush_out() else {
        return Err(Fault::WriteFailed);
    };
    Ok(())
}

/// Moves on to the next record, and answers whether there was one. Where its line isn't at hand as
/// a whole, it asks the input for more; the last call on the sink has passed on what that took
/// then, so whoever gives the input can have seen the lines of all records before.
///
/// # Errors
///
/// [`Failed`] as [`Messages::next`] answers it.
fn next_record<S: Source, O: Sink>(
    messages: &mut Messages,
    input: &mut S,
    _out: &O,
) -> Result<bool, Failed>
    requires may_ask { MayAsk O.flush_gives messages.old.at_hand _out.now }
    ensures moves { IfOk result (λ found. MatchBool found
        (ReadsLine (left_of messages.old (S.left input.old)) (left_of messages.new (S.left input.new))
        messages.new.front)
        (IsOver (left_of messages.old (S.left input.old)) (left_of messages.new (S.left input.new)))) }
    ensures none_failed { OnOk result (S.failed input.new ≡ S.failed input.old) }
    ensures cut_off { OnErr result (IsCutOff
        (left_of messages.old (S.left input.old)) (left_of messages.new (S.left input.new))
        messages.new.at_hand (S.failed input.old) (S.failed input.new)) }
    ensures none_at_hand { OnErr result (messages.new.at_hand ≡ []) }
    ensures answers { Contains messages.old.at_hand 10 → result ≡ Ok true }
    ensures asks_nothing { Contains messages.old.at_hand 10 → input.new ≡ input.old }
{
    messages.next(input)
}

impl Answering {
    /// What answers the records of an input that is to be read from its start.
    fn new(alloc: Global) -> Result<Answering, NoMemory>
        ensures { IfOk result (λ answering. answering.messages.at_hand ≡ []) }
    {
        let messages = Messages::new(alloc)?;
        let line = Vec::with_capacity(alloc, ROOM)?;
        Ok(Answering {
            alloc,
            messages,
            line,
        })
    }

    /// Writes what is written for the next record, which has this number, and answers whether there
    /// was one. Before more input is asked for, the sink passes on what it took.
    fn next<S: Source, O: Sink>(
        &mut self,
        on: &mut RecordsOnMap<'_>,
        number: u64,
        input: &mut S,
        out: &mut O,
    ) -> Result<bool, Fault>
        ensures records { on.new.records ≡ on.old.records }
        ensures map { on.new.map.map ≡ on.old.map.map }
        ensures moves { IfOk result (λ found. MatchBool found
            (IsWrittenNext O.taken O.failed on.old.records.now on.old.map.map.now number
            (left_of self.old.messages (S.left input.old))
            (left_of self.new.messages (S.left input.new)) out.old out.new)
            (IsLast O.taken O.failed O.flush_gives
            (left_of self.old.messages (S.left input.old))
            (left_of self.new.messages (S.left input.new)) out.old out.new)) }
        ensures none_failed { OnOk result (S.failed input.new ≡ S.failed input.old) }
        ensures fault { IfErr result (IsStepStopped O.taken O.failed O.put_gives O.flush_gives
            on.old.records.now on.old.map.map.now number
            (left_of self.old.messages (S.left input.old))
            (left_of self.new.messages (S.left input.new)) self.new.messages.at_hand
            (S.failed input.old) (S.failed input.new) out.old out.new) }
    {
        let is_at_hand = self.messages.holds_whole();
        pass_on_unless(is_at_hand, out)?;
        let Ok(found) = next_record(&mut self.messages, input, out) else {
            return Err(Fault::InputNotRead);
        };
        if !found {
            return Ok(false);
        }
        let content = self.messages.content();
        write_record(self.alloc, on, number, content, &mut self.line)?;
        let Ok(()) = put_whole(out, &self.line) else {
            return Err(Fault::WriteFailed);
        };
        Ok(true)
    }

    /// Writes what is written for all records.
    fn all<S: Source, O: Sink>(
        &mut self,
        on: &mut RecordsOnMap<'_>,
        input: &mut S,
        out: &mut O,
    ) -> Result<(), Fault>
        requires none_at_hand { self.old.messages.at_hand ≡ [] }
        ensures answered { OnOk result (AreAnswered O.taken O.failed O.flush_gives
            on.old.records.now on.old.map.map.now (S.left input.old) out.old out.new) }
        ensures input_source { OnOk result
            (IsAtEnd (S.left input.new) × (S.failed input.new ≡ S.failed input.old)) }
        ensures fault { IfErr result (IsStopped S.left S.failed O.taken O.failed O.put_gives
            O.flush_gives on.old.records.now on.old.map.map.now input.old input.new out.old out.new) }
    {
        for number in 1..u64::MAX {
            if !self.next(on, number, input, out)? {
                return Ok(());
            }
        }
        // The number of a further record can't be counted.
        pass_on_unless(false, out)?;
        Err(Fault::InputNotRead)
    }
}

/// Answers each record of an input on a map that was read before, by one line of JSON, as
/// [`run_batch`](crate::run_batch) does.
///
/// # Errors
///
/// Those of [`run_batch`](crate::run_batch), but for those of the map.
pub fn answer_records<S: Source, O: Sink>(
    alloc: Global,
    map: &Map,
    records: &Records,
    input: &mut S,
    out: &mut O,
) -> Result<(), Fault>
    ensures answered { OnOk result (AreAnswered O.taken O.failed O.flush_gives records.now map.now
        (S.left input.old) out.old out.new) }
    ensures input_source { OnOk result
        (IsAtEnd (S.left input.new) × (S.failed input.new ≡ S.failed input.old)) }
    ensures fault { IfErr result (IsStopped S.left S.failed O.taken O.failed O.put_gives
        O.flush_gives records.now map.now input.old input.new out.old out.new) }
{
    let mut on = RecordsOnMap {
        records,
        map: MapForRequests::new(map),
        last: LastQuestion::none(),
    };
    Answering::new(alloc)?.all(&mut on, input, out)?;
    Ok(())
}
