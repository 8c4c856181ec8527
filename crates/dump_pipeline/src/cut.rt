//! The cutter.
ghost use Rattle.std.specs.Prelude.{◌≡◌, ◌<◌, ◌≤◌, ◌^◌, [], length, false, is_none, IfSome};
ghost use Rattle.dump_lanes.specs.steps.PortViews.{job_port};
ghost use Rattle.dump_pipeline.specs.steps.Parts.{HasCut, HasCutFrom, IsFreshCutter};

use crate::message::{Checked, Job, Run};
use crate::stops::Words;
use dump_lanes::{Credit, Drawn, JobPort, StopSeat, StopWord};
use dump_records::{Cut, Cutter};
use std::sync::Wait;

/// The cutter's port.
pub type CutterPort<'a, D> = JobPort<Job<'a, D>, Checked<'a, D>>;

/// The cutter's ends: its port, and its seats at the word that stops it and at the one that tells it to cut nothing.
#[derive(Drop)]
pub struct CutterEnds<J: Drop, D: Drop> {
    pub port: JobPort<J, D>,
    pub seat: StopSeat,
    pub shut: StopSeat,
}

/// The ends that the cutter of a run gets and returns.
pub type Cutting<'a, D> = CutterEnds<Job<'a, D>, Checked<'a, D>>;

/// Draws a credit, unless it sees the stop.
fn draw<'a, D: Run, R: Wait>(
    rt: &R,
    port: &mut CutterPort<'a, D>,
    word: &StopWord,
    seat: &mut StopSeat,
) -> Option<Credit>
    requires open { (job_port port.old).marks ≡ 0 }
    requires this_word { seat.old.word ≡ word.now }
    ensures port { job_port port.new ≡ record (job_port port.old) { drawn = (job_port port.new).drawn } }
    ensures drawn { IfSome result (λ _. (job_port port.old).drawn < (job_port port.new).drawn) }
    ensures no_fewer { (job_port port.old).drawn ≤ (job_port port.new).drawn }
    ensures seen { seat.new ≡ record seat.old { seen = is_none result } }
{
    match port.draw(rt, word, seat) {
        Drawn::Credit(credit) => { if word.look(seat) { None } else { Some(credit) } }
        Drawn::Stop => None,
    }
}

/// The length of the dump, which is less than 2^63.
fn count_bytes(dump: &[u8]) -> usize
    ensures { (result ≡ length dump.now) × (result < 2 ^ 63) }
{
    dump.len()
}

/// Puts a job for each record, and one for the end of the records, unless the stop is seen.
fn cut_all<'a, D: Run, R: Wait>(
    rt: &R,
    dump: &'a [u8],
    port: &mut CutterPort<'a, D>,
    word: &StopWord,
    seat: &mut StopSeat,
)
    requires dump { dump.now ≡ D.dump }
    requires open { (job_port port.old).marks ≡ 0 }
    requires fresh { (job_port port.old).put ≡ [] }
    requires this_word { seat.old.word ≡ word.now }
    ensures pool { (job_port port.new).pool ≡ (job_port port.old).pool }
    ensures workers { (job_port port.new).workers ≡ (job_port port.old).workers }
    ensures open { (job_port port.new).marks ≡ 0 }
    ensures cut { HasCut D.dump (job_port port.new) seat.new.seen }
    ensures seat { seat.new ≡ record seat.old { seen = seat.new.seen } }
{
    // a dump has no more records than bytes, so the count of records has room
    count_bytes(dump);
    let mut cutter = Cutter::new(dump);
    let mut number = 0u64;
    for _ in rt.forever() {
        let Some(credit) = draw(rt, port, word, seat) else {
            return;
        };
        match cutter.next() {
            Cut::Item(record) => {
                number = record.number() + 1;
                port.put(rt, Job::item(record, credit));
            }
            Cut::Finished => {
                port.put(rt, Job::last(number, None, credit));
                return;
            }
            Cut::Fault { kind, place } => {
                port.put(rt, Job::last(number, Some((kind, place)), credit));
                return;
            }
        }
    }
    unreachable!()
}

/// Puts the jobs of the dump, and then the end marks; only the end marks if it was told before to cut nothing.
pub fn cut<'a, D: Run, R: Wait>(
    rt: &R,
    dump: &'a [u8],
    words: &Words,
    ends: Cutting<'a, D>,
) -> Cutting<'a, D>
    requires dump { dump.now ≡ D.dump }
    requires fresh { IsFreshCutter words.now ends }
    ensures { HasCutFrom D.dump ends.entry result }
{
    let CutterEnds {
        mut port,
        mut seat,
        mut shut,
    } = ends;
    if !words.shut.look(&mut shut) {
        cut_all(rt, dump, &mut port, &words.stop, &mut seat);
    }
    port.close(rt);
    CutterEnds { port, seat, shut }
}
