//! The two words of a run.
use dump_lanes::StopWord;

/// One word stops the cutter. The other one tells the cutter to cut nothing if a thread couldn't be started.
#[derive(Drop)]
pub struct Words {
    pub stop: StopWord,
    pub shut: StopWord,
}
